// What tests claim. A claim that does not hold gives the test a failure to return; nothing here
// ends the process.
#![tactic(auto)]

ghost use Rattle.std.specs.Prelude.{◌≡◌, is_ok};

use std::test::Fail;

// Fails unless the claim holds.
pub fn check(holds: bool) -> Result<(), Fail>
    ensures { is_ok result ≡ holds }
{
    if holds {
        Ok(())
    } else {
        Err(Fail::new("a claim does not hold"))
    }
}
