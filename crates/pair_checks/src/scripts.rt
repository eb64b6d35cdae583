// A script of calls, played from before its make.
use claims::check;
use grid::Grid;
use list::List;
use model::{Answer, Call, Refusal};
use session::{Asked, play};
use std::test::Fail;
use store::{Editable, Map};
use workspace::Workspace;

// A call that is lent no workspace, and not replied to yet.
fn asked(call: Call) -> Asked<'static> {
    Asked {
        call,
        workspace: Workspace::none(),
        reply: Err(Refusal::OutOfTurn),
    }
}

// Calls before the make, two makes, and edits that are accepted and refused.
fn played<S: Editable>(memory: S::Memory) -> Result<(), Fail> {
    let mut script = [
        asked(Call::Join(0, 1)),
        asked(Call::Make(0)),
        asked(Call::Make(3)),
        asked(Call::Join(0, 1)),
        asked(Call::Make(3)),
        asked(Call::Strike(1, 0)),
        asked(Call::Part(0, 1)),
    ];
    let session = play::<S>(memory, &mut script);
    check(script[0].reply == Err(Refusal::OutOfTurn))?;
    check(script[1].reply == Err(Refusal::BadOrder))?;
    check(script[2].reply == Ok(Answer::Made))?;
    check(script[3].reply == Ok(Answer::Joined))?;
    check(script[4].reply == Err(Refusal::OutOfTurn))?;
    check(script[5].reply == Ok(Answer::Struck))?;
    check(script[6].reply == Err(Refusal::IsStruck))?;
    match session {
        Ok(mut planner) => check(planner.order() == 3 && !planner.joined(0, 1)),
        Err(_) => Err(Fail::new("no make was accepted")),
    }
}

#[test]
fn played_over_each_store() -> Result<(), Fail> {
    played::<Grid>(&mut [0u64; 12])?;
    played::<List>(&mut [0u16; 3])
}
