// The law of a session, in specs/, and what follows from right replies alone. There is nothing to
// run here: each function's contract is a theorem.
#![tactic(auto)]

ghost use Rattle.law.specs.Laws.{RightGoesTogether, OneMore, NotBegun, Begun};

// What was right at two moments goes together.
pub fn right_goes_together()
    ensures { RightGoesTogether }
{}

// One right reply more keeps a session sound.
pub fn one_more()
    ensures { OneMore }
{}

// A session begins before its make, with no event.
pub fn not_begun()
    ensures { NotBegun }
{}

// An accepted make alone is a sound session.
pub fn begun()
    ensures { Begun }
{}
