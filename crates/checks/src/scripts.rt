// Scripts of calls over each store, and memory that comes back. A script is written out and read where it is
// played: to pass an array of its calls by value or by `&` is a form that the borrow checker does not cover.
use claims::check;
use delivery::{over_grid, play_on_grid, play_on_list};
use model::{Answer, Call, Refusal};
use session::Asked;
use std::test::Fail;
use workspace::Workspace;

// A call that is lent no workspace, and is not answered yet.
fn asked(call: Call) -> Asked<'static> {
    Asked {
        call,
        workspace: Workspace::none(),
        reply: Err(Refusal::OutOfTurn),
    }
}

// What a join before the make, the make, a join and the same join again are answered.
fn answered(replies: [Result<Answer, Refusal>; 4]) -> Result<(), Fail> {
    check(replies[0] == Err(Refusal::OutOfTurn))?;
    check(replies[1] == Ok(Answer::Made))?;
    check(replies[2] == Ok(Answer::Joined))?;
    check(replies[3] == Err(Refusal::IsJoined))
}

#[test]
fn a_script_over_a_grid() -> Result<(), Fail> {
    let mut script = [
        asked(Call::Join(0, 1)),
        asked(Call::Make(3)),
        asked(Call::Join(0, 1)),
        asked(Call::Join(1, 0)),
    ];
    let mut words = [7u64; 12];
    check(play_on_grid(&mut words, &mut script).is_ok())?;
    answered([
        script[0].reply,
        script[1].reply,
        script[2].reply,
        script[3].reply,
    ])
}

#[test]
fn a_script_over_a_list() -> Result<(), Fail> {
    let mut script = [
        asked(Call::Join(0, 1)),
        asked(Call::Make(3)),
        asked(Call::Join(0, 1)),
        asked(Call::Join(1, 0)),
    ];
    let mut cells = [7u16; 3];
    check(play_on_list(&mut cells, &mut script).is_ok())?;
    answered([
        script[0].reply,
        script[1].reply,
        script[2].reply,
        script[3].reply,
    ])
}

#[test]
fn memory_comes_back(rt: HostRuntime) -> Result<(), Fail> {
    let mut out = Vec::new(rt.alloc());
    let mut words = [7u64; 11];
    let (session, written) = over_grid(&mut words, &mut Workspace::none(), b"0103\n", &mut out);
    written?;
    let Err(back) = session else {
        return Err(Fail::new("a map of three vertices over eleven words"));
    };
    check(&*back == [7u64; 11].as_slice())
}
