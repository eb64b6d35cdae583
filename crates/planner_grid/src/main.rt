// The planner over a grid: frames on standard input, answers on standard output.
#![tactic(auto)]

use delivery::over_grid;
use std::io::{Read, Write};
use workspace::Workspace;

// One byte more than is served, so that longer input shows.
const READ_LIMIT: u64 = 32769;

// Words for 200 vertices, four each.
const WORDS: usize = 800;

// Edits take no workspace. A function for this and the other program would be public and could promise
// nothing: no clause says what is printed.
fn main(rt: HostRuntime) -> anyhow::Result<()> {
    let heap = rt.alloc();
    let mut input = Vec::new(heap);
    rt.stdin().take(READ_LIMIT).read_to_end(&mut input)?;
    let mut words = vec![in heap; 0u64; WORDS]?;
    let mut out = Vec::new(heap);
    let (_, written) = over_grid(&mut words, &mut Workspace::none(), &input, &mut out);
    written?;
    rt.stdout().write_all(&out)?;
    Ok(())
}
