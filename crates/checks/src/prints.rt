// What a session prints, against what it should. Edits take no workspace.
use claims::check;
use delivery::{over_grid, over_list};
use std::test::Fail;
use workspace::Workspace;

// A session over a grid of these words printed exactly that.
pub(crate) fn grid_prints(
    rt: &impl AllocGlobal,
    words: &mut [u64],
    input: &[u8],
    expected: &[u8],
) -> Result<(), Fail> {
    let mut out = Vec::new(rt.alloc());
    let (_, written) = over_grid(words, &mut Workspace::none(), input, &mut out);
    written?;
    check(out.as_slice() == expected)
}

// A session over a list of these cells printed exactly that.
pub(crate) fn list_prints(
    rt: &impl AllocGlobal,
    cells: &mut [u16],
    input: &[u8],
    expected: &[u8],
) -> Result<(), Fail> {
    let mut out = Vec::new(rt.alloc());
    let (_, written) = over_list(cells, &mut Workspace::none(), input, &mut out);
    written?;
    check(out.as_slice() == expected)
}
