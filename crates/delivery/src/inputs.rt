// A session on bytes over each store: lines in, and the text of the replies out.
ghost use Rattle.std.specs.Prelude.{◌≡◌, ◌+◌, ◌<◌, ◌≤◌, length, Err, IfOk, IfErr, IsOk, vec_len, vec_capacity};
ghost use Rattle.workspace.specs.Parts.{buffers, sizes_of, SameMemory, Untouched};
ghost use Rattle.session.specs.Kept.{state_reached};
ghost use Rattle.session.specs.Calls.{lent_at};
ghost use Rattle.serve.specs.Served.{input_limit, Served, Broken, text_limit};
ghost use Rattle.grid.specs.Meaning as grid_meaning;
ghost use Rattle.list.specs.Meaning as list_meaning;
ghost use Rattle.delivery.specs.Rooms.{grid_room, list_room};
ghost use Rattle.delivery.specs.Held.{GridHolds, ListHolds};

use grid::Grid;
use list::List;
use serve::serve;
use session::Planner;
use std::alloc::AllocError;
use workspace::Workspace;

// Serves an input over a grid: writes the text of the replies behind what `out` holds, and gives the
// planner, or the words as they were lent. An error is want of memory for the text.
pub fn over_grid<'a>(
    words: &'a mut [u64],
    workspace: &mut Workspace<'_>,
    input: &[u8],
    out: &mut Vec<u8>,
) -> (
    Result<Planner<Grid<'a>>, &'a mut [u64]>,
    Result<(), AllocError>,
)
    ensures served { IfOk result.1 (λ _. Served (lent_at (grid_room words.old) workspace.old) input.now
        (GridHolds words.old result.0) (state_reached grid_meaning.graph_of grid_meaning.capacity_of result.0)
        (buffers workspace.old) (buffers workspace.new) out.old.items out.new.items) }
    ensures broken { IfErr result.1 (λ _. Broken (lent_at (grid_room words.old) workspace.old) input.now
        (GridHolds words.old result.0) (state_reached grid_meaning.graph_of grid_meaning.capacity_of result.0)
        (buffers workspace.old) (buffers workspace.new) out.old.items out.new.items) }
    ensures long { input_limit < length input.now → result.0 ≡ Err words.entry }
    ensures back { IfErr result.0 (λ m. m ≡ words.entry) }
    ensures untouched { Untouched workspace.old workspace.new }
    ensures memory { SameMemory workspace.old workspace.new }
    ensures sizes { sizes_of workspace.new ≡ sizes_of workspace.old }
    ensures succeeds { vec_len out.old + text_limit input.now ≤ vec_capacity out.old → IsOk result.1 }
{
    serve::<Grid>(words, workspace, input, out)
}

// Serves an input over a list: writes the text of the replies behind what `out` holds, and gives the
// planner, or the cells as they were lent. An error is want of memory for the text.
pub fn over_list<'a>(
    cells: &'a mut [u16],
    workspace: &mut Workspace<'_>,
    input: &[u8],
    out: &mut Vec<u8>,
) -> (
    Result<Planner<List<'a>>, &'a mut [u16]>,
    Result<(), AllocError>,
)
    ensures served { IfOk result.1 (λ _. Served (lent_at (list_room cells.old) workspace.old) input.now
        (ListHolds cells.old result.0) (state_reached list_meaning.graph_of list_meaning.capacity_of result.0)
        (buffers workspace.old) (buffers workspace.new) out.old.items out.new.items) }
    ensures broken { IfErr result.1 (λ _. Broken (lent_at (list_room cells.old) workspace.old) input.now
        (ListHolds cells.old result.0) (state_reached list_meaning.graph_of list_meaning.capacity_of result.0)
        (buffers workspace.old) (buffers workspace.new) out.old.items out.new.items) }
    ensures long { input_limit < length input.now → result.0 ≡ Err cells.entry }
    ensures back { IfErr result.0 (λ m. m ≡ cells.entry) }
    ensures untouched { Untouched workspace.old workspace.new }
    ensures memory { SameMemory workspace.old workspace.new }
    ensures sizes { sizes_of workspace.new ≡ sizes_of workspace.old }
    ensures succeeds { vec_len out.old + text_limit input.now ≤ vec_capacity out.old → IsOk result.1 }
{
    serve::<List>(cells, workspace, input, out)
}
