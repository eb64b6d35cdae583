// A script of calls over each store, each call with a workspace of its own.
ghost use Rattle.std.specs.Prelude.{◌≡◌, IfErr};
ghost use Rattle.law.specs.Law.{Sound};
ghost use Rattle.session.specs.Kept.{state_reached};
ghost use Rattle.session.specs.Script.{events_of, WrittenOnly};
ghost use Rattle.grid.specs.Meaning as grid_meaning;
ghost use Rattle.list.specs.Meaning as list_meaning;
ghost use Rattle.delivery.specs.Rooms.{grid_room, list_room};
ghost use Rattle.delivery.specs.Held.{GridHolds, ListHolds};

use grid::Grid;
use list::List;
use session::{Asked, Planner, play};

// Plays a script over a grid, and gives the planner, or the words as they were lent.
pub fn play_on_grid<'a>(
    words: &'a mut [u64],
    script: &mut [Asked<'_>],
) -> Result<Planner<Grid<'a>>, &'a mut [u64]>
    ensures law { Sound (events_of (grid_room words.old) script.old script.new)
        (state_reached grid_meaning.graph_of grid_meaning.capacity_of result) }
    ensures held { GridHolds words.old result (events_of (grid_room words.old) script.old script.new) }
    ensures written { WrittenOnly script.old script.new }
    ensures back { IfErr result (λ m. m ≡ words.entry) }
{
    play::<Grid>(words, script)
}

// Plays a script over a list, and gives the planner, or the cells as they were lent.
pub fn play_on_list<'a>(
    cells: &'a mut [u16],
    script: &mut [Asked<'_>],
) -> Result<Planner<List<'a>>, &'a mut [u16]>
    ensures law { Sound (events_of (list_room cells.old) script.old script.new)
        (state_reached list_meaning.graph_of list_meaning.capacity_of result) }
    ensures held { ListHolds cells.old result (events_of (list_room cells.old) script.old script.new) }
    ensures written { WrittenOnly script.old script.new }
    ensures back { IfErr result (λ m. m ≡ cells.entry) }
{
    play::<List>(cells, script)
}
