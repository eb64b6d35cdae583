// How much memory the questions need, and how the work memory of a workspace is used. Its content
// after an accepted question is free.
ghost use Rattle.std.specs.Prelude.{◌≡◌, ◌≤◌, length};
ghost use Rattle.graph.specs.Graph.{node_limit};
ghost use Rattle.connectivity.specs.Needed.{edges_needed, vertices_needed};

use augment::Notes;
use model::Sizes;
use ring::Step;
use search::Slots;

// How many words, numbers, and cells of each kind of item that waits, a question needs, whatever the
// map: words for a flow, numbers for the way back, cells for the nodes and steps that wait in a search.
pub const WORDS: usize = 4096;

pub const NUMBERS: usize = 2048;

pub const CELLS: usize = 1024;

// The work memory alone.
const WORK: Sizes = Sizes {
    words: WORDS,
    numbers: NUMBERS,
    nodes: CELLS,
    steps: CELLS,
    edges: 0,
    vertices: 0,
    runs: 0,
    routes: 0,
};

// What an edge question needs on a map of n vertices.
pub(crate) fn edges_needed(n: u16) -> Sizes
    ensures { result ≡ edges_needed n }
{
    Sizes {
        edges: n.saturating_sub(1) as usize,
        ..WORK
    }
}

// What a vertex question needs.
pub(crate) fn vertices_needed(n: u16) -> Sizes
    ensures { result ≡ vertices_needed n }
{
    Sizes {
        vertices: n.saturating_sub(1) as usize,
        ..WORK
    }
}

// What a search writes besides its marks: the notes for the way back, with a number for every node
// that a plan has, and the slots of the two kinds of items that wait. Nothing of it is read after
// the search but the notes.
#[derive(Drop)]
pub(crate) struct Scratch<'m, 'n, 's> {
    pub notes: Notes<'m>,
    pub nodes: Slots<'n, u16>,
    pub steps: Slots<'s, Step>,
}

impl<'m, 'n, 's> Scratch<'m, 'n, 's> {
    // The scratch memory in what is lent.
    pub(crate) fn over(
        numbers: &'m mut [u16],
        nodes: &'n mut [u16],
        steps: &'s mut [Step],
    ) -> Scratch<'m, 'n, 's>
        requires { (node_limit ≤ length numbers.old) × (node_limit ≤ length nodes.old) × (node_limit ≤ length steps.old) }
        ensures { result.notes.before.now ≡ numbers.old }
    {
        Scratch {
            notes: Notes::over(numbers),
            nodes: Slots::over(nodes),
            steps: Slots::over(steps),
        }
    }
}
