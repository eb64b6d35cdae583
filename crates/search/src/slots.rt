// The slots that a search lends to the queue of the nodes that wait.
ghost use Rattle.std.specs.Prelude.{◌≡◌, ◌≤◌, length};
ghost use Rattle.graph.specs.Graph.{node_limit};

// Lent slots, as many as a search can have nodes waiting.
#[derive(Drop)]
pub struct Slots<'a, E> {
    pub(crate) cells: &'a mut [E],
    ghost fits: { node_limit ≤ length cells.now },
}

impl<'a, E> Slots<'a, E> {
    // The slots in lent cells.
    pub fn over(cells: &'a mut [E]) -> Slots<'a, E>
        requires { node_limit ≤ length cells.old }
        ensures { result.cells.now ≡ cells.old }
    {
        Slots { cells }
    }
}
