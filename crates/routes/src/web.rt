// The digraph of a flow's arcs, by its numbers: what every function here is told of it.
ghost use Rattle.std.specs.Prelude.{◌≡◌, ◌≤◌};
ghost use Rattle.graph.specs.Graph.{order_limit, node_limit};

// How many nodes it has, how many vertices the map below it, and the nodes from which and to which the
// flow goes. The lowest nodes are the vertices.
#[derive(Clone, Copy)]
pub struct Web {
    pub(crate) nodes: u16,
    pub(crate) order: u16,
    pub(crate) from: u16,
    pub(crate) to: u16,
    ghost few: { nodes ≤ node_limit },
    ghost small: { order ≤ order_limit },
}

impl Web {
    // The digraph of so many nodes over a map of so many vertices.
    pub fn of(nodes: u16, order: u16, from: u16, to: u16) -> Web
        requires { (nodes ≤ node_limit) × (order ≤ order_limit) }
        ensures sizes { (result.nodes ≡ nodes) × (result.order ≡ order) }
        ensures ends { (result.from ≡ from) × (result.to ≡ to) }
    {
        Web {
            nodes,
            order,
            from,
            to,
        }
    }
}
