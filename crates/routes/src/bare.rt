// Nodes without arcs, as a plan: a search over it goes back along the flow alone. So the one search finds
// the way that a unit of the flow takes, from its end back.
ghost use Rattle.std.specs.Prelude.{◌≡◌, ◌≤◌};
ghost use Rattle.graph.specs.Graph.{node_limit};
ghost use Rattle.routes.specs.Bare.{bare, bare_sound};

use plan::Plan;

// So many nodes.
#[derive(Drop)]
pub(crate) struct Bare {
    nodes: u16,
    ghost few: { nodes ≤ node_limit },
}

impl Bare {
    // So many nodes, without an arc.
    pub(crate) fn of(nodes: u16) -> Bare
        requires { nodes ≤ node_limit }
        ensures { result.nodes ≡ nodes }
    {
        Bare { nodes }
    }
}

impl Plan for Bare {
    type Item = u16;

    ghost digraph = { λ s. bare s.nodes };

    ghost sound = { λ s. bare_sound s.nodes };

    ghost small = { λ s. s.few };

    // The number of nodes.
    fn node_count(&mut self) -> u16 {
        self.nodes
    }

    // No arc leads anywhere.
    fn leads(&mut self, _p: u16, _q: u16) -> bool {
        false
    }

    // No arc leads anywhere.
    fn next_arc(&mut self, _p: u16, _w: u16) -> Option<u16> {
        None
    }
}
