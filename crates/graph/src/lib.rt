// Graphs in specifications: their definitions and first theorems. There is nothing to run
// here: each function's contract is a theorem, and the crate is refused without its proof.
#![tactic(auto)]

ghost use Rattle.graph.specs.Laws.{OneEdgeMore, OneEdgeLess, FewEdges};

// A new edge keeps a graph simple and raises the number of edges by one.
pub fn one_edge_more()
    ensures { OneEdgeMore }
{}

// An edge taken away keeps a graph simple and lowers the number of edges by one.
pub fn one_edge_less()
    ensures { OneEdgeLess }
{}

// No more edges than pairs of vertices, and a degree is below the order.
pub fn few_edges()
    ensures { FewEdges }
{}
