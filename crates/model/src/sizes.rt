// How much of a workspace is lent with a call.
ghost use Rattle.std.specs.Prelude.{◌≡◌};
ghost use Rattle.model.specs.Sizes.{below};

// How many entries each part of a workspace has: words, numbers, nodes and steps for the work itself,
// and the buffers for edges, vertices, runs and routes.
#[derive(Debug, Clone, Copy, PartialEq, Eq)]
pub struct Sizes {
    pub words: usize,
    pub numbers: usize,
    pub nodes: usize,
    pub steps: usize,
    pub edges: usize,
    pub vertices: usize,
    pub runs: usize,
    pub routes: usize,
}

impl Sizes {
    // Whether one of them is below what is needed.
    pub fn below(self, needed: Sizes) -> bool
        ensures { result ≡ below self needed }
    {
        self.words < needed.words
            || self.numbers < needed.numbers
            || self.nodes < needed.nodes
            || self.steps < needed.steps
            || self.edges < needed.edges
            || self.vertices < needed.vertices
            || self.runs < needed.runs
            || self.routes < needed.routes
    }
}
