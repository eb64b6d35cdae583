// The memory that is lent with a call of a session: what the work itself takes, and the buffers
// that cuts, runs and routes are written into. It is one flat struct, handed on whole by `&mut`.
#![tactic(auto)]

ghost use Rattle.std.specs.Prelude.{◌≡◌};
ghost use Rattle.model.specs.Sizes.{no_sizes};
ghost use Rattle.workspace.specs.Parts.{sizes_of};

use cuts::{Edge, Run};
use model::{Sizes, Vertex};
use ring::Step;

// Words for a flow, numbers for the way back, cells for the nodes and for the steps that wait in a
// search; a buffer for a cut of edges, one for a cut of vertices, one for runs, and bytes for routes.
#[derive(Drop)]
pub struct Workspace<'a> {
    pub words: &'a mut [u64],
    pub numbers: &'a mut [u16],
    pub nodes: &'a mut [u16],
    pub steps: &'a mut [Step],
    pub edges: &'a mut [Edge],
    pub vertices: &'a mut [Vertex],
    pub runs: &'a mut [Run],
    pub routes: &'a mut [u8],
}

impl Workspace<'_> {
    // How many entries each part has.
    pub fn sizes(&self) -> Sizes
        ensures { result ≡ sizes_of self.now }
    {
        Sizes {
            words: self.words.len(),
            numbers: self.numbers.len(),
            nodes: self.nodes.len(),
            steps: self.steps.len(),
            edges: self.edges.len(),
            vertices: self.vertices.len(),
            runs: self.runs.len(),
            routes: self.routes.len(),
        }
    }
}

impl Workspace<'static> {
    // An empty workspace, enough for edits.
    pub fn none() -> Workspace<'static>
        ensures { sizes_of result ≡ no_sizes }
    {
        Workspace {
            words: &mut [],
            numbers: &mut [],
            nodes: &mut [],
            steps: &mut [],
            edges: &mut [],
            vertices: &mut [],
            runs: &mut [],
            routes: &mut [],
        }
    }
}
