// Asking a planner for the nearest cut of a pair, and holding it to what it should be. The value
// of a pair is the length of its cut; entries of the buffer past the cut keep their content.
use claims::check;
use connectivity::{CELLS, NUMBERS, WORDS};
use cuts::Edge;
use model::{Call, Vertex};
use ring::Step;
use session::{Planner, perform};
use std::test::Fail;
use store::Editable;
use workspace::Workspace;

// What cells and buffers are filled with before a question.
pub(crate) const NO_STEP: Step = Step {
    node: 0,
    before: 0,
    forwards: false,
};

pub(crate) const NO_EDGE: Edge = Edge {
    low: 900,
    high: 900,
};

pub(crate) const NO_VERTEX: Vertex = 900;

// The edge between two vertices.
pub(crate) fn edge(low: Vertex, high: Vertex) -> Edge {
    Edge { low, high }
}

// A buffer that was filled with one item has this cut in front, of as many items as the value, and
// the item behind it.
fn check_cut<T: PartialEq + Copy>(
    value: u16,
    buffer: &[T],
    cut: &[T],
    none: T,
) -> Result<(), Fail> {
    check(usize::from(value) == cut.len())?;
    check(cut.len() < buffer.len())?;
    check(&buffer[0..cut.len()] == cut)?;
    check(buffer[cut.len()] == none)
}

// The nearest edge cut of a pair is this one.
pub(crate) fn check_edges<S: Editable>(
    planner: &mut Planner<S>,
    a: Vertex,
    b: Vertex,
    cut: &[Edge],
) -> Result<(), Fail> {
    let mut workspace = Workspace {
        words: &mut [0; WORDS],
        numbers: &mut [0; NUMBERS],
        nodes: &mut [0; CELLS],
        steps: &mut [NO_STEP; CELLS],
        edges: &mut [NO_EDGE; 13],
        ..Workspace::none()
    };
    let value = planner.edge_cut_between(a, b, &mut workspace)?;
    check_cut(value, workspace.edges, cut, NO_EDGE)
}

// The nearest vertex cut of an unjoined pair is this one.
pub(crate) fn check_vertices<S: Editable>(
    planner: &mut Planner<S>,
    a: Vertex,
    b: Vertex,
    cut: &[Vertex],
) -> Result<(), Fail> {
    let mut workspace = Workspace {
        words: &mut [0; WORDS],
        numbers: &mut [0; NUMBERS],
        nodes: &mut [0; CELLS],
        steps: &mut [NO_STEP; CELLS],
        vertices: &mut [NO_VERTEX; 13],
        ..Workspace::none()
    };
    let value = planner.vertex_cut_between(a, b, &mut workspace)?;
    check_cut(value, workspace.vertices, cut, NO_VERTEX)
}

// Both nearest cuts of an unjoined pair are these, asked for one after the other in one workspace: the
// second question leaves the cut that the first one told.
pub(crate) fn check_both<S: Editable>(
    planner: &mut Planner<S>,
    a: Vertex,
    b: Vertex,
    edges: &[Edge],
    vertices: &[Vertex],
) -> Result<(), Fail> {
    let mut workspace = Workspace {
        words: &mut [0; WORDS],
        numbers: &mut [0; NUMBERS],
        nodes: &mut [0; CELLS],
        steps: &mut [NO_STEP; CELLS],
        edges: &mut [NO_EDGE; 13],
        vertices: &mut [NO_VERTEX; 13],
        ..Workspace::none()
    };
    let edge_value = planner.edge_cut_between(a, b, &mut workspace)?;
    let vertex_value = planner.vertex_cut_between(a, b, &mut workspace)?;
    check_cut(edge_value, workspace.edges, edges, NO_EDGE)?;
    check_cut(vertex_value, workspace.vertices, vertices, NO_VERTEX)
}

// A planner of a map of n vertices with these edges.
pub(crate) fn planned<S: Editable>(
    n: u16,
    edges: &[Edge],
    memory: S::Memory,
) -> Result<Planner<S>, Fail> {
    let mut planner = Planner::<S>::open(n, memory).map_err(|refused| refused.refusal)?;
    for e in edges {
        perform(
            &mut planner,
            Call::Join(e.low, e.high),
            &mut Workspace::none(),
        )?;
    }
    Ok(planner)
}
