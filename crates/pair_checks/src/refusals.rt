// Questions about pairs that are refused, the smallest number first.
use crate::asking::{NO_EDGE, NO_STEP, NO_VERTEX, edge, planned};
use claims::check;
use connectivity::{CELLS, NUMBERS, WORDS};
use grid::Grid;
use list::List;
use model::{Refusal, Vertex};
use session::Planner;
use std::test::Fail;
use store::Editable;
use workspace::Workspace;

// What an edge question is refused with, lent so many words and so much room for a cut of edges, and
// none for one of vertices.
fn edge_refusal<S: Editable>(
    planner: &mut Planner<S>,
    a: Vertex,
    b: Vertex,
    words: &mut [u64],
    room: usize,
) -> Option<Refusal> {
    let mut buffer = [NO_EDGE; 2];
    let mut workspace = Workspace {
        words,
        numbers: &mut [0; NUMBERS],
        nodes: &mut [0; CELLS],
        steps: &mut [NO_STEP; CELLS],
        edges: buffer.get_mut(..room)?,
        ..Workspace::none()
    };
    planner.edge_cut_between(a, b, &mut workspace).err()
}

// What a vertex question is refused with, lent so much room for a cut of vertices, and none for one
// of edges.
fn vertex_refusal<S: Editable>(
    planner: &mut Planner<S>,
    a: Vertex,
    b: Vertex,
    room: usize,
) -> Option<Refusal> {
    let mut buffer = [NO_VERTEX; 2];
    let mut workspace = Workspace {
        words: &mut [0; WORDS],
        numbers: &mut [0; NUMBERS],
        nodes: &mut [0; CELLS],
        steps: &mut [NO_STEP; CELLS],
        vertices: buffer.get_mut(..room)?,
        ..Workspace::none()
    };
    planner.vertex_cut_between(a, b, &mut workspace).err()
}

// A path of three vertices is asked what it can't be asked.
fn refused<S: Editable>(memory: S::Memory) -> Result<(), Fail> {
    let mut planner = planned::<S>(3, &[edge(0, 1), edge(1, 2)], memory)?;
    let mut words = [0; WORDS];
    check(edge_refusal(&mut planner, 0, 3, &mut words, 2) == Some(Refusal::NoVertex))?;
    check(edge_refusal(&mut planner, 1, 1, &mut words, 2) == Some(Refusal::SameVertex))?;
    check(edge_refusal(&mut planner, 0, 1, &mut words, 2) == None)?;
    check(edge_refusal(&mut planner, 0, 3, &mut words, 1) == Some(Refusal::ShortMemory))?;
    check(edge_refusal(&mut planner, 0, 1, &mut [0; 4095], 2) == Some(Refusal::ShortMemory))?;
    check(vertex_refusal(&mut planner, 3, 3, 2) == Some(Refusal::NoVertex))?;
    check(vertex_refusal(&mut planner, 3, 3, 1) == Some(Refusal::ShortMemory))?;
    check(vertex_refusal(&mut planner, 0, 1, 2) == Some(Refusal::Adjacent))?;
    check(vertex_refusal(&mut planner, 0, 2, 2) == None)
}

#[test]
fn refused_pairs() -> Result<(), Fail> {
    refused::<Grid>(&mut [0u64; 12])?;
    refused::<List>(&mut [0u16; 2])
}
