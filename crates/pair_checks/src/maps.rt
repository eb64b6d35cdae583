// Pairs of the check maps, over each store.
use crate::asking::{check_both, check_edges, check_vertices, edge, planned};
use grid::Grid;
use list::List;
use model::Call;
use session::perform;
use std::test::Fail;
use store::Editable;
use workspace::Workspace;

// Two vertices, unjoined.
fn two_apart<S: Editable>(memory: S::Memory) -> Result<(), Fail> {
    let mut planner = planned::<S>(2, &[], memory)?;
    check_edges(&mut planner, 0, 1, &[])?;
    check_vertices(&mut planner, 0, 1, &[])
}

// Two vertices, joined: the edge between them is their cut.
fn two_joined<S: Editable>(memory: S::Memory) -> Result<(), Fail> {
    let mut planner = planned::<S>(2, &[edge(0, 1)], memory)?;
    check_edges(&mut planner, 0, 1, &[edge(0, 1)])?;
    check_edges(&mut planner, 1, 0, &[edge(0, 1)])
}

// A path 0-1-2: its cuts differ from end to end, the nearest to the first is told.
fn path_of_three<S: Editable>(memory: S::Memory) -> Result<(), Fail> {
    let mut planner = planned::<S>(3, &[edge(0, 1), edge(1, 2)], memory)?;
    check_edges(&mut planner, 0, 2, &[edge(0, 1)])?;
    check_edges(&mut planner, 2, 0, &[edge(1, 2)])?;
    check_vertices(&mut planner, 0, 2, &[1])
}

// A ring of five.
fn ring_of_five<S: Editable>(memory: S::Memory) -> Result<(), Fail> {
    let mut planner = planned::<S>(
        5,
        &[edge(0, 1), edge(1, 2), edge(2, 3), edge(3, 4), edge(4, 0)],
        memory,
    )?;
    check_edges(&mut planner, 0, 1, &[edge(0, 1), edge(0, 4)])?;
    check_edges(&mut planner, 2, 0, &[edge(1, 2), edge(2, 3)])?;
    check_vertices(&mut planner, 0, 2, &[1, 4])?;
    check_vertices(&mut planner, 2, 0, &[1, 3])?;
    check_both(&mut planner, 2, 0, &[edge(1, 2), edge(2, 3)], &[1, 3])
}

// Four vertices, all joined but 0 and 1.
fn four_but_one<S: Editable>(memory: S::Memory) -> Result<(), Fail> {
    let mut planner = planned::<S>(
        4,
        &[edge(0, 2), edge(0, 3), edge(1, 2), edge(1, 3), edge(2, 3)],
        memory,
    )?;
    check_edges(&mut planner, 0, 1, &[edge(0, 2), edge(0, 3)])?;
    check_vertices(&mut planner, 0, 1, &[2, 3])
}

// Two triangles with an edge between them.
fn bridged_triangles<S: Editable>(memory: S::Memory) -> Result<(), Fail> {
    let edges = [
        edge(0, 1),
        edge(0, 2),
        edge(1, 2),
        edge(2, 3),
        edge(3, 4),
        edge(3, 5),
        edge(4, 5),
    ];
    let mut planner = planned::<S>(6, &edges, memory)?;
    check_edges(&mut planner, 0, 3, &[edge(2, 3)])?;
    check_vertices(&mut planner, 0, 3, &[2])?;
    check_vertices(&mut planner, 5, 2, &[3])
}

// Two triangles that share a vertex.
fn shared_triangles<S: Editable>(memory: S::Memory) -> Result<(), Fail> {
    let edges = [
        edge(0, 1),
        edge(0, 2),
        edge(1, 2),
        edge(2, 3),
        edge(2, 4),
        edge(3, 4),
    ];
    let mut planner = planned::<S>(5, &edges, memory)?;
    check_edges(&mut planner, 0, 1, &[edge(0, 1), edge(0, 2)])?;
    check_vertices(&mut planner, 0, 3, &[2])
}

// Two cliques of six, and a hub that is joined to two vertices of each; then with an edge struck.
fn cliques_and_hub<S: Editable>(memory: S::Memory) -> Result<(), Fail> {
    let mut planner = planned::<S>(
        13,
        &[edge(0, 12), edge(1, 12), edge(6, 12), edge(7, 12)],
        memory,
    )?;
    for u in 0..12 {
        for v in u + 1..12 {
            if u / 6 == v / 6 {
                perform(&mut planner, Call::Join(u, v), &mut Workspace::none())?;
            }
        }
    }
    check_edges(&mut planner, 0, 6, &[edge(0, 12), edge(1, 12)])?;
    check_vertices(&mut planner, 0, 6, &[12])?;
    perform(&mut planner, Call::Strike(12, 0), &mut Workspace::none())?;
    check_edges(&mut planner, 2, 11, &[edge(1, 12)])?;
    check_vertices(&mut planner, 2, 11, &[1])
}

#[test]
fn small_maps() -> Result<(), Fail> {
    two_apart::<Grid>(&mut [0u64; 8])?;
    two_apart::<List>(&mut [0u16; 1])?;
    two_joined::<Grid>(&mut [0u64; 8])?;
    two_joined::<List>(&mut [0u16; 1])?;
    path_of_three::<Grid>(&mut [0u64; 12])?;
    path_of_three::<List>(&mut [0u16; 2])
}

#[test]
fn rings_and_cliques() -> Result<(), Fail> {
    ring_of_five::<Grid>(&mut [0u64; 20])?;
    ring_of_five::<List>(&mut [0u16; 5])?;
    four_but_one::<Grid>(&mut [0u64; 16])?;
    four_but_one::<List>(&mut [0u16; 6])
}

#[test]
fn triangles() -> Result<(), Fail> {
    bridged_triangles::<Grid>(&mut [0u64; 24])?;
    bridged_triangles::<List>(&mut [0u16; 7])?;
    shared_triangles::<Grid>(&mut [0u64; 20])?;
    shared_triangles::<List>(&mut [0u16; 6])
}

#[test]
fn hub() -> Result<(), Fail> {
    cliques_and_hub::<Grid>(&mut [0u64; 52])?;
    cliques_and_hub::<List>(&mut [0u16; 40])
}
