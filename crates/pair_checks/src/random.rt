// Random small maps: each pair of each map, held to what trying every set of vertices gives.
use crate::asking::{check_edges, check_vertices, planned};
use crate::simple::Small;
use grid::Grid;
use list::List;
use model::{Call, Vertex};
use session::{Planner, perform};
use std::alloc::Global;
use std::test::Fail;
use store::Editable;
use workspace::Workspace;

// How many maps are tried, over each store.
const MAPS: u16 = 200;

// Numbers that look random, the same ones every time.
#[derive(Drop)]
struct Dice {
    state: u64,
}

impl Dice {
    // A number below `sides`, which is not 0.
    fn roll(&mut self, sides: u16) -> u16 {
        self.state = self
            .state
            .wrapping_mul(6364136223846793005)
            .wrapping_add(1442695040888963407);
        let high = (self.state >> 48) as u16;
        high.checked_rem(sides).unwrap_or(0)
    }
}

// A map of 2 to 6 vertices, of few edges or of many.
fn random_map(dice: &mut Dice) -> Small {
    let mut map = Small::of(dice.roll(5).saturating_add(2));
    let density = dice.roll(7).saturating_add(2);
    for u in 0..map.n {
        for v in u..map.n {
            if u != v && dice.roll(9) < density {
                map.join(u, v);
            }
        }
    }
    map
}

// One pair of a map: the edge cut, and the vertex cut if the two are not joined.
fn check_pair<S: Editable>(
    heap: Global,
    planner: &mut Planner<S>,
    map: &Small,
    a: Vertex,
    b: Vertex,
) -> Result<(), Fail> {
    check_edges(planner, a, b, &map.edge_cut(heap, a, b)?)?;
    if !map.joined(a, b) {
        check_vertices(planner, a, b, &map.vertex_cut(heap, a, b)?)?;
    }
    Ok(())
}

// Each pair of a map, over a store.
fn check_map<S: Editable>(heap: Global, map: &Small, memory: S::Memory) -> Result<(), Fail> {
    let mut planner = planned::<S>(map.n, &[], memory)?;
    for u in 0..map.n {
        for v in u..map.n {
            if map.joined(u, v) {
                perform(&mut planner, Call::Join(u, v), &mut Workspace::none())?;
            }
        }
    }
    for a in 0..map.n {
        for b in 0..map.n {
            if a != b {
                check_pair(heap, &mut planner, map, a, b)?;
            }
        }
    }
    Ok(())
}

#[test]
fn random_maps(rt: HostRuntime) -> Result<(), Fail> {
    let heap = rt.alloc();
    let mut dice = Dice { state: 2026 };
    for _ in 0..MAPS {
        let map = random_map(&mut dice);
        check_map::<Grid>(heap, &map, &mut [0u64; 24])?;
        check_map::<List>(heap, &map, &mut [0u16; 15])?;
    }
    Ok(())
}
