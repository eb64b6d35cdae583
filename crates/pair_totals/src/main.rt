// Adds up what is asked of the pairs of a map: the first eight vertices against each later one,
// by edges, and by vertices where the two are not joined. The map is made by frames on standard
// input; a line of five sums is printed.
#![tactic(auto)]

use connectivity::{CELLS, NUMBERS, WORDS};
use cuts::Edge;
use frames::read_call;
use grid::Grid;
use model::{Call, Vertex};
use ring::Step;
use session::{Planner, perform};
use std::io::Read;
use store::{Editable, Map};
use workspace::Workspace;

// The most bytes that are read.
const READ_LIMIT: u64 = 1048576;

// Words for 200 vertices, four each.
const GRID_WORDS: usize = 800;

// Room for a cut of 200 vertices. A power of two keeps the arrays behind it aligned, as runs are fastest.
const CUT_ITEMS: usize = 256;

// How many vertices are asked for against each later one.
const FIRSTS: u16 = 8;

// An item of a cut, as a number to add up.
trait Numbered {
    fn number(&self) -> u64;
}

// An edge as lower * 256 + higher.
impl Numbered for Edge {
    fn number(&self) -> u64 {
        u64::from(self.low) * 256 + u64::from(self.high)
    }
}

// A vertex as it is.
impl Numbered for Vertex {
    fn number(&self) -> u64 {
        u64::from(*self)
    }
}

// What is added up of one kind of question: pairs, their values, and the items of their cuts.
#[derive(Clone, Copy, Default)]
struct Totals {
    pairs: u64,
    values: u64,
    items: u64,
}

impl Totals {
    // Adds a pair, whose cut stands in front of the buffer.
    fn add<T: Numbered>(&mut self, value: u16, cut: &[T]) {
        self.pairs = self.pairs.saturating_add(1);
        self.values = self.values.saturating_add(u64::from(value));
        self.items = cut
            .iter()
            .take(usize::from(value))
            .fold(self.items, |sum, item| sum.saturating_add(item.number()));
    }
}

// What is added up of both kinds.
#[derive(Clone, Copy, Default)]
struct Sums {
    edges: Totals,
    vertices: Totals,
}

impl Sums {
    // Adds one pair: two questions, one after the other, in the same workspace.
    fn add_pair<S: Editable>(
        &mut self,
        planner: &mut Planner<S>,
        workspace: &mut Workspace<'_>,
        a: Vertex,
        b: Vertex,
    ) {
        if let Ok(value) = planner.edge_cut_between(a, b, workspace) {
            self.edges.add(value, workspace.edges);
        }
        if let Ok(value) = planner.vertex_cut_between(a, b, workspace) {
            self.vertices.add(value, workspace.vertices);
        }
    }
}

// Adds up the pairs of the map of a planner, in one workspace.
fn add_all<S: Editable>(planner: &mut Planner<S>) -> Sums {
    let none = Step {
        node: 0,
        before: 0,
        forwards: true,
    };
    let mut workspace = Workspace {
        words: &mut [0; WORDS],
        numbers: &mut [0; NUMBERS],
        nodes: &mut [0; CELLS],
        steps: &mut [none; CELLS],
        edges: &mut [Edge { low: 0, high: 0 }; CUT_ITEMS],
        vertices: &mut [0; CUT_ITEMS],
        runs: &mut [],
        routes: &mut [],
    };
    let mut sums = Sums::default();
    let n = planner.order();
    for a in 0..FIRSTS {
        for b in a + 1..n {
            sums.add_pair(planner, &mut workspace, a, b);
        }
    }
    sums
}

// The sums of the map that a text of frames makes, if it makes one.
fn sums_of<S: Editable>(memory: S::Memory, text: &str) -> Option<Sums> {
    let mut lines = text.lines();
    let Call::Make(n) = read_call(lines.next()?.as_bytes()).ok()? else {
        return None;
    };
    let mut planner = Planner::<S>::open(n, memory).ok()?;
    for call in lines.filter_map(|line| read_call(line.as_bytes()).ok()) {
        let _ = perform(&mut planner, call, &mut Workspace::none());
    }
    Some(add_all(&mut planner))
}

fn main(rt: HostRuntime) -> anyhow::Result<()> {
    let heap = rt.alloc();
    let mut input = String::new(heap);
    rt.stdin().take(READ_LIMIT).read_to_string(&mut input)?;
    let mut words = vec![in heap; 0u64; GRID_WORDS]?;
    match sums_of::<Grid>(&mut words, &input) {
        Some(sums) => {
            let items = sums.edges.items.saturating_add(sums.vertices.items);
            println!(rt;
                "{} {} {} {} {items}",
                sums.edges.pairs, sums.edges.values, sums.vertices.pairs, sums.vertices.values
            )?;
        }
        None => println!(rt; "no map")?,
    }
    Ok(())
}
