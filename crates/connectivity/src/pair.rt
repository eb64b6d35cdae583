// What is asked of a pair of vertices: its value, and the smallest cut nearest to the first one.
ghost use Rattle.std.specs.Prelude.{◌≡◌, ◌≤◌, false, length, is_ok};
ghost use Rattle.model.specs.Sizes.{work_sizes};
ghost use Rattle.flows.specs.Lists.{in_front};
ghost use Rattle.cuts.specs.Cuts.{nearest_edge_cut, nearest_vertex_cut};
ghost use Rattle.workspace.specs.Parts.{buffers, sizes_of, SameMemory, Untouched};
ghost use Rattle.connectivity.specs.Asking.{ends_reply, edge_ends, loose_ends, edge_reply, vertex_reply, edge_cut_in, vertex_cut_in};

use crate::run::{RunCount, complete};
use crate::work::{Scratch, WORDS, edges_needed, vertices_needed};
use model::{Refusal, Sizes, Vertex};
use plan::{CutPlan, Line, Split};
use ring::Step;
use rows::flow::Arcs;
use store::Map;
use workspace::Workspace;

// Refuses a and b unless enough memory is lent and they are two of n vertices.
fn check_ends(n: u16, lent: Sizes, needed: Sizes, a: Vertex, b: Vertex) -> Result<(), Refusal>
    ensures { result ≡ ends_reply lent needed n a b }
{
    if lent.below(needed) {
        return Err(Refusal::ShortMemory);
    }
    store::check_ends(n, a, b)
}

// Refuses a and b unless enough memory is lent for their edge cut and they are two vertices.
fn check_edge_ends<M: Map>(map: &mut M, lent: Sizes, a: Vertex, b: Vertex) -> Result<(), Refusal>
    ensures reply { result ≡ edge_ends lent (M.graph map.old) a b }
    ensures same { map.new ≡ map.old }
{
    let n = map.order();
    check_ends(n, lent, edges_needed(n), a, b)
}

// Refuses a and b unless enough memory is lent for their vertex cut and they are two vertices that
// are not joined.
fn check_loose_ends<M: Map>(map: &mut M, lent: Sizes, a: Vertex, b: Vertex) -> Result<(), Refusal>
    ensures reply { result ≡ loose_ends lent (M.graph map.old) a b }
    ensures same { map.new ≡ map.old }
{
    let n = map.order();
    check_ends(n, lent, vertices_needed(n), a, b)?;
    if map.joined(a, b) {
        return Err(Refusal::Adjacent);
    }
    Ok(())
}

// Runs from a to b over any plan, in lent work memory: their value, with the nearest cut in front of
// the buffer. The parts of a workspace come side by side, since the buffer is of the plan's kind.
fn settle<P: CutPlan>(
    plan: &mut P,
    a: u16,
    b: u16,
    words: &mut [u64],
    numbers: &mut [u16],
    nodes: &mut [u16],
    steps: &mut [Step],
    cut: &mut [P::Item],
) -> u16
    requires asked { P.asked plan.old a b }
    requires words { work_sizes.words ≤ length words.old }
    requires numbers { work_sizes.numbers ≤ length numbers.old }
    requires cells { (work_sizes.nodes ≤ length nodes.old) × (work_sizes.steps ≤ length steps.old) }
    requires room { length (P.nearest plan.old a b) ≤ length cut.old }
    ensures value { result ≡ P.valued plan.old a b }
    ensures items { cut.new ≡ in_front (P.nearest plan.old a b) cut.old }
    ensures same { plan.new ≡ plan.old }
{
    let mut flow = Arcs::over(&mut words[0..WORDS]);
    let mut scratch = Scratch::over(numbers, nodes, steps);
    let mut count = RunCount::none();
    let run = complete(&mut count, plan, &mut flow, &mut scratch, a, b);
    run.write_cut(plan, &flow, &mut scratch, cut);
    run.value()
}

// The edge value of a and b, with their nearest edge cut in front of the buffer for edges, or why it
// can't be had. The map and all other buffers stay as they were; a refused question writes nothing.
pub fn edge_cut_between<M: Map>(
    line: &mut Line<M>,
    a: Vertex,
    b: Vertex,
    workspace: &mut Workspace<'_>,
) -> Result<u16, Refusal>
    ensures reply { result ≡ edge_reply (sizes_of workspace.old) (M.graph line.old.map) a b }
    ensures written { buffers workspace.new
        ≡ edge_cut_in result (nearest_edge_cut (M.graph line.old.map) a b) (buffers workspace.old) }
    ensures same { line.new ≡ line.old }
    ensures refused { is_ok result ≡ false → Untouched workspace.old workspace.new }
    ensures memory { SameMemory workspace.old workspace.new }
    ensures sizes { sizes_of workspace.new ≡ sizes_of workspace.old }
{
    check_edge_ends(&mut line.map, workspace.sizes(), a, b)?;
    Ok(settle(
        line,
        a,
        b,
        workspace.words,
        workspace.numbers,
        workspace.nodes,
        workspace.steps,
        workspace.edges,
    ))
}

// The vertex value of two unjoined vertices, with their nearest vertex cut in front of the buffer for
// vertices, or why it can't be had. They are the ends of the split while the question runs; the map, the
// ends and all other buffers stay as they were, and a refused question writes nothing.
pub fn vertex_cut_between<M: Map>(
    split: &mut Split<M>,
    a: Vertex,
    b: Vertex,
    workspace: &mut Workspace<'_>,
) -> Result<u16, Refusal>
    ensures reply { result ≡ vertex_reply (sizes_of workspace.old) (M.graph split.old.map) a b }
    ensures written { buffers workspace.new
        ≡ vertex_cut_in result (nearest_vertex_cut (M.graph split.old.map) a b) (buffers workspace.old) }
    ensures same { split.new ≡ split.old }
    ensures refused { is_ok result ≡ false → Untouched workspace.old workspace.new }
    ensures memory { SameMemory workspace.old workspace.new }
    ensures sizes { sizes_of workspace.new ≡ sizes_of workspace.old }
{
    check_loose_ends(&mut split.map, workspace.sizes(), a, b)?;
    let (before_a, before_b) = split.ends();
    split.set_ends(a, b);
    let value = settle(
        split,
        a,
        b,
        workspace.words,
        workspace.numbers,
        workspace.nodes,
        workspace.steps,
        workspace.vertices,
    );
    split.set_ends(before_a, before_b);
    Ok(value)
}
