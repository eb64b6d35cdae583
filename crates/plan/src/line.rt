// A map as a plan of edges: each edge is two arcs, one each way.
ghost use Rattle.std.specs.Prelude.{◌≡◌, ◌+◌, ◌<◌, ◌≤◌, length};
ghost use Rattle.cuts.specs.Cuts.{edge_value, nearest_edge_cut};
ghost use Rattle.cuts.specs.Edges.{edge};
ghost use Rattle.cuts.specs.Pairs.{both_ways, crossing_edges};
ghost use Rattle.plan.specs.Pairs.{Two};
ghost use Rattle.plan.specs.Plans.{both_ways_sound, both_ways_small};
ghost use Rattle.plan.specs.Tells.{edge_two, edge_counted, edge_told};
ghost use Rattle.plan.specs.Writing.{placed, apart, next_other, next_across, crossing_row};
ghost use Rattle.rows.specs.Layout.{set_limit};
ghost use Rattle.rows.specs.Marks.{marked};

use crate::buffer::Filling;
use crate::{CutPlan, Plan};
use cuts::Edge;
use model::Vertex;
use rows::marks::Marks;
use store::Map;

// A map below. It stays a map, so that a split can lie over it; edits go down by the field.
#[derive(Drop)]
pub struct Line<M> {
    pub map: M,
}

impl<M> Line<M> {
    // The layer over a map.
    pub fn over(map: M) -> Line<M>
        ensures { result ≡ record { map = map } }
    {
        Line { map }
    }
}

// The lowest node from w up and below n whose mark differs from that of u.
fn next_other(marks: &Marks, u: Vertex, w: Vertex, n: u16) -> Option<Vertex>
    requires { n ≤ set_limit }
    ensures { result ≡ next_other (marked marks.now) u w n }
{
    if marks.has(u) {
        marks.next_unmarked(w, n)
    } else {
        marks.next_marked(w, n)
    }
}

// The edge from u up to v.
fn edge_up(u: Vertex, v: Vertex) -> Edge
    ensures { result ≡ edge u v }
{
    Edge { low: u, high: v }
}

// Whether one of u and v is marked, and the other is not.
fn are_apart(marks: &Marks, u: Vertex, v: Vertex) -> bool
    ensures { result ≡ apart (marked marks.now) u v }
{
    marks.has(u) != marks.has(v)
}

impl<M: Map> Line<M> {
    // The lowest neighbour of u from w up whose mark differs from that of u. Where a neighbour's does
    // not, all up to the next mark that differs are leapt over. The order n is passed here and below,
    // so that it is asked for once a cut.
    fn next_across(&mut self, marks: &Marks, u: Vertex, w: Vertex, n: u16) -> Option<Vertex>
        requires { n ≡ (M.graph self.old.map).order }
        ensures value { result ≡ next_across (M.graph self.old.map) (marked marks.now) u w }
        ensures same { self.new ≡ self.old }
    {
        let mut from = w;
        while let Some(v) = self.map.next(u, from) {
            if are_apart(marks, u, v) {
                return Some(v);
            }
            from = next_other(marks, u, v + 1, n)?;
        }
        None
    }

    // Writes the edges from u up that have one end marked, behind those that are written. The loop
    // leaps from one such edge to the next, where a `for` would ask for every vertex.
    fn write_row(&mut self, marks: &Marks, u: Vertex, n: u16, cut: &mut Filling<'_, Edge>)
        requires order { n ≡ (M.graph self.old.map).order }
        requires within { u < n }
        requires room { cut.old.len + length (crossing_row (M.graph self.old.map) (marked marks.now) u) ≤ length cut.old.slots.now }
        ensures same_reference { cut.new.slots.ghost_name ≡ cut.old.slots.ghost_name }
        ensures next { cut.new.len ≡ cut.old.len + length (crossing_row (M.graph self.old.map) (marked marks.now) u) }
        ensures items { cut.new.slots.now ≡ placed cut.old.len (crossing_row (M.graph self.old.map) (marked marks.now) u) cut.old.slots.now }
        ensures same { self.new ≡ self.old }
    {
        let mut w = u + 1;
        while let Some(v) = self.next_across(marks, u, w, n) {
            cut.push(edge_up(u, v));
            w = v + 1;
        }
    }

    // Writes the edges that have one end marked, behind those that are written, by their lower and
    // then by their higher end.
    fn write_rows(&mut self, marks: &Marks, cut: &mut Filling<'_, Edge>)
        requires { cut.old.len + length (crossing_edges (M.graph self.old.map) (marked marks.now)) ≤ length cut.old.slots.now }
        ensures same_reference { cut.new.slots.ghost_name ≡ cut.old.slots.ghost_name }
        ensures next { cut.new.len ≡ cut.old.len + length (crossing_edges (M.graph self.old.map) (marked marks.now)) }
        ensures items { cut.new.slots.now ≡ placed cut.old.len (crossing_edges (M.graph self.old.map) (marked marks.now)) cut.old.slots.now }
        ensures same { self.new ≡ self.old }
    {
        let n = self.map.order();
        for u in 0..n {
            self.write_row(marks, u, n, cut);
        }
    }
}

// As a map, the layer is the map below. The questions are passed on one by one: no form of the
// language passes a trait on to a field.
impl<M: Map> Map for Line<M> {
    ghost graph = { λ s. M.graph s.map };

    ghost simple = { λ s. M.simple s.map };

    // The number of vertices.
    fn order(&mut self) -> u16 {
        self.map.order()
    }

    // Whether an edge joins u and v.
    fn joined(&mut self, u: Vertex, v: Vertex) -> bool {
        self.map.joined(u, v)
    }

    // The number of neighbours of u.
    fn degree(&mut self, u: Vertex) -> u16 {
        self.map.degree(u)
    }

    // The lowest neighbour of u that is w or more.
    fn next(&mut self, u: Vertex, w: Vertex) -> Option<Vertex> {
        self.map.next(u, w)
    }

    // The lowest of them that is not in a set.
    fn next_outside(&mut self, u: Vertex, w: Vertex, set: &Marks) -> Option<Vertex> {
        self.map.next_outside(u, w, set)
    }
}

// As a plan, the nodes are the vertices.
impl<M: Map> Plan for Line<M> {
    type Item = Edge;

    ghost digraph = { λ s. both_ways (M.graph s.map) };

    ghost sound = { λ s. both_ways_sound (M.graph s.map) (M.simple s.map) };

    ghost small = { λ s. both_ways_small (M.graph s.map) (M.simple s.map) };

    // The number of vertices.
    fn node_count(&mut self) -> u16 {
        self.map.order()
    }

    // Whether an edge joins p and q.
    fn leads(&mut self, p: u16, q: u16) -> bool {
        self.map.joined(p, q)
    }

    // The lowest neighbour of p that is w or more.
    fn next_arc(&mut self, p: u16, w: u16) -> Option<u16> {
        self.map.next(p, w)
    }

    // The lowest of them that is not in a set.
    fn arc_outside(&mut self, p: u16, w: u16, set: &Marks) -> Option<u16> {
        self.map.next_outside(p, w, set)
    }
}

// Its cuts are sets of edges.
impl<M: Map> CutPlan for Line<M> {
    ghost asked = { λ s a b. Two (M.graph s.map) a b };

    ghost two = { λ s. edge_two (M.graph s.map) };

    ghost valued = { λ s a b. edge_value (M.graph s.map) a b };

    ghost nearest = { λ s a b. nearest_edge_cut (M.graph s.map) a b };

    ghost counted = { λ s. edge_counted (M.graph s.map) (M.simple s.map) };

    ghost crossing = { λ s a u. crossing_edges (M.graph s.map) u };

    ghost told = { λ s. edge_told (M.graph s.map) (M.simple s.map) };

    // Writes the edges that have one end marked, by their lower and then by their higher end.
    #[tactic(auto, using(crate::proofs::Placing::placed_front))]
    fn write_cut(&mut self, _from: u16, marks: &Marks, cut: &mut [Edge]) -> usize {
        let mut edges = Filling::over(cut);
        self.write_rows(marks, &mut edges);
        edges.len()
    }
}
