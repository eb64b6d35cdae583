// A map as a plan of vertices, for two ends: the vertex v has its entry, node v, and its exit,
// node n + v, with one arc from the entry to the exit. An end has its entry alone, from which
// its edges set out too.
ghost use Rattle.std.specs.Prelude.{◌≡◌, ◌+◌, ◌<◌, ◌≤◌, length};
ghost use Rattle.graph.specs.Graph.{order_limit};
ghost use Rattle.cuts.specs.Cuts.{vertex_value, nearest_vertex_cut};
ghost use Rattle.cuts.specs.Pairs.{is_end, split, crossing_vertices};
ghost use Rattle.plan.specs.Plans.{split_is_sound, split_small};
ghost use Rattle.plan.specs.Nodes.{edges_out, exit_from, exit_outside};
ghost use Rattle.plan.specs.Tells.{Ends, vertex_two, vertex_counted, vertex_told};
ghost use Rattle.plan.specs.Writing.{placed, vertex_at};
ghost use Rattle.rows.specs.Marks.{marked};

use crate::buffer::Filling;
use crate::{CutPlan, Plan};
use model::Vertex;
use rows::marks::Marks;
use store::Map;

// A map below, of any kind, and the two ends; edits go down by the field.
#[derive(Drop)]
pub struct Split<M> {
    pub map: M,
    a: Vertex,
    b: Vertex,
}

impl<M> Split<M> {
    // The layer over a map, with both ends at 0 until they are set.
    pub fn over(map: M) -> Split<M>
        ensures { result ≡ record { map = map; a = 0; b = 0 } }
    {
        Split { map, a: 0, b: 0 }
    }

    // The two ends.
    pub fn ends(&self) -> (Vertex, Vertex)
        ensures { result ≡ (self.now.a, self.now.b) }
    {
        (self.a, self.b)
    }

    // Makes a and b the ends.
    pub fn set_ends(&mut self, a: Vertex, b: Vertex)
        ensures { self.new ≡ record { map = self.old.map; a = a; b = b } }
    {
        self.a = a;
        self.b = b;
    }

    // Whether the vertex v is an end.
    fn is_end(&self, v: Vertex) -> bool
        ensures { result ≡ is_end self.now.a self.now.b v }
    {
        v == self.a || v == self.b
    }

    // The vertex whose edges lead out of the node p: an end, or another whose exit p is.
    fn edges_out(&self, n: u16, p: u16) -> Option<Vertex>
        ensures { result ≡ edges_out n self.now.a self.now.b p }
    {
        if p < n {
            self.is_end(p).then_some(p)
        } else {
            (!self.is_end(p - n)).then_some(p - n)
        }
    }
}

impl<M: Map> Split<M> {
    // The vertex v, if the arc through it leaves the marked nodes, or the arc from `from` to it. The
    // order n is passed, a plain number, so that it is asked for once a cut and not once a vertex.
    fn vertex_at(&mut self, from: Vertex, marks: &Marks, v: Vertex, n: u16) -> Option<Vertex>
        requires order { n ≡ (M.graph self.old.map).order }
        requires within { (v < n) × (n ≤ order_limit) }
        ensures value { result ≡ vertex_at (M.graph self.old.map) from (marked marks.now) v }
        ensures same { self.new ≡ self.old }
    {
        if marks.has(v) {
            (v != from && !marks.has(n + v)).then_some(v)
        } else {
            self.map.joined(from, v).then_some(v)
        }
    }

    // Writes the vertices at which arcs leave the marked nodes, behind those that are written, in
    // ascending order.
    fn write_vertices(&mut self, from: Vertex, marks: &Marks, cut: &mut Filling<'_, Vertex>)
        requires { cut.old.len + length (crossing_vertices (M.graph self.old.map) from (marked marks.now)) ≤ length cut.old.slots.now }
        ensures same_reference { cut.new.slots.ghost_name ≡ cut.old.slots.ghost_name }
        ensures next { cut.new.len ≡ cut.old.len + length (crossing_vertices (M.graph self.old.map) from (marked marks.now)) }
        ensures items { cut.new.slots.now ≡ placed cut.old.len (crossing_vertices (M.graph self.old.map) from (marked marks.now)) cut.old.slots.now }
        ensures same { self.new ≡ self.old }
    {
        let n = self.map.order();
        for v in 0..n {
            cut.extend(self.vertex_at(from, marks, v, n));
        }
    }
}

// The exit of the vertex p, unless p is none or w is past the exit.
fn exit_from(n: u16, p: u16, w: u16) -> Option<u16>
    requires { n ≤ order_limit }
    ensures { result ≡ exit_from n p w }
{
    (p < n && w <= n + p).then(|| n + p)
}

// The same exit, unless it is in a set.
fn exit_outside(n: u16, p: u16, w: u16, set: &Marks) -> Option<u16>
    requires { n ≤ order_limit }
    ensures { result ≡ exit_outside n (marked set.now) p w }
{
    (p < n && w <= n + p && !set.has(n + p)).then(|| n + p)
}

// As a plan, there is an entry and an exit for each vertex.
impl<M: Map> Plan for Split<M> {
    type Item = Vertex;

    ghost digraph = { λ s. split (M.graph s.map) s.a s.b };

    ghost sound = { λ s. split_is_sound (M.graph s.map) s.a s.b (M.simple s.map) };

    ghost small = { λ s. split_small (M.graph s.map) s.a s.b (M.simple s.map) };

    // Two nodes for each vertex: the exit of an end is a node without arcs.
    fn node_count(&mut self) -> u16 {
        let n = self.map.order();
        n + n
    }

    // Whether an edge leads out of p to the entry q, or else q is the exit of the entry p.
    fn leads(&mut self, p: u16, q: u16) -> bool {
        let n = self.map.order();
        match self.edges_out(n, p) {
            Some(u) => self.map.joined(u, q),
            None => p < n && q == n + p,
        }
    }

    // The lowest entry from w up to which an edge leads out of p, or else the exit of the entry p.
    #[tactic(auto, using(crate::proofs::Arcs::next_by_exit))]
    fn next_arc(&mut self, p: u16, w: u16) -> Option<u16> {
        let n = self.map.order();
        match self.edges_out(n, p) {
            Some(u) => self.map.next(u, w),
            None => exit_from(n, p, w),
        }
    }

    // The lowest of them that is not in a set.
    #[tactic(auto, using(crate::proofs::Arcs::outside_by_exit))]
    fn arc_outside(&mut self, p: u16, w: u16, set: &Marks) -> Option<u16> {
        let n = self.map.order();
        match self.edges_out(n, p) {
            Some(u) => self.map.next_outside(u, w, set),
            None => exit_outside(n, p, w, set),
        }
    }
}

// Its cuts are sets of vertices.
impl<M: Map> CutPlan for Split<M> {
    ghost asked = { λ s a b. Ends (M.graph s.map) s.a s.b a b };

    ghost two = { λ s. vertex_two (M.graph s.map) s.a s.b };

    ghost valued = { λ s a b. vertex_value (M.graph s.map) a b };

    ghost nearest = { λ s a b. nearest_vertex_cut (M.graph s.map) a b };

    ghost counted = { λ s. vertex_counted (M.graph s.map) (M.simple s.map) s.a s.b };

    ghost crossing = { λ s a u. crossing_vertices (M.graph s.map) a u };

    ghost told = { λ s. vertex_told (M.graph s.map) (M.simple s.map) s.a s.b };

    // Writes the vertices at which arcs leave the marked nodes, in ascending order.
    #[tactic(auto, using(crate::proofs::Placing::placed_front))]
    fn write_cut(&mut self, from: u16, marks: &Marks, cut: &mut [Vertex]) -> usize {
        let mut vertices = Filling::over(cut);
        self.write_vertices(from, marks, &mut vertices);
        vertices.len()
    }
}
