// What a grid is asked. A question passes the whole grid on for writing, to a method that lends
// one row of its words on for reading and promises that nothing changed.
ghost use Rattle.std.specs.Prelude.{◌≡◌, ◌+◌, ◌*◌, ◌<◌, slice_range};
ghost use Rattle.graph.specs.Graph.{degree, next};
ghost use Rattle.grid.specs.Rows.{few_vertices};
ghost use Rattle.grid.specs.Meaning.{graph_of};
ghost use Rattle.grid.specs.Rows.{vertex_words, row_end};
ghost use Rattle.rows.specs.Marks.{marked};
ghost use Rattle.store.specs.Outside.{next_outside};

use crate::Grid;
use crate::counts::row_count;
use crate::words::VERTEX_WORDS;
use model::Vertex;
use rows::marks::Marks;
use store::Map;

impl<'a> Grid<'a> {
    // The row of a vertex.
    fn row(&self, u: Vertex) -> &[u64]
        requires { u < self.now.n }
        ensures { result.now ≡ slice_range self.now.words.now (vertex_words * u) (row_end u) }
    {
        let at = VERTEX_WORDS * u as usize;
        &self.words[at..at + VERTEX_WORDS]
    }

    // Whether an edge joins two vertices: one bit.
    pub(crate) fn has(&mut self, u: Vertex, v: Vertex) -> bool
        requires { (u < self.old.n) × (v < self.old.n) }
        ensures value { result ≡ (graph_of self.old).joined u v }
        ensures same { self.new ≡ self.old }
    {
        bits::has(self.row(u), v)
    }

    // The number of neighbours of a vertex: as many as its row has bits.
    fn count(&mut self, u: Vertex) -> u16
        requires { u < self.old.n }
        ensures value { result ≡ degree (graph_of self.old) u }
        ensures same { self.new ≡ self.old }
    {
        row_count(self.row(u))
    }

    // The lowest neighbour of a vertex that is w or more: the lowest bit of its row from w up.
    fn lowest(&mut self, u: Vertex, w: Vertex) -> Option<Vertex>
        requires { u < self.old.n }
        ensures value { result ≡ next (graph_of self.old) u w }
        ensures same { self.new ≡ self.old }
    {
        bits::next(self.row(u), true, w)
    }

    // The lowest neighbour of a vertex that is w or more and not in a set: the lowest such bit of its
    // row, word by word.
    fn lowest_outside(&mut self, u: Vertex, w: Vertex, set: &Marks) -> Option<Vertex>
        requires { u < self.old.n }
        ensures value { result ≡ next_outside (graph_of self.old) (marked set.now) u w }
        ensures same { self.new ≡ self.old }
    {
        set.next_outside(self.row(u), w)
    }
}

impl<'a> Map for Grid<'a> {
    ghost graph = { graph_of };

    ghost simple = { λ m. record { some = m.some; small = few_vertices m.n m.small; symmetric = m.even; irreflexive = m.loose; bounded = m.within } };

    // The number of vertices.
    fn order(&mut self) -> u16 {
        self.n
    }

    // No bit stands for a number that is no vertex.
    fn joined(&mut self, u: Vertex, v: Vertex) -> bool {
        u < self.n && v < self.n && self.has(u, v)
    }

    // What is no vertex has no neighbours. An `if`, here and below: a row is only there for a vertex.
    fn degree(&mut self, u: Vertex) -> u16 {
        if u < self.n { self.count(u) } else { 0 }
    }

    // Nor has it a lowest one.
    fn next(&mut self, u: Vertex, w: Vertex) -> Option<Vertex> {
        if u < self.n { self.lowest(u, w) } else { None }
    }

    // Nor one that is not in a set.
    fn next_outside(&mut self, u: Vertex, w: Vertex, set: &Marks) -> Option<Vertex> {
        if u < self.n {
            self.lowest_outside(u, w, set)
        } else {
            None
        }
    }
}
