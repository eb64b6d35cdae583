// What a list is asked.
ghost use Rattle.std.specs.Prelude.{◌≡◌, ℕ, ◌<◌, ◌≤◌, ◌==◌, take, slice_index};
ghost use Rattle.graph.specs.Graph.{degree, next};
ghost use Rattle.list.specs.Cells.{place, listing_simple, few_vertices};
ghost use Rattle.list.specs.Meaning.{codes_of, graph_of, capacity_of};

use crate::List;
use crate::codes::edge_code;
use model::Vertex;
use store::{Map, check_ends};

impl<'a> List<'a> {
    // The cells in use.
    fn used(&self) -> &[u16]
        ensures { result.now ≡ take self.now.count (codes_of self.now) }
    {
        &self.codes[..self.count]
    }

    // Whether every cell is in use.
    pub(crate) fn is_full(&self) -> bool
        ensures { result ≡ (self.now.count == capacity_of self.now) }
    {
        self.count == self.codes.len()
    }

    // The first place whose cell is not below c, where c would go in.
    pub(crate) fn seek(&self, c: u16) -> usize
        ensures value { result ≡ place self.now.count (codes_of self.now) c }
        ensures bound { result ≤ self.now.count }
        ensures below { (i : ℕ) → i < result → slice_index (codes_of self.now) i < c }
        ensures above { (i : ℕ) → result ≤ i → i < self.now.count → c ≤ slice_index (codes_of self.now) i }
    {
        self.used().partition_point(|cell| *cell < c)
    }

    // Whether the cells join u and v.
    pub(crate) fn joins(&self, u: Vertex, v: Vertex) -> bool
        ensures { result ≡ (graph_of self.now).joined u v }
    {
        check_ends(self.n, u, v).is_ok() && self.used().binary_search(&edge_code(u, v)).is_ok()
    }

    // The number of neighbours of u.
    fn neighbours(&self, u: Vertex) -> u16
        ensures { result ≡ degree (graph_of self.now) u }
    {
        (0..self.n).filter(|v| self.joins(u, *v)).count() as u16
    }

    // The lowest neighbour of u that is w or more.
    fn neighbour_from(&self, u: Vertex, w: Vertex) -> Option<Vertex>
        ensures { result ≡ next (graph_of self.now) u w }
    {
        (w..self.n).find(|v| self.joins(u, *v))
    }
}

// A question of the map goes on to a method that takes the list for reading, so that nothing
// changes.
impl<'a> Map for List<'a> {
    ghost graph = { graph_of };

    ghost simple = { λ m. listing_simple m.n m.count (codes_of m) m.some (few_vertices m.n m.small) };

    // The number of vertices.
    fn order(&mut self) -> u16 {
        self.n
    }

    // Whether an edge joins u and v.
    fn joined(&mut self, u: Vertex, v: Vertex) -> bool {
        self.joins(u, v)
    }

    // The number of neighbours of u.
    fn degree(&mut self, u: Vertex) -> u16 {
        self.neighbours(u)
    }

    // The lowest neighbour of u that is w or more.
    fn next(&mut self, u: Vertex, w: Vertex) -> Option<Vertex> {
        self.neighbour_from(u, w)
    }
}
