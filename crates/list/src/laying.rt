// A list with no edge, and an edge laid and taken up where that is known to go. The clauses
// `cells` say what the cells hold.
ghost use Rattle.std.specs.Prelude.{◌≡◌, ◌<◌, ◌≤◌, true, false, ◌≢◌};
ghost use Rattle.graph.specs.Graph.{empty, with_edge, without_edge};
ghost use Rattle.model.specs.Model.{make_limit};
ghost use Rattle.list.specs.Meaning.{codes_of, graph_of, capacity_of, laid_cells, taken_cells};

use crate::List;
use crate::codes::{edge_code, move_in, move_out};
use model::Vertex;

impl<'a> List<'a> {
    // A map of n vertices and no edge. No cell is touched. The order is a plain number, as `make`
    // takes it.
    pub fn blank(n: u16, cells: &'a mut [u16]) -> List<'a>
        requires some { 1 ≤ n }
        requires small { n ≤ make_limit }
        ensures graph { graph_of result ≡ empty n }
        ensures cells { codes_of result ≡ cells.old }
    {
        List {
            n,
            count: 0,
            codes: cells,
        }
    }

    // Lays the edge between two vertices that are not joined: its number goes in where it
    // belongs.
    pub(crate) fn lay(&mut self, u: Vertex, v: Vertex)
        requires ends { (u < self.old.n) × ((v < self.old.n) × (u ≢ v)) }
        requires apart { (graph_of self.old).joined u v ≡ false }
        requires room { self.old.count < capacity_of self.old }
        ensures graph { graph_of self.new ≡ with_edge (graph_of self.old) u v }
        ensures most { capacity_of self.new ≡ capacity_of self.old }
        ensures cells { codes_of self.new ≡ laid_cells (graph_of self.old) (codes_of self.old) u v }
    {
        let c = edge_code(u, v);
        let at = self.seek(c);
        // The cells are lent whole and once: what the list says of them is owed again only
        // when the count is right too.
        let cells = &mut *self.codes;
        move_in(&mut cells[at..=self.count], c);
        self.count += 1;
    }

    // Takes the edge between two joined vertices up: its number goes out, and the last cell
    // in use is free.
    pub(crate) fn take_up(&mut self, u: Vertex, v: Vertex)
        requires ends { (u < self.old.n) × ((v < self.old.n) × (u ≢ v)) }
        requires joined { (graph_of self.old).joined u v ≡ true }
        ensures graph { graph_of self.new ≡ without_edge (graph_of self.old) u v }
        ensures most { capacity_of self.new ≡ capacity_of self.old }
        ensures cells { codes_of self.new ≡ taken_cells (graph_of self.old) (codes_of self.old) u v }
    {
        let at = self.seek(edge_code(u, v));
        // Lent whole and once, as in `lay`.
        let cells = &mut *self.codes;
        move_out(&mut cells[at..self.count]);
        self.count -= 1;
    }
}
