// How a grid is made and edited.
ghost use Rattle.std.specs.Prelude.{◌≡◌, ◌*◌, ◌≤◌, true, false, length};
ghost use Rattle.model.specs.Model.{make_limit};
ghost use Rattle.grid.specs.Rows.{vertex_words, Rows, grid_rows, wiped, edge_words, lent_words};
ghost use Rattle.grid.specs.Meaning.{capacity_of};

use crate::Grid;
use crate::words::{VERTEX_WORDS, set_edge, wipe_rows};
use model::{Refusal, Vertex, is_bad_order};
use store::{Editable, check_ends};

impl<'a> Grid<'a> {
    // The map of n vertices and no edge, over the first words of the memory: the rows are zeros,
    // and the words after them are as they were. The order is a plain number, as `make` takes it.
    pub fn over(n: u16, memory: &'a mut [u64]) -> Grid<'a>
        requires { (1 ≤ n) × ((n ≤ make_limit) × (vertex_words * n ≤ length memory.old)) }
        ensures order { result.n ≡ n }
        ensures words { result.words.now ≡ wiped n memory.old }
    {
        wipe_rows(memory, n);
        Grid { n, words: memory }
    }
}

impl<'a> Editable for Grid<'a> {
    type Memory = &'a mut [u64];

    // Every pair can be joined.
    ghost most = { capacity_of };

    // The rows of the vertices are enough.
    ghost room_in = { λ memory. lent_words memory.now };

    ghost held = { λ s. s.words.now };

    // The rows are wiped, and the words after them are as they were.
    ghost fresh = { λ memory n. wiped n memory.now };

    // The edge's two bits are set.
    ghost with_edge_in = { λ g words u v. edge_words true words u v };

    // They are cleared.
    ghost without_edge_in = { λ g words u v. edge_words false words u v };

    ghost Means = { Rows };

    ghost few = { λ s. s.small };

    ghost meant = { λ s. grid_rows s.n s.words.now s.room };

    // Whether the memory holds the rows of n vertices.
    fn room(n: u16, memory: &&'a mut [u64]) -> Result<(), Refusal> {
        if is_bad_order(n) {
            return Err(Refusal::BadOrder);
        }
        if memory.len() < VERTEX_WORDS * n as usize {
            return Err(Refusal::ShortMemory);
        }
        Ok(())
    }

    // A map of n vertices and no edge.
    fn make(n: u16, memory: &'a mut [u64]) -> Grid<'a> {
        Grid::over(n, memory)
    }

    // Half of each vertex with each other.
    fn capacity(&mut self) -> usize {
        let n = self.n as usize;
        n * (n - 1) / 2
    }

    // Sets the edge's two bits. There is room for every pair, so none is refused for want of it.
    fn join(&mut self, u: Vertex, v: Vertex) -> Result<(), Refusal> {
        check_ends(self.n, u, v)?;
        if self.has(u, v) {
            return Err(Refusal::IsJoined);
        }
        set_edge(self.words, u, v, true);
        Ok(())
    }

    // Clears the edge's two bits.
    fn part(&mut self, u: Vertex, v: Vertex) -> Result<(), Refusal> {
        check_ends(self.n, u, v)?;
        if !self.has(u, v) {
            return Err(Refusal::NotJoined);
        }
        set_edge(self.words, u, v, false);
        Ok(())
    }
}
