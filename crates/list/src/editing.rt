// How a list is made and edited.
ghost use Rattle.list.specs.Meaning.{codes_of, capacity_of, lent_cells, laid_cells, taken_cells};
ghost use Rattle.list.specs.Edges.{Listed};

use crate::List;
use model::{Refusal, Vertex, is_bad_order};
use store::{Editable, check_ends};

impl<'a> Editable for List<'a> {
    type Memory = &'a mut [u16];

    // An edge in each cell.
    ghost most = { capacity_of };

    // Any number of cells is enough.
    ghost room_in = { λ memory. lent_cells memory.now };

    ghost held = { codes_of };

    // No cell is touched.
    ghost fresh = { λ memory n. memory.now };

    // The edge's number goes in where it belongs, and the cells in use behind that move up by one.
    ghost with_edge_in = { laid_cells };

    // It goes out, those behind it move down, and the last cell that was in use is free.
    ghost without_edge_in = { taken_cells };

    ghost Means = { Listed };

    ghost few = { λ s. s.small };

    ghost meant = { λ s. s.listed };

    // Whether n is an order that a make accepts; any number of cells is enough.
    fn room(n: u16, memory: &&'a mut [u16]) -> Result<(), Refusal> {
        if is_bad_order(n) {
            return Err(Refusal::BadOrder);
        }
        Ok(())
    }

    // A map of n vertices and no edge.
    fn make(n: u16, memory: &'a mut [u16]) -> List<'a> {
        List::blank(n, memory)
    }

    // As many edges as cells.
    fn capacity(&mut self) -> usize {
        self.codes.len()
    }

    // Lays the edge between u and v: its number goes in where it belongs.
    fn join(&mut self, u: Vertex, v: Vertex) -> Result<(), Refusal> {
        check_ends(self.n, u, v)?;
        if self.joins(u, v) {
            return Err(Refusal::IsJoined);
        }
        if self.is_full() {
            return Err(Refusal::NoRoom);
        }
        self.lay(u, v);
        Ok(())
    }

    // Takes the edge between u and v up: its number goes out, and the last cell in use is free.
    fn part(&mut self, u: Vertex, v: Vertex) -> Result<(), Refusal> {
        check_ends(self.n, u, v)?;
        if !self.joins(u, v) {
            return Err(Refusal::NotJoined);
        }
        self.take_up(u, v);
        Ok(())
    }
}
