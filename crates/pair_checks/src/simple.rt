// Nearest cuts of small maps by trying every set of vertices. Nothing is shared with the planner: a
// set is the bits of a word, and a map the set of neighbours of each vertex.
use cuts::Edge;
use model::Vertex;
use std::alloc::{AllocError, Global};

// The most vertices of such a map.
const MOST: usize = 6;

// The set of v alone.
fn only(v: Vertex) -> u32 {
    1u32.wrapping_shl(u32::from(v))
}

// Whether v is in a set.
fn is_in(set: u32, v: Vertex) -> bool {
    set & only(v) != 0
}

// A map of n vertices.
#[derive(Clone, Copy)]
pub(crate) struct Small {
    pub n: u16,
    rows: [u32; MOST],
}

impl Small {
    // A map without edges.
    pub(crate) fn of(n: u16) -> Small {
        Small { n, rows: [0; MOST] }
    }

    // Joins two vertices.
    pub(crate) fn join(&mut self, u: Vertex, v: Vertex) {
        for (a, b) in [(u, v), (v, u)] {
            if let Some(row) = self.rows.get_mut(usize::from(a)) {
                *row |= only(b);
            }
        }
    }

    // The set of neighbours of a vertex.
    fn row(&self, v: Vertex) -> u32 {
        self.rows.get(usize::from(v)).copied().unwrap_or(0)
    }

    // Whether u and v are joined.
    pub(crate) fn joined(&self, u: Vertex, v: Vertex) -> bool {
        is_in(self.row(u), v)
    }

    // All vertices.
    fn all(&self) -> u32 {
        only(self.n).wrapping_sub(1)
    }

    // How many edges leave a set.
    fn leaving(&self, set: u32) -> u32 {
        let mut sum = 0u32;
        for v in 0..self.n {
            if is_in(set, v) {
                sum = sum.saturating_add((self.row(v) & !set).count_ones());
            }
        }
        sum
    }

    // What a reaches without some vertices.
    fn reached(&self, a: Vertex, without: u32) -> u32 {
        let mut set = only(a);
        for _ in 0..self.n {
            for v in 0..self.n {
                if is_in(set, v) {
                    set |= self.row(v) & !without;
                }
            }
        }
        set
    }

    // What is left of a when the nearest smallest edge cut is taken: what all sides that as few edges
    // leave have in common.
    fn edge_side(&self, a: Vertex, b: Vertex) -> u32 {
        let mut least = u32::MAX;
        let mut side = self.all();
        for set in 0..=self.all() {
            if is_in(set, a) && !is_in(set, b) {
                let count = self.leaving(set);
                if count < least {
                    least = count;
                    side = set;
                } else if count == least {
                    side &= set;
                }
            }
        }
        side
    }

    // The nearest smallest edge cut.
    pub(crate) fn edge_cut(
        &self,
        heap: Global,
        a: Vertex,
        b: Vertex,
    ) -> Result<Vec<Edge>, AllocError> {
        let side = self.edge_side(a, b);
        let mut cut = Vec::new(heap);
        for low in 0..self.n {
            for high in low..self.n {
                if self.joined(low, high) && is_in(side, low) != is_in(side, high) {
                    cut.push(Edge { low, high })?;
                }
            }
        }
        Ok(cut)
    }

    // The nearest smallest vertex cut, as a set: among the smallest, the one that leaves a reaching
    // what all of them leave it reaching.
    fn vertex_set(&self, a: Vertex, b: Vertex) -> u32 {
        let mut least = u32::MAX;
        let mut side = self.all();
        let mut nearest = 0;
        for set in 0..=self.all() {
            let rest = self.reached(a, set);
            if !is_in(set, a) && !is_in(set, b) && !is_in(rest, b) {
                let count = set.count_ones();
                if count < least || (count == least && rest & side == rest) {
                    least = count;
                    side = rest;
                    nearest = set;
                }
            }
        }
        nearest
    }

    // The nearest smallest vertex cut.
    pub(crate) fn vertex_cut(
        &self,
        heap: Global,
        a: Vertex,
        b: Vertex,
    ) -> Result<Vec<Vertex>, AllocError> {
        let set = self.vertex_set(a, b);
        let mut cut = Vec::new(heap);
        for v in 0..self.n {
            if is_in(set, v) {
                cut.push(v)?;
            }
        }
        Ok(cut)
    }
}
