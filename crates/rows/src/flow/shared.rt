// The arcs in words that are lent for reading alone, laid out as those of `Arcs`. There may be any number
// of words: a bit past them is clear.
ghost use Rattle.std.specs.Prelude.{◌≡◌, ℕ, ◌-◌, ◌≤◌, length};
ghost use Rattle.graph.specs.Graph.{first};
ghost use Rattle.bits.specs.Bits.{has};
ghost use Rattle.rows.specs.Flow.{arcs_in};
ghost use Rattle.rows.specs.Layout.{set_words, set_limit};

use super::{Carries, ROW_WORDS};
use crate::marks::{Marks, SET_WORDS};

// The rows of the heads below it are read: those of 4,096 words.
const HEAD_LIMIT: u16 = 512;

// A set of arcs over words that others may read too.
#[derive(Clone, Copy)]
pub struct SharedArcs<'a> {
    words: &'a [u64],
}

// The words of a set of nodes: some words, and 0 in each of the others.
fn filled_up(words: &[u64]) -> [u64; SET_WORDS]
    requires { length words.now ≤ set_words }
    ensures { (q : ℕ) → has result 0 q ≡ has words.now 0 q }
{
    let mut all = [0; SET_WORDS];
    all[..words.len()].copy_from_slice(words);
    all
}

impl<'a> SharedArcs<'a> {
    // The arcs in lent words, of any number.
    pub fn over(words: &'a [u64]) -> SharedArcs<'a>
        ensures { ⟦<SharedArcs<'a> as Carries>⟧.arcs result ≡ arcs_in words.now }
    {
        SharedArcs { words }
    }

    // The used words of the row of head p, as far as there are words.
    #[tactic(auto, using(crate::proofs::Shared::row_there, crate::proofs::Shared::row_past))]
    fn row(&self, p: u16) -> &[u64]
        ensures bits { (q : ℕ) → has result.now 0 q ≡ arcs_in self.now.words.now q p }
        ensures size { length result.now ≤ set_words }
    {
        if p >= HEAD_LIMIT {
            return &[];
        }
        let count = self.words.len();
        let start = count.min(ROW_WORDS * p as usize);
        &self.words[start..count.min(start + SET_WORDS)]
    }

    // The lowest tail from w up of an arc to p, in its row.
    fn tail_in_row(&self, p: u16, w: u16) -> Option<u16>
        ensures { result ≡ first (λ q. arcs_in self.now.words.now q p) w (set_limit - w) }
    {
        bits::next(self.row(p), true, w)
    }
}

impl Carries for SharedArcs<'_> {
    ghost arcs = { λ s. arcs_in s.words.now };

    // Whether the flow goes along the arc from q to p.
    fn carries(&self, q: u16, p: u16) -> bool {
        bits::has(self.row(p), q)
    }

    // The lowest tail from w up of an arc to p.
    fn next_tail(&self, p: u16, w: u16) -> Option<u16> {
        self.tail_in_row(p, w)
    }

    // The nodes of a set and, besides them, the tails of the arcs to p.
    fn with_tails(&self, p: u16, set: &Marks) -> Marks {
        let mut both = *set;
        both.join(&filled_up(self.row(p)));
        both
    }
}
