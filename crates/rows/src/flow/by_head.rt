// What a search and a flow ask of a set of arcs, and the writes. That a set lies over the same words
// after a write (`same_reference`) has to be said of each.
ghost use Rattle.std.specs.Prelude.{◌≡◌, ℕ, ◌-◌, ◌*◌, ◌<◌, ◌≤◌, true, false, ◌||◌, ◌++◌, length, drop, replicate};
ghost use Rattle.graph.specs.Graph.{first};
ghost use Rattle.bits.specs.Bits.{has};
ghost use Rattle.rows.specs.Flow.{carried, with_arc, without_arc};
ghost use Rattle.rows.specs.Layout.{set_words, set_limit, row_words, arc_words};
ghost use Rattle.rows.specs.Marks.{marked};

use super::{Arcs, Carries, ROW_WORDS};
use crate::marks::{Marks, SET_WORDS};

// Writes 0 into the rows of so many heads.
fn wipe_rows(words: &mut [u64], heads: u16)
    requires { row_words * heads ≤ length words.old }
    ensures words { words.new ≡ replicate (row_words * heads) 0 ++ drop (row_words * heads) words.old }
    ensures rest { drop (row_words * heads) words.new ≡ drop (row_words * heads) words.old }
{
    words[..ROW_WORDS * heads as usize].fill(0);
}

impl<'a> Arcs<'a> {
    // A set with no heads yet, and so with no arcs.
    pub fn over(words: &'a mut [u64]) -> Arcs<'a>
        requires { arc_words ≤ length words.old }
        ensures words { result.words.now ≡ words.old }
        ensures heads { result.heads ≡ 0 }
        ensures same_reference { result.words.ghost_name ≡ words.entry.ghost_name }
    {
        Arcs { words, heads: 0 }
    }

    // Takes every arc away, and gives the set so many heads. Only their rows are written.
    #[tactic(auto, using(crate::proofs::Heads::none_carried))]
    pub fn wipe(&mut self, heads: u16)
        requires { heads ≤ set_limit }
        ensures arcs { carried self.new ≡ (λ x y. false) }
        ensures heads { self.new.heads ≡ heads }
        ensures rest { drop (row_words * heads) self.new.words.now ≡ drop (row_words * heads) self.old.words.now }
        ensures same_reference { self.new.words.ghost_name ≡ self.old.words.ghost_name }
    {
        wipe_rows(self.words, heads);
        self.heads = heads;
    }

    // The used words of the row of head p.
    #[tactic(auto, using(crate::proofs::Heads::row_says))]
    fn row(&self, p: u16) -> &[u64]
        requires { p < self.now.heads }
        ensures bits { (q : ℕ) → has result.now 0 q ≡ carried self.now q p }
        ensures size { length result.now ≡ set_words }
    {
        let at = ROW_WORDS * p as usize;
        &self.words[at..at + SET_WORDS]
    }

    // Whether the flow goes along the arc from q to p.
    #[tactic(auto, using(crate::proofs::Heads::head_past))]
    pub fn carries(&self, q: u16, p: u16) -> bool
        ensures { result ≡ carried self.now q p }
    {
        p < self.heads && bits::has(self.row(p), q)
    }

    // The nodes of a set and, besides them, the tails of the arcs to p.
    pub fn with_tails(&self, p: u16, set: &Marks) -> Marks
        ensures { (q : ℕ) → marked result q ≡ (marked set.now q || carried self.now q p) }
    {
        let mut both = *set;
        if p < self.heads {
            both.join(self.row(p));
        }
        both
    }

    // Puts the arc from q to p in, or takes it out.
    fn write(&mut self, q: u16, p: u16, on: bool)
        requires { (q < set_limit) × (p < self.old.heads) }
        ensures put { on ≡ true → carried self.new ≡ with_arc (carried self.old) q p }
        ensures taken { on ≡ false → carried self.new ≡ without_arc (carried self.old) q p }
        ensures heads { self.new.heads ≡ self.old.heads }
        ensures same_reference { self.new.words.ghost_name ≡ self.old.words.ghost_name }
    {
        let at = ROW_WORDS * p as usize;
        bits::set(&mut self.words[at..at + ROW_WORDS], q, on);
    }

    // Puts the arc from q to p in. Two names, as a set has insert and remove.
    pub fn put(&mut self, q: u16, p: u16)
        requires { (q < set_limit) × (p < self.old.heads) }
        ensures arcs { carried self.new ≡ with_arc (carried self.old) q p }
        ensures heads { self.new.heads ≡ self.old.heads }
        ensures same_reference { self.new.words.ghost_name ≡ self.old.words.ghost_name }
    {
        self.write(q, p, true);
    }

    // Takes the arc from q to p out.
    pub fn take(&mut self, q: u16, p: u16)
        requires { (q < set_limit) × (p < self.old.heads) }
        ensures arcs { carried self.new ≡ without_arc (carried self.old) q p }
        ensures heads { self.new.heads ≡ self.old.heads }
        ensures same_reference { self.new.words.ghost_name ≡ self.old.words.ghost_name }
    {
        self.write(q, p, false);
    }

    // The lowest tail from w up of an arc to p, a head of the set.
    fn tail_in_row(&self, p: u16, w: u16) -> Option<u16>
        requires { p < self.now.heads }
        ensures { result ≡ first (λ q. carried self.now q p) w (set_limit - w) }
    {
        bits::next(self.row(p), true, w)
    }

    // The lowest tail from w up of an arc to p. An `if` and no `then_some`, since a row is only there
    // for a head of the set.
    pub fn next_tail(&self, p: u16, w: u16) -> Option<u16>
        ensures { result ≡ first (λ q. carried self.now q p) w (set_limit - w) }
    {
        if p < self.heads {
            self.tail_in_row(p, w)
        } else {
            None
        }
    }
}

// A search asks the methods above.
impl Carries for Arcs<'_> {
    ghost arcs = { carried };

    // Whether the flow goes along the arc from q to p.
    fn carries(&self, q: u16, p: u16) -> bool {
        Arcs::carries(self, q, p)
    }

    // The lowest tail from w up of an arc to p.
    fn next_tail(&self, p: u16, w: u16) -> Option<u16> {
        Arcs::next_tail(self, p, w)
    }

    // The nodes of a set and, besides them, the tails of the arcs to p.
    fn with_tails(&self, p: u16, set: &Marks) -> Marks {
        Arcs::with_tails(self, p, set)
    }
}
