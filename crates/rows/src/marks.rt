// A set of nodes: numbers below a limit, in words. A search marks in one what it has seen.
ghost use Rattle.std.specs.Prelude.{◌≡◌, ℕ, ◌-◌, ◌*◌, ◌<◌, ◌≤◌, Bool, false, not, ◌||◌, length, if◌then◌else◌, ◌==◌};
ghost use Rattle.graph.specs.Graph.{first};
ghost use Rattle.bits.specs.Bits.{has};
ghost use Rattle.rows.specs.Layout.{set_words, set_limit};
ghost use Rattle.rows.specs.Marks.{marked, fresh};

// How many words the set has, and the limit of its numbers, one for each bit. A search has at most 402
// nodes.
pub(crate) const SET_WORDS: usize = 7;

pub const SET_LIMIT: u16 = 448;

// The set owns its words: nothing else is said in them.
#[derive(Clone, Copy)]
pub struct Marks {
    words: [u64; SET_WORDS],
}

impl Marks {
    // The set with no node marked. No derived `Default`, whose contract would not say so.
    #[tactic(auto, using(crate::proofs::Sets::none_marked))]
    pub fn none() -> Marks
        ensures { marked result ≡ (λ k. false) }
    {
        Marks {
            words: [0; SET_WORDS],
        }
    }

    // Unmarks every node.
    pub fn clear(&mut self)
        ensures { marked self.new ≡ (λ k. false) }
    {
        *self = Marks::none();
    }

    // Marks node p; a number past the set is ignored.
    pub fn mark(&mut self, p: u16)
        ensures marks { p < set_limit → marked self.new ≡ (λ k. marked self.old k || k == p) }
        ensures past { set_limit ≤ p → self.new ≡ self.old }
    {
        if p < SET_LIMIT {
            bits::set(&mut self.words, p, true);
        }
    }

    // Marks the numbers of another set, in as many words.
    #[tactic(auto, using(crate::proofs::Sets::marked_both))]
    pub(crate) fn join(&mut self, others: &[u64])
        requires { length others.now ≡ set_words }
        ensures { (q : ℕ) → marked self.new q ≡ (marked self.old q || has others.now 0 q) }
    {
        bits::join(&mut self.words, others);
    }

    // Whether node p is marked.
    #[tactic(auto, using(crate::proofs::Sets::marked_has))]
    pub fn has(&self, p: u16) -> bool
        ensures { result ≡ marked self.now p }
    {
        bits::has(&self.words, p)
    }

    // The lowest number from w up that is in a set in words and is not marked.
    pub fn next_outside(&self, words: &[u64], w: u16) -> Option<u16>
        requires { length words.now ≤ set_words }
        ensures { result ≡ first (fresh (marked self.now) (has words.now 0)) w (64 * length words.now - w) }
    {
        bits::next_outside(words, &self.words, w)
    }

    // The lowest node from w up that is marked, or that is not.
    fn lowest(&self, seen: bool, w: u16) -> Option<u16>
        ensures { result ≡ first (λ q. (if seen then marked self.now q else not (marked self.now q))) w (set_limit - w) }
    {
        bits::next(&self.words, seen, w)
    }

    // The lowest node from w up and below n that is not marked. This and the next are two functions,
    // since a name tells a reader which is meant and a `true` does not.
    pub fn next_unmarked(&self, w: u16, n: u16) -> Option<u16>
        requires { n ≤ set_limit }
        ensures { result ≡ first (λ q. not (marked self.now q)) w (n - w) }
    {
        below(self.lowest(false, w), n)
    }

    // The lowest node from w up and below n that is marked.
    pub fn next_marked(&self, w: u16, n: u16) -> Option<u16>
        requires { n ≤ set_limit }
        ensures { result ≡ first (λ q. marked self.now q) w (n - w) }
    {
        below(self.lowest(true, w), n)
    }
}

// What a search found, if it is below n: what the same search finds below n.
fn below(found: Option<u16>, n: u16) -> Option<u16>
    requires { n ≤ set_limit }
    ensures { (p : ℕ → Bool) (w : ℕ) → found ≡ first p w (set_limit - w) → result ≡ first p w (n - w) }
{
    found.filter(|q| *q < n)
}
