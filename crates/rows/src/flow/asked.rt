// What a search asks of the arcs that a flow goes along, whichever way their words are lent.
ghost use Rattle.std.specs.Prelude.{◌≡◌, ℕ, ◌-◌, Bool, ◌||◌};
ghost use Rattle.graph.specs.Graph.{first};
ghost use Rattle.rows.specs.Layout.{set_limit};
ghost use Rattle.rows.specs.Marks.{marked};

use crate::marks::Marks;

// A set of arcs that answers questions. Every answer is read off the arcs alone, for every number, and a
// question changes nothing.
pub trait Carries {
    // Whether the set has the arc from q to p.
    ghost arcs: { Self → ℕ → ℕ → Bool };

    // Whether the flow goes along the arc from q to p.
    fn carries(&self, q: u16, p: u16) -> bool
        ensures { result ≡ arcs self.now q p };

    // The lowest tail from w up of an arc to p, below the limit of a set of nodes.
    fn next_tail(&self, p: u16, w: u16) -> Option<u16>
        ensures { result ≡ first (λ q. arcs self.now q p) w (set_limit - w) };

    // The nodes of a set and, besides them, the tails of the arcs to p.
    fn with_tails(&self, p: u16, set: &Marks) -> Marks
        ensures { (q : ℕ) → marked result q ≡ (marked set.now q || arcs self.now q p) };
}
