// A plan is a digraph that answers questions. A search walks a plan and knows nothing of the
// map below it: `Line` reads each edge of a map as two arcs, `Split` gives each vertex but two
// ends an arc of its own, so that cuts of vertices become cuts of arcs.
#![tactic(auto)]

ghost use Rattle.std.specs.Prelude.{◌≡◌, ℕ, ◌<◌, ◌≤◌, Bool, false, List, length, ◌≢◌};
ghost use Rattle.flows.specs.Lists.{in_front};
ghost use Rattle.flows.specs.Flow.{Digraph, Sound, Flow, residual_side};
ghost use Rattle.rows.specs.Marks.{marked};
ghost use Rattle.graph.specs.Graph.{node_limit};
ghost use Rattle.plan.specs.Plans.{next_arc, arc_outside};

mod buffer;
mod line;
mod split;

pub use line::Line;
use rows::marks::{Marks, SET_LIMIT};
pub use split::Split;

// A digraph that answers questions. Every answer is read off the digraph alone, for every
// number, and a question changes nothing; of a number that is no node the answers are no and
// none. Questions take the plan for writing, as those of a map do.
pub trait Plan {
    // What a cut of the plan is made of.
    type Item: Copy;

    // The digraph that a plan means.
    ghost digraph: { Self → Digraph };

    ghost sound: { (p : Self) → Sound (digraph p) };

    ghost small: { (p : Self) → (digraph p).nodes ≤ node_limit };

    // The number of nodes.
    fn node_count(&mut self) -> u16
        ensures value { result ≡ (digraph self.old).nodes }
        ensures same { self.new ≡ self.old };

    // Whether an arc leads from p to q.
    fn leads(&mut self, p: u16, q: u16) -> bool
        ensures value { result ≡ (digraph self.old).arc p q }
        ensures same { self.new ≡ self.old };

    // The lowest node that is w or more and to which an arc leads from p.
    fn next_arc(&mut self, p: u16, w: u16) -> Option<u16>
        ensures value { result ≡ next_arc (digraph self.old) p w }
        ensures same { self.new ≡ self.old };

    // The lowest node that is w or more, is not in a set, and to which an arc leads from p. A plan need
    // not write it: this asks `next_arc`, and leaps over what is in the set.
    fn arc_outside(&mut self, p: u16, w: u16, set: &Marks) -> Option<u16>
        ensures value { result ≡ arc_outside (digraph self.old) (marked set.now) p w }
        ensures same { self.new ≡ self.old }
    {
        let mut from = w;
        while let Some(q) = self.next_arc(p, from) {
            if !set.has(q) {
                return Some(q);
            }
            from = set.next_unmarked(q + 1, SET_LIMIT)?;
        }
        None
    }
}

// A plan that tells its cuts: the value and the nearest cut of a pair of nodes, by definition, and
// that a largest flow shows them.
pub trait CutPlan: Plan {
    // The pairs whose value and cut a flow tells: two different nodes, and what else a plan asks.
    ghost asked: { Self → ℕ → ℕ → Type 0 };

    // The value of such a pair, and the smallest cut that is nearest to its first node. Both are
    // defined by taking items away, and not by flows.
    ghost valued: { Self → ℕ → ℕ → ℕ };

    ghost nearest: { Self → ℕ → ℕ → List Self.Item };

    ghost counted: { (p : Self) (a b : ℕ) → asked p a b → length (nearest p a b) ≡ valued p a b };

    // The items at which arcs leave a set of nodes that has a.
    ghost crossing: { Self → ℕ → (ℕ → Bool) → List Self.Item };

    // Writes the items at which arcs leave the marked nodes, a set that has `from`, and says how
    // many they are. Entries past them keep their content, as the buffer is lent.
    fn write_cut(&mut self, from: u16, marks: &Marks, cut: &mut [Self::Item]) -> usize
        requires { length (crossing self.old from (marked marks.now)) ≤ length cut.old }
        ensures count { result ≡ length (crossing self.old from (marked marks.now)) }
        ensures items { cut.new ≡ in_front (crossing self.old from (marked marks.now)) cut.old }
        ensures same { self.new ≡ self.old };

    // A pair that is asked for is two different nodes.
    ghost two: { (p : Self) (a b : ℕ) → asked p a b → (a < (Self.digraph p).nodes) × (b < (Self.digraph p).nodes) × (a ≢ b) };

    // A flow that no residual path leads on from has the pair's value, and the nearest cut is
    // where arcs leave its residual side.
    ghost told: { (p : Self) (a b : ℕ) (f : ℕ → ℕ → Bool) (v : ℕ) → asked p a b → Flow (Self.digraph p) a b f v → residual_side (Self.digraph p) f a b ≡ false → (valued p a b ≡ v) × (nearest p a b ≡ crossing p a (residual_side (Self.digraph p) f a)) };
}
