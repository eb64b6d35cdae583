// The steps out of a node to nodes that are not marked yet, one after another: along an arc on
// which the flow leaves room, and back along the flow. They are two functions: the first asks the
// plan and the flow's room, the second the flow's rows. Each leaps, which a `for` would not.
ghost use Rattle.std.specs.Prelude.{◌≡◌, ◌+◌, ◌-◌, ◌<◌, ◌≤◌, not};
ghost use Rattle.graph.specs.Graph.{first};
ghost use Rattle.flows.specs.Flow.{back};
ghost use Rattle.rows.specs.Layout.{set_limit};
ghost use Rattle.rows.specs.Marks.{marked, fresh};
ghost use Rattle.search.specs.Steps.{along};

use plan::Plan;
use rows::flow::Carries;
use rows::marks::Marks;

// Whether the flow leaves room on the arc from p to q.
fn has_room<F: Carries>(flow: &F, p: u16, q: u16) -> bool
    ensures { result ≡ not (F.arcs flow.now p q) }
{
    !flow.carries(p, q)
}

// The lowest node above q and below n that is not marked.
fn unmarked_above(marks: &Marks, q: u16, n: u16) -> Option<u16>
    requires { (q < n) × (n ≤ set_limit) }
    ensures { result ≡ first (λ k. not (marked marks.now k)) (q + 1) (n - (q + 1)) }
{
    marks.next_unmarked(q + 1, n)
}

// The lowest node from w up that is not marked and to which an arc with room leads from p. The plan
// passes over the marked nodes.
pub(crate) fn next_along<P: Plan, F: Carries>(
    plan: &mut P,
    flow: &F,
    marks: &Marks,
    p: u16,
    w: u16,
) -> Option<u16>
    ensures value { result ≡ first (fresh (marked marks.now) (along (P.digraph plan.old) (F.arcs flow.now) p)) w ((P.digraph plan.old).nodes - w) }
    ensures same { plan.new ≡ plan.old }
{
    let mut v = w;
    while let Some(q) = plan.arc_outside(p, v, marks) {
        if has_room(flow, p, q) {
            return Some(q);
        }
        v = q + 1;
    }
    None
}

// The lowest node from w up and below n that is not marked and from which the flow leads to p.
// Where the flow leads from a marked node, the marked nodes above it are leapt over.
pub(crate) fn next_back<F: Carries>(flow: &F, marks: &Marks, p: u16, w: u16, n: u16) -> Option<u16>
    requires { n ≤ set_limit }
    ensures { result ≡ first (fresh (marked marks.now) (back (F.arcs flow.now) p)) w (n - w) }
{
    let mut v = w;
    while let Some(q) = flow.next_tail(p, v) {
        if q >= n {
            return None;
        }
        if !marks.has(q) {
            return Some(q);
        }
        v = unmarked_above(marks, q, n)?;
    }
    None
}
