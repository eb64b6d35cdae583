// How a search finds its goal: at a node, one step on from it, or two steps on. It looks two steps
// ahead by a set: the nodes from which no arc with room leads to the goal. The others are open.
ghost use Rattle.std.specs.Prelude.{◌≡◌, ℕ, ◌<◌, ◌||◌, IfSome, is_some};
ghost use Rattle.graph.specs.Graph.{node_limit};
ghost use Rattle.flows.specs.Flow.{Digraph};
ghost use Rattle.rows.specs.Marks.{marked};
ghost use Rattle.search.specs.Goals.{Far, Closed, way_on, on_noted, goal_from, goal_noted};

use crate::steps::next_along;
use augment::Notes;
use plan::Plan;
use rows::flow::Carries;
use rows::marks::Marks;

// The nodes from which no arc leads to t. They stay the same while a run pushes.
pub fn far_from<P: Plan>(plan: &mut P, t: u16) -> Marks
    ensures far { Far (P.digraph plan.old) t (marked result) }
    ensures same { plan.new ≡ plan.old }
{
    let n = plan.node_count();
    let mut far = Marks::none();
    for p in 0..n {
        if !plan.leads(p, t) {
            far.mark(p);
        }
    }
    far
}

// The nodes from which no arc with room leads to t: those from which no arc does, and those from
// which the flow goes to t already.
pub fn closed_to<F: Carries>(flow: &F, far: &Marks, t: u16) -> Marks
    ensures nodes { (q : ℕ) → marked result q ≡ (marked far.now q || F.arcs flow.now q t) }
    ensures closed { (d : Digraph) → Far d t (marked far.now) → Closed d (F.arcs flow.now) t (marked result) }
{
    flow.with_tails(t, far)
}

// Whether an arc with room leads on from q to an open node; the lowest is noted, on the way to t.
fn leads_on<P: Plan, F: Carries>(
    plan: &mut P,
    flow: &F,
    notes: &mut Notes<'_>,
    closed: &Marks,
    t: u16,
    q: u16,
) -> bool
    requires { t < node_limit }
    ensures value { result ≡ is_some (way_on (P.digraph plan.old) (F.arcs flow.now) (marked closed.now) q) }
    ensures notes { notes.new.before.now
        ≡ on_noted (way_on (P.digraph plan.old) (F.arcs flow.now) (marked closed.now) q) q t notes.old.before.now }
    ensures same { plan.new ≡ plan.old }
    ensures same_reference { notes.new.before.ghost_name ≡ notes.old.before.ghost_name }
{
    let Some(r) = next_along(plan, flow, closed, q, 0) else {
        return false;
    };
    notes.note(r, q);
    notes.note(t, r);
    true
}

// Whether q is the goal, or open, or an arc with room leads on from q to an open node; the steps from
// q to the goal are noted. So a search looks two steps ahead of each node that it finds.
pub(crate) fn finds_goal<P: Plan, F: Carries>(
    plan: &mut P,
    flow: &F,
    notes: &mut Notes<'_>,
    closed: &Marks,
    goal: Option<u16>,
    q: u16,
) -> bool
    requires { IfSome goal (λ t. t < node_limit) }
    ensures value { result
        ≡ goal_from goal (marked closed.now) (way_on (P.digraph plan.old) (F.arcs flow.now) (marked closed.now) q) q }
    ensures notes { notes.new.before.now
        ≡ goal_noted goal (marked closed.now) (way_on (P.digraph plan.old) (F.arcs flow.now) (marked closed.now) q) q
        notes.old.before.now }
    ensures same { plan.new ≡ plan.old }
    ensures same_reference { notes.new.before.ghost_name ≡ notes.old.before.ghost_name }
{
    let Some(t) = goal else {
        return false;
    };
    if q == t {
        return true;
    }
    if !closed.has(q) {
        notes.note(t, q);
        return true;
    }
    leads_on(plan, flow, notes, closed, t, q)
}
