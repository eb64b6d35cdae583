// The one search: breadth-first over what a flow leaves of a plan. It seeks a path to a goal,
// leaving off the moment the goal is known to be reached, or, without a goal, marks all that is
// reached. Three questions stay apart: which arc comes next to a node that is not marked, whether the flow
// leaves room on it, and whether an arc of the flow leads back.
#![tactic(auto)]

ghost use Rattle.std.specs.Prelude.{◌≡◌, ℕ, ◌<◌, true, false, IfSome, MatchOption};
ghost use Rattle.flows.specs.Flow.{residual, residual_side};
ghost use Rattle.rows.specs.Marks.{marked};
ghost use Rattle.augment.specs.Trails.{Trail};
ghost use Rattle.search.specs.Goals.{Closed};

mod goal;
mod queue;
mod slots;
mod steps;
mod waiting;

use augment::Notes;
use goal::finds_goal;
pub use goal::{closed_to, far_from};
use plan::Plan;
use queue::enter;
use ring::Ring;
use rows::flow::Carries;
use rows::marks::Marks;
pub use slots::Slots;
use steps::{next_along, next_back};
pub use waiting::Waiting;

// Marks what `from` reaches by residual steps: along an arc with room, or back along the flow. With
// a goal, it leaves off at the first node that is the goal or from which one arc with room, or two,
// lead to it, and the notes lead back. The path stands in the notes, so the answer is a flag. Lent
// with a goal are the nodes from which no arc with room leads to it. The flow is only asked, so it may
// lie in words that are lent for reading alone.
pub fn search<P: Plan, E: Waiting, F: Carries>(
    plan: &mut P,
    flow: &F,
    marks: &mut Marks,
    notes: &mut Notes<'_>,
    slots: &mut Slots<'_, E>,
    from: u16,
    goal: Option<u16>,
    closed: &Marks,
) -> bool
    requires start { from < (P.digraph plan.old).nodes }
    requires goal { IfSome goal (λ t. (t < (P.digraph plan.old).nodes) × Closed (P.digraph plan.old) (F.arcs flow.now) t (marked closed.now)) }
    ensures same { plan.new ≡ plan.old }
    ensures same_reference { notes.new.before.ghost_name ≡ notes.old.before.ghost_name }
    ensures found { result ≡ true → MatchOption goal ⊥ (λ t. Trail (residual (P.digraph plan.old) (F.arcs flow.now)) from t notes.new.before.now) }
    ensures swept { result ≡ false → (q : ℕ) → marked marks.new q ≡ residual_side (P.digraph plan.old) (F.arcs flow.now) from q }
    ensures missed { result ≡ false → IfSome goal (λ t. residual_side (P.digraph plan.old) (F.arcs flow.now) from t ≡ false) }
{
    let n = plan.node_count();
    marks.clear();
    let mut queue = Ring::new(slots.cells);
    enter(marks, &mut queue, from, from, true);
    if finds_goal(plan, flow, notes, closed, goal, from) {
        return true;
    }
    let mut found = false;
    'search: while let Some(first) = queue.pop() {
        let p = first.node();
        // This loop and the next are two, since each asks another question. They leap from node to
        // node, which a `for` would not. Their labels are their names in the proofs.
        let mut ahead = 0;
        'along: while let Some(q) = next_along(plan, flow, marks, p, ahead) {
            notes.note(q, p);
            enter(marks, &mut queue, q, p, true);
            if finds_goal(plan, flow, notes, closed, goal, q) {
                found = true;
                break 'search;
            }
            ahead = q + 1;
        }
        let mut behind = 0;
        'back: while let Some(q) = next_back(flow, marks, p, behind, n) {
            notes.note(q, p);
            enter(marks, &mut queue, q, p, false);
            if finds_goal(plan, flow, notes, closed, goal, q) {
                found = true;
                break 'search;
            }
            behind = q + 1;
        }
    }
    found
}
