// One call on a planner.
ghost use Rattle.std.specs.Prelude.{◌≡◌, true, false, List, [], ◌∷◌, ◌++◌, is_ok, if◌then◌else◌};
ghost use Rattle.model.specs.Kinds.{is_make, is_edit, is_question};
ghost use Rattle.model.specs.Model.{Room};
ghost use Rattle.model.specs.Table.{bad_order};
ghost use Rattle.model.specs.After.{after};
ghost use Rattle.model.specs.declared.refusal.Refusal.TheVariants.{BadOrder, OutOfTurn};
ghost use Rattle.workspace.specs.Parts.{buffers, sizes_of, SameMemory, Untouched};
ghost use Rattle.strike.specs.Kept.{memory_after};
ghost use Rattle.law.specs.Told.{left_by};
ghost use Rattle.law.specs.Law.{Right, Event, event, Sound};
ghost use Rattle.session.specs.Kept.{model_of, held_of, state_of, split_ends};
ghost use Rattle.session.specs.Calls.{lent_at, said_in};

use crate::Planner;
use model::{Answer, Call, Refusal, is_bad_order};
use store::{Editable, Map};
use workspace::Workspace;

// Why a make is refused once a map stands: its order first, its turn otherwise.
fn later_make(n: u16) -> Refusal
    ensures { result ≡ (if bad_order n then BadOrder else OutOfTurn) }
{
    if is_bad_order(n) {
        return Refusal::BadOrder;
    }
    Refusal::OutOfTurn
}

impl<S: Editable> Planner<S> {
    // Performs a call; `perform` says the same of it.
    fn act(&mut self, call: Call, workspace: &mut Workspace<'_>) -> Result<Answer, Refusal>
        ensures right { (room : Room)
            → Right (lent_at room workspace.old) (state_of S.graph S.most self.old) call (said_in result workspace.new) }
        ensures after { (room : Room)
            → state_of S.graph S.most self.new
            ≡ after (lent_at room workspace.old) (state_of S.graph S.most self.old) call }
        ensures held { held_of S.held self.new
            ≡ memory_after S.with_edge_in S.without_edge_in (model_of S.graph S.most self.old) call (held_of S.held self.old) }
        ensures written { buffers workspace.new ≡ left_by (said_in result workspace.new) (buffers workspace.old) }
        ensures edit { is_question call ≡ false → Untouched workspace.old workspace.new }
        ensures question { is_edit call ≡ false → self.new ≡ self.old }
        ensures make { is_make call ≡ true → is_ok result ≡ false }
        ensures ends { split_ends self.new ≡ split_ends self.old }
        ensures refused { is_ok result ≡ false → (self.new ≡ self.old) × Untouched workspace.old workspace.new }
        ensures memory { SameMemory workspace.old workspace.new }
        ensures sizes { sizes_of workspace.new ≡ sizes_of workspace.old }
    {
        match call {
            Call::Make(n) => Err(later_make(n)),
            Call::Join(u, v) => {
                self.pile.map.map.join(u, v)?;
                Ok(Answer::Joined)
            }
            Call::Part(u, v) => {
                self.pile.map.map.part(u, v)?;
                Ok(Answer::Parted)
            }
            Call::Strike(u, v) => {
                self.pile.map.map.strike(u, v)?;
                Ok(Answer::Struck)
            }
            Call::Lift(u, v) => {
                self.pile.map.map.lift(u, v)?;
                Ok(Answer::Lifted)
            }
        }
    }
}

// Performs one call on a planner, with a workspace lent for it, and keeps the law: a session that was
// sound stays sound with this call and what it said, whatever memory was lent.
pub fn perform<S: Editable>(
    planner: &mut Planner<S>,
    call: Call,
    workspace: &mut Workspace<'_>,
) -> Result<Answer, Refusal>
    ensures law { (room : Room) (events : List Event)
        → Sound events (state_of S.graph S.most planner.old)
        → Sound (events ++ (event (lent_at room workspace.old) call (said_in result workspace.new) ∷ []))
        (state_of S.graph S.most planner.new) }
    ensures right { (room : Room)
        → Right (lent_at room workspace.old) (state_of S.graph S.most planner.old) call (said_in result workspace.new) }
    ensures after { (room : Room)
        → state_of S.graph S.most planner.new
        ≡ after (lent_at room workspace.old) (state_of S.graph S.most planner.old) call }
    // The memory under the store holds what this call leaves in it, and all else there is as it was.
    ensures held { held_of S.held planner.new
        ≡ memory_after S.with_edge_in S.without_edge_in (model_of S.graph S.most planner.old) call (held_of S.held planner.old) }
    // What is told stands in front in the buffers, and all else in them is as it was.
    ensures written { buffers workspace.new ≡ left_by (said_in result workspace.new) (buffers workspace.old) }
    // An edit writes nothing at all into the workspace; all but an edit leave the planner as it was.
    ensures edit { is_question call ≡ false → Untouched workspace.old workspace.new }
    ensures question { is_edit call ≡ false → planner.new ≡ planner.old }
    // A make is never accepted where a map stands.
    ensures make { is_make call ≡ true → is_ok result ≡ false }
    ensures ends { split_ends planner.new ≡ split_ends planner.old }
    ensures refused { is_ok result ≡ false → (planner.new ≡ planner.old) × Untouched workspace.old workspace.new }
    ensures memory { SameMemory workspace.old workspace.new }
    ensures sizes { sizes_of workspace.new ≡ sizes_of workspace.old }
{
    planner.act(call, workspace)
}
