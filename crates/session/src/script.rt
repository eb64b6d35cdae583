// A whole session: calls, each with a workspace of its own. A session is the memory that waits for a
// make, or the planner that took it.
ghost use Rattle.std.specs.Prelude.{◌≡◌, ℕ, false, List, [], ◌∷◌, ◌++◌, is_ok, Err, IfErr};
ghost use Rattle.model.specs.declared.sizes.Sizes.{Sizes};
ghost use Rattle.model.specs.Kinds.{is_make, is_edit, is_question};
ghost use Rattle.model.specs.Model.{Room, lent_of, unmade};
ghost use Rattle.model.specs.After.{after};
ghost use Rattle.workspace.specs.Buffers.{Buffers};
ghost use Rattle.workspace.specs.Parts.{buffers, sizes_of, SameMemory, Untouched};
ghost use Rattle.law.specs.Told.{said, left_by};
ghost use Rattle.law.specs.Law.{Right, Event, event, Sound};
ghost use Rattle.session.specs.Kept.{state_reached};
ghost use Rattle.session.specs.Held.{held_next, Holds, HoldsAfter, HoldsChanged};
ghost use Rattle.session.specs.Calls.{lent_at, said_in};
ghost use Rattle.session.specs.Script.{event_of, events_of, Answered, WrittenOnly};

use crate::{Planner, perform};
use model::{Answer, Call, Refusal};
use store::{Editable, Map};
use workspace::Workspace;

// A call, the workspace that is lent with it, and its reply once it was made. A reply that is there
// before does not count.
#[derive(Drop)]
pub struct Asked<'a> {
    pub call: Call,
    pub workspace: Workspace<'a>,
    pub reply: Result<Answer, Refusal>,
}

// Makes a call of a session that waits: an accepted make takes the memory, else it is handed back.
fn begin<S: Editable>(
    memory: S::Memory,
    call: Call,
) -> (Result<Planner<S>, S::Memory>, Result<Answer, Refusal>)
    ensures right { (sizes : Sizes) (b : Buffers)
        → Right (lent_of (S.room_in memory) sizes) unmade call (said result.1 b) }
    ensures after { (sizes : Sizes)
        → state_reached S.graph S.most result.0 ≡ after (lent_of (S.room_in memory) sizes) unmade call }
    ensures held { (sizes : Sizes) (xs : List ℕ)
        → Holds S.held result.0 (held_next (S.fresh memory) S.with_edge_in S.without_edge_in (lent_of (S.room_in memory) sizes) unmade call xs) }
    ensures written { (b : Buffers) → b ≡ left_by (said result.1 b) b }
    ensures no_make { is_make call ≡ false → result.0 ≡ Err memory }
    ensures refused { is_ok result.1 ≡ false → result.0 ≡ Err memory }
    ensures back { IfErr result.0 (λ m. m ≡ memory) }
{
    let Call::Make(n) = call else {
        return (Err(memory), Err(Refusal::OutOfTurn));
    };
    match Planner::open(n, memory) {
        Ok(planner) => (Ok(planner), Ok(Answer::Made)),
        Err(refused) => (Err(refused.memory), Err(refused.refusal)),
    }
}

// Makes one call of a session, with a workspace lent for it, and keeps the law.
pub fn respond<S: Editable>(
    session: Result<Planner<S>, S::Memory>,
    call: Call,
    workspace: &mut Workspace<'_>,
) -> (Result<Planner<S>, S::Memory>, Result<Answer, Refusal>)
    ensures law { (room : Room) (events : List Event)
        → IfErr session (λ m. S.room_in m ≡ room)
        → Sound events (state_reached S.graph S.most session)
        → Sound (events ++ (event (lent_at room workspace.old) call (said_in result.1 workspace.new) ∷ []))
        (state_reached S.graph S.most result.0) }
    ensures right { (room : Room)
        → IfErr session (λ m. S.room_in m ≡ room)
        → Right (lent_at room workspace.old) (state_reached S.graph S.most session) call (said_in result.1 workspace.new) }
    ensures after { (room : Room)
        → IfErr session (λ m. S.room_in m ≡ room)
        → state_reached S.graph S.most result.0
        ≡ after (lent_at room workspace.old) (state_reached S.graph S.most session) call }
    ensures held { (room : Room) (fresh : ℕ → List ℕ)
        → IfErr session (λ m. (S.room_in m ≡ room) × (S.fresh m ≡ fresh))
        → HoldsChanged S.held session result.0
        (held_next fresh S.with_edge_in S.without_edge_in (lent_at room workspace.old) (state_reached S.graph S.most session) call) }
    ensures written { buffers workspace.new ≡ left_by (said_in result.1 workspace.new) (buffers workspace.old) }
    ensures edit { is_question call ≡ false → Untouched workspace.old workspace.new }
    // Only a make or an edit changes what a session keeps.
    ensures question { is_make call ≡ false → is_edit call ≡ false → result.0 ≡ session }
    ensures refused { is_ok result.1 ≡ false → (result.0 ≡ session) × Untouched workspace.old workspace.new }
    ensures back { IfErr result.0 (λ m. session ≡ Err m) }
    ensures memory { SameMemory workspace.old workspace.new }
    ensures sizes { sizes_of workspace.new ≡ sizes_of workspace.old }
{
    match session {
        Ok(mut planner) => {
            let reply = perform(&mut planner, call, workspace);
            (Ok(planner), reply)
        }
        Err(memory) => begin(memory, call),
    }
}

// Makes one call of a script, in the workspace that is lent with it.
fn play_one<S: Editable>(
    session: Result<Planner<S>, S::Memory>,
    asked: &mut Asked<'_>,
) -> Result<Planner<S>, S::Memory>
    ensures law { (room : Room) (events : List Event)
        → IfErr session (λ m. S.room_in m ≡ room)
        → Sound events (state_reached S.graph S.most session)
        → Sound (events ++ (event_of room asked.old asked.new ∷ [])) (state_reached S.graph S.most result) }
    ensures held { (room : Room) (fresh : ℕ → List ℕ)
        → IfErr session (λ m. (S.room_in m ≡ room) × (S.fresh m ≡ fresh))
        → HoldsChanged S.held session result
        (held_next fresh S.with_edge_in S.without_edge_in (lent_at room asked.old.workspace) (state_reached S.graph S.most session) asked.old.call) }
    ensures answered { Answered asked.old asked.new }
    ensures back { IfErr result (λ m. session ≡ Err m) }
{
    let (next, reply) = respond::<S>(session, asked.call, &mut asked.workspace);
    asked.reply = reply;
    next
}

// Makes the calls of a script in order, each on the map that those before it left, from memory for any
// store; each is answered in its own workspace. What comes back is the planner, or the memory where no
// make was accepted.
pub fn play<S: Editable>(
    memory: S::Memory,
    script: &mut [Asked<'_>],
) -> Result<Planner<S>, S::Memory>
    ensures law { Sound (events_of (S.room_in memory) script.old script.new) (state_reached S.graph S.most result) }
    ensures held { HoldsAfter S.held (S.fresh memory) S.with_edge_in S.without_edge_in result
        (events_of (S.room_in memory) script.old script.new) }
    ensures written { WrittenOnly script.old script.new }
    ensures back { IfErr result (λ m. m ≡ memory) }
{
    let mut session = Err(memory);
    for asked in script.iter_mut() {
        session = play_one::<S>(session, asked);
    }
    session
}
