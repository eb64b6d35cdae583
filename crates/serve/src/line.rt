// The reply to a line of an input.
ghost use Rattle.std.specs.Prelude.{◌≡◌, ℕ, List, ◌++◌, Ok, Err, IfOk, IfErr, OnErr};
ghost use Rattle.model.specs.Model.{Lent, Room};
ghost use Rattle.workspace.specs.Parts.{buffers, sizes_of, SameMemory, Untouched};
ghost use Rattle.law.specs.Law.{Event, Sound};
ghost use Rattle.frames.specs.Frames.{request};
ghost use Rattle.session.specs.Kept.{state_reached};
ghost use Rattle.session.specs.Held.{HoldsAfter};
ghost use Rattle.session.specs.Calls.{lent_at};
ghost use Rattle.serve.specs.Served.{IsReplyTo, Exactly, events_at, left_after};
ghost use Rattle.serve.specs.Progress.{reply_in, as_call};

use frames::{SessionFault, read_call};
use model::{Answer, Call, Refusal};
use session::{Planner, perform};
use store::{Editable, Map};
use workspace::Workspace;

// What a call was answered, as the reply to its line.
pub(crate) fn as_call(reply: Result<Answer, Refusal>) -> Result<Answer, SessionFault>
    ensures { result ≡ as_call reply }
{
    match reply {
        Ok(answer) => Ok(answer),
        Err(refusal) => Err(SessionFault::Call(refusal)),
    }
}

// Answers a line where the session can stay where it is: a planner makes the call that it asks for, and its
// fault is told. A call of memory that waits comes back, for the memory is to be handed over with it.
#[tactic(auto, using(crate::proofs::Turns::left_fault))]
pub(crate) fn answer<S: Editable>(
    session: &mut Result<Planner<S>, S::Memory>,
    workspace: &mut Workspace<'_>,
    line: &[u8],
) -> Result<Result<Answer, SessionFault>, Call>
    ensures law { (room : Room) (events : List Event)
        → Sound events (state_reached S.graph S.most session.old)
        → IfOk result (λ r. Sound (events ++ events_at (lent_at room workspace.old) (request line.now) (reply_in r (buffers workspace.new)))
        (state_reached S.graph S.most session.new)) }
    ensures held { (room : Room) (fresh : ℕ → List ℕ) (events : List Event)
        → Sound events (state_reached S.graph S.most session.old)
        → HoldsAfter S.held fresh S.with_edge_in S.without_edge_in session.old events
        → IfOk result (λ r. HoldsAfter S.held fresh S.with_edge_in S.without_edge_in session.new
        (events ++ events_at (lent_at room workspace.old) (request line.now) (reply_in r (buffers workspace.new)))) }
    ensures reply { IfOk result (λ r. IsReplyTo (request line.now) (reply_in r (buffers workspace.new))) }
    ensures exact { IfOk result (λ r. Exactly (reply_in r (buffers workspace.new))) }
    ensures left { (lent : Lent)
        → IfOk result (λ r. buffers workspace.new
        ≡ left_after (events_at lent (request line.now) (reply_in r (buffers workspace.new))) (buffers workspace.old)) }
    ensures call { IfErr result (λ c. request line.now ≡ Ok c) }
    ensures waits { OnErr result ((session.new ≡ session.old) × (workspace.new ≡ workspace.old)) }
    ensures untouched { Untouched workspace.old workspace.new }
    ensures back { IfErr session.new (λ m. session.old ≡ Err m) }
    ensures memory { SameMemory workspace.old workspace.new }
    ensures sizes { sizes_of workspace.new ≡ sizes_of workspace.old }
{
    match read_call(line) {
        Ok(call) => match session {
            Ok(planner) => Ok(as_call(perform(planner, call, workspace))),
            Err(_) => Err(call),
        },
        Err(fault) => Ok(Err(SessionFault::Frame(fault))),
    }
}
