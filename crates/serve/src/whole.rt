// The whole session: a reply to each line, and what the session has come to.
ghost use Rattle.std.specs.Prelude.{◌≡◌, ◌+◌, ◌<◌, ◌≤◌, length, Err, IfOk, IfErr, IsOk, vec_len, vec_capacity};
ghost use Rattle.workspace.specs.Parts.{buffers, sizes_of, SameMemory, Untouched};
ghost use Rattle.session.specs.Kept.{state_reached};
ghost use Rattle.session.specs.Held.{HoldsAfter};
ghost use Rattle.session.specs.Calls.{lent_at};
ghost use Rattle.serve.specs.Served.{input_limit, SessionText, BrokenOff, Served, Broken, text_limit};

use crate::line::{answer, as_call};
use crate::lines::Lines;
use frames::{SessionFault, write_reply};
use model::Refusal;
use session::{Planner, respond};
use std::alloc::AllocError;
use store::{Editable, Map};
use workspace::Workspace;

// The most bytes of input that are read as lines.
const INPUT_LIMIT: usize = 32768;

// Answers an input line by line. A planner stays where it is, and so does the session at a fault; before the
// make the memory is handed over with each call.
fn answer_all<S: Editable>(
    memory: S::Memory,
    workspace: &mut Workspace<'_>,
    input: &[u8],
    out: &mut Vec<u8>,
) -> (Result<Planner<S>, S::Memory>, Result<(), AllocError>)
    ensures answered { IfOk result.1 (λ _. SessionText (lent_at (S.room_in memory) workspace.old) input.now
        (HoldsAfter S.held (S.fresh memory) S.with_edge_in S.without_edge_in result.0)
        (state_reached S.graph S.most result.0) (buffers workspace.old) (buffers workspace.new) out.old.items out.new.items) }
    ensures broken { IfErr result.1 (λ _. BrokenOff (lent_at (S.room_in memory) workspace.old) input.now
        (HoldsAfter S.held (S.fresh memory) S.with_edge_in S.without_edge_in result.0)
        (state_reached S.graph S.most result.0) (buffers workspace.old) (buffers workspace.new) out.old.items out.new.items) }
    ensures back { IfErr result.0 (λ m. m ≡ memory) }
    ensures untouched { Untouched workspace.old workspace.new }
    ensures memory { SameMemory workspace.old workspace.new }
    ensures sizes { sizes_of workspace.new ≡ sizes_of workspace.old }
    ensures succeeds { vec_len out.old + text_limit input.now ≤ vec_capacity out.old → IsOk result.1 }
{
    let mut session = Err(memory);
    for line in Lines::of(input) {
        let reply = match answer::<S>(&mut session, workspace, line.text) {
            Ok(reply) => reply,
            Err(call) => {
                let (next, reply) = respond::<S>(session, call, workspace);
                session = next;
                as_call(reply)
            }
        };
        if let Err(failed) = write_reply(out, line.number, reply) {
            return (session, Err(failed));
        }
    }
    (session, Ok(()))
}

// Serves a whole input over memory for a store: writes the text of the replies behind what `out` holds,
// and gives the session that the calls have come to, the planner or the memory as it was lent. An error is
// want of memory for the text.
pub fn serve<S: Editable>(
    memory: S::Memory,
    workspace: &mut Workspace<'_>,
    input: &[u8],
    out: &mut Vec<u8>,
) -> (Result<Planner<S>, S::Memory>, Result<(), AllocError>)
    ensures served { IfOk result.1 (λ _. Served (lent_at (S.room_in memory) workspace.old) input.now
        (HoldsAfter S.held (S.fresh memory) S.with_edge_in S.without_edge_in result.0)
        (state_reached S.graph S.most result.0) (buffers workspace.old) (buffers workspace.new) out.old.items out.new.items) }
    // Without memory for all of the text, the session is that of the lines up to there, and a front part of the
    // text stands behind what was written.
    ensures broken { IfErr result.1 (λ _. Broken (lent_at (S.room_in memory) workspace.old) input.now
        (HoldsAfter S.held (S.fresh memory) S.with_edge_in S.without_edge_in result.0)
        (state_reached S.graph S.most result.0) (buffers workspace.old) (buffers workspace.new) out.old.items out.new.items) }
    ensures long { input_limit < length input.now → result.0 ≡ Err memory }
    ensures back { IfErr result.0 (λ m. m ≡ memory) }
    // No call of today is a question, so nothing at all is written into the workspace.
    ensures untouched { Untouched workspace.old workspace.new }
    ensures memory { SameMemory workspace.old workspace.new }
    ensures sizes { sizes_of workspace.new ≡ sizes_of workspace.old }
    ensures succeeds { vec_len out.old + text_limit input.now ≤ vec_capacity out.old → IsOk result.1 }
{
    if input.len() > INPUT_LIMIT {
        let refusal = SessionFault::Call(Refusal::ShortMemory);
        let written = write_reply(out, 0, Err(refusal));
        return (Err(memory), written);
    }
    answer_all::<S>(memory, workspace, input, out)
}
