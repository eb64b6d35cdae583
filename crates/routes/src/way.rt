// The way that is noted from end to end: its arcs taken out of the flow, and its vertices written. A note
// says which node comes next, so nothing is copied or turned round. The loops go as far as the notes lead,
// which a `for` could not say.
ghost use Rattle.std.specs.Prelude.{[], ◌∷◌, ◌≡◌, ◌+◌, ◌<◌, ◌≤◌, length, slice_index};
ghost use Rattle.flows.specs.Flow.{without};
ghost use Rattle.flows.specs.Routes.{Route};
ghost use Rattle.rows.specs.Flow.{carried, without_arc};
ghost use Rattle.rows.specs.Layout.{set_limit};
ghost use Rattle.augment.specs.Trails.{way, LeadsBack};
ghost use Rattle.plan.specs.Writing.{placed};
ghost use Rattle.routes.specs.Routes.{vertices};

use crate::web::Web;
use augment::Notes;
use rows::flow::Arcs;

// Takes the arc from p to the node noted at it out of the flow, and gives that node.
fn take_noted(flow: &mut Arcs<'_>, notes: &Notes<'_>, p: u16) -> u16
    requires { (p < set_limit) × (slice_index notes.now.before.now p < flow.old.heads) }
    ensures node { result ≡ slice_index notes.now.before.now p }
    ensures arcs { carried flow.new ≡ without_arc (carried flow.old) p (slice_index notes.now.before.now p) }
    ensures same_reference { flow.new.words.ghost_name ≡ flow.old.words.ghost_name }
{
    let q = notes.noted(p);
    flow.take(p, q);
    q
}

// Takes the arcs of the way out of the flow.
pub(crate) fn take_way(web: Web, flow: &mut Arcs<'_>, notes: &Notes<'_>)
    requires way { LeadsBack notes.now.before.now web.to web.from (way notes.now.before.now web.to web.from) }
    requires route { Route (carried flow.old) web.from web.to (way notes.now.before.now web.to web.from) }
    ensures arcs { carried flow.new ≡ without (carried flow.old) (way notes.now.before.now web.to web.from) }
    ensures same_reference { flow.new.words.ghost_name ≡ flow.old.words.ghost_name }
{
    let mut tail = web.from;
    while tail != web.to {
        tail = take_noted(flow, notes, tail);
    }
}

// Writes a byte at its place.
#[tactic(auto, using(plan::proofs::Placing::placed_one))]
pub(crate) fn put(bytes: &mut [u8], at: usize, byte: u8)
    requires { at < length bytes.old }
    ensures { bytes.new ≡ placed at (byte ∷ []) bytes.old }
{
    bytes[at] = byte;
}

// Writes a node at its place if it is a vertex, and says which place comes next.
#[tactic(auto, using(plan::proofs::Placing::placed_none, crate::proofs::Vertices::one_yes, crate::proofs::Vertices::one_no))]
fn write_vertex(p: u16, order: u16, bytes: &mut [u8], at: usize) -> usize
    requires small { order ≤ 256 }
    requires room { at + length (vertices order (p ∷ [])) ≤ length bytes.old }
    ensures next { result ≡ at + length (vertices order (p ∷ [])) }
    ensures items { bytes.new ≡ placed at (vertices order (p ∷ [])) bytes.old }
{
    if p < order {
        put(bytes, at, p as u8);
        at + 1
    } else {
        at
    }
}

// Writes the vertices of the way from a place on, and says which place comes next.
pub(crate) fn write_way(web: Web, notes: &Notes<'_>, bytes: &mut [u8], at: usize) -> usize
    requires way { LeadsBack notes.now.before.now web.to web.from (way notes.now.before.now web.to web.from) }
    requires room { at + length (vertices web.order (way notes.now.before.now web.to web.from)) ≤ length bytes.old }
    ensures next { result ≡ at + length (vertices web.order (way notes.now.before.now web.to web.from)) }
    ensures items { bytes.new ≡ placed at (vertices web.order (way notes.now.before.now web.to web.from)) bytes.old }
{
    let mut p = web.from;
    let mut end = at;
    while p != web.to {
        end = write_vertex(p, web.order, bytes, end);
        p = notes.noted(p);
    }
    write_vertex(p, web.order, bytes, end)
}
