// Routes written one after another, each taken out of the flow as it is written.
ghost use Rattle.std.specs.Prelude.{◌≡◌, ◌-◌, ◌+◌, ◌<◌, ◌≤◌, true, length};
ghost use Rattle.graph.specs.Graph.{first};
ghost use Rattle.rows.specs.Flow.{carried};
ghost use Rattle.augment.specs.Trails.{way, LeadsBack};
ghost use Rattle.plan.specs.Writing.{placed};
ghost use Rattle.routes.specs.Routes.{Sends, vertices, noted_bytes, RouteRoom, RoutesRoom, Taken, Told};

use crate::seek::note_route;
use crate::way::{put, take_way, write_way};
use crate::web::Web;
use augment::Notes;
use rows::flow::Arcs;
use search::Slots;

// How many vertices stand behind the place of their number and before the next place.
fn count_behind(at: usize, next: usize) -> u8
    requires { (at < next) × (next ≤ at + 256) }
    ensures { at + 1 + result ≡ next }
{
    (next - at - 1) as u8
}

// Writes the number and then the vertices of the noted route, and says which place comes next. The number
// is written last, so nothing is counted before.
fn write_route(web: Web, notes: &Notes<'_>, bytes: &mut [u8], at: usize) -> usize
    requires way { LeadsBack notes.now.before.now web.to web.from (way notes.now.before.now web.to web.from) }
    requires few { length (vertices web.order (way notes.now.before.now web.to web.from)) < 256 }
    requires room { at + length (noted_bytes web.order web.from web.to notes.now.before.now) ≤ length bytes.old }
    ensures next { result ≡ at + length (noted_bytes web.order web.from web.to notes.now.before.now) }
    ensures items { bytes.new ≡ placed at (noted_bytes web.order web.from web.to notes.now.before.now) bytes.old }
{
    let next = write_way(web, notes, bytes, at + 1);
    put(bytes, at, count_behind(at, next));
    next
}

// Seeks a route over a second node along the flow, writes it from a place on and takes it out; says which
// place comes next.
fn draw(
    web: Web,
    flow: &mut Arcs<'_>,
    notes: &mut Notes<'_>,
    slots: &mut Slots<'_, u16>,
    second: u16,
    bytes: &mut [u8],
    at: usize,
) -> usize
    requires flow { Sends web.nodes (carried flow.old) web.from web.to }
    requires arc { carried flow.old web.from second ≡ true }
    requires room { RouteRoom web.order (carried flow.old) web.from web.to second at (length bytes.old) }
    ensures taken { Taken web.order (carried flow.old) (carried flow.new) web.from web.to second at bytes.old result bytes.new }
    ensures same_reference { flow.new.words.ghost_name ≡ flow.old.words.ghost_name }
    ensures same_notes { notes.new.before.ghost_name ≡ notes.old.before.ghost_name }
{
    note_route(web, flow, notes, slots, second);
    let next = write_route(web, notes, bytes, at);
    take_way(web, flow, notes);
    next
}

// The lowest node from w up and below n to which the flow goes from p. The flow lies by head, so each
// head is asked.
fn next_head(flow: &Arcs<'_>, p: u16, w: u16, n: u16) -> Option<u16>
    ensures { result ≡ first (λ q. carried flow.now p q) w (n - w) }
{
    for q in w..n {
        if flow.carries(p, q) {
            return Some(q);
        }
    }
    None
}

// Takes all routes out of the flow, by their second nodes ascending, and writes of each the number of its
// vertices and these, from the first byte on. Bytes past them keep their content. The loop leaps from one second node to the next.
pub fn write_routes(
    web: Web,
    flow: &mut Arcs<'_>,
    notes: &mut Notes<'_>,
    slots: &mut Slots<'_, u16>,
    bytes: &mut [u8],
)
    requires flow { Sends web.nodes (carried flow.old) web.from web.to }
    requires room { RoutesRoom web.order (carried flow.old) web.from web.to (length bytes.old) }
    ensures told { Told web.nodes web.order (carried flow.old) web.from web.to bytes.old bytes.new }
    ensures same_reference { flow.new.words.ghost_name ≡ flow.old.words.ghost_name }
    ensures same_notes { notes.new.before.ghost_name ≡ notes.old.before.ghost_name }
{
    let mut at = 0;
    let mut w = 0;
    while let Some(second) = next_head(flow, web.from, w, web.nodes) {
        at = draw(web, flow, notes, slots, second, bytes, at);
        w = second + 1;
    }
}
