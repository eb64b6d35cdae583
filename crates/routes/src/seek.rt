// A route over a second node, sought along the flow from its end back.
ghost use Rattle.std.specs.Prelude.{◌≡◌, true};
ghost use Rattle.rows.specs.Flow.{carried};
ghost use Rattle.routes.specs.Routes.{Sends, Led, RouteNoted};

use crate::bare::Bare;
use crate::web::Web;
use augment::Notes;
use rows::flow::Arcs;
use rows::marks::Marks;
use search::{Slots, far_from, search};

// Notes a way along the flow from a second node on: there is one, since what the flow brings to a node
// goes on. Where the second node is the end, nothing has to be noted. Without arcs every node is far from
// the goal of the search.
fn seek_way(
    web: Web,
    flow: &Arcs<'_>,
    notes: &mut Notes<'_>,
    slots: &mut Slots<'_, u16>,
    second: u16,
)
    requires flow { Sends web.nodes (carried flow.now) web.from web.to }
    requires arc { carried flow.now web.from second ≡ true }
    ensures way { Led (carried flow.now) web.from web.to second notes.new.before.now }
    ensures same_reference { notes.new.before.ghost_name ≡ notes.old.before.ghost_name }
{
    if second != web.to {
        let mut plan = Bare::of(web.nodes);
        let far = far_from(&mut plan, second);
        let mut marks = Marks::none();
        search(
            &mut plan,
            flow,
            &mut marks,
            notes,
            slots,
            web.to,
            Some(second),
            &far,
        );
    }
}

// Notes a route along the flow over a second node.
pub(crate) fn note_route(
    web: Web,
    flow: &Arcs<'_>,
    notes: &mut Notes<'_>,
    slots: &mut Slots<'_, u16>,
    second: u16,
)
    requires flow { Sends web.nodes (carried flow.now) web.from web.to }
    requires arc { carried flow.now web.from second ≡ true }
    ensures route { RouteNoted (carried flow.now) web.from web.to second notes.new.before.now }
    ensures same_reference { notes.new.before.ghost_name ≡ notes.old.before.ghost_name }
{
    seek_way(web, flow, notes, slots, second);
    notes.note(web.from, second);
}
