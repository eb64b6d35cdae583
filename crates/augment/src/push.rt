// One unit more of a flow, pushed along a noted route.
ghost use Rattle.std.specs.Prelude.{◌≡◌, ◌<◌, All};
ghost use Rattle.graph.specs.Graph.{node_limit};
ghost use Rattle.flows.specs.Flow.{stepped, pushed};
ghost use Rattle.rows.specs.Flow.{carried};
ghost use Rattle.augment.specs.Trails.{way, pushed_back, PushedBack};

use crate::notes::{MOST_NODES, Notes};
use rows::flow::Arcs;

// One step from p to q: an arc back is taken out, else the arc is put in.
fn step(flow: &mut Arcs<'_>, p: u16, q: u16)
    requires { (p < flow.old.heads) × (q < flow.old.heads) }
    ensures arcs { carried flow.new ≡ stepped (carried flow.old) p q }
    ensures heads { flow.new.heads ≡ flow.old.heads }
    ensures same_reference { flow.new.words.ghost_name ≡ flow.old.words.ghost_name }
{
    if flow.carries(q, p) {
        flow.take(q, p);
    } else {
        flow.put(p, q);
    }
}

// Pushes one unit along the route that is noted from `from` to `to`, read back from its end: the last
// step first.
pub fn augment(flow: &mut Arcs<'_>, notes: &Notes<'_>, from: u16, to: u16)
    requires { All (λ x. x < flow.old.heads) (way notes.now.before.now from to) }
    ensures arcs { carried flow.new ≡ pushed_back (carried flow.old) (way notes.now.before.now from to) }
    ensures heads { flow.new.heads ≡ flow.old.heads }
    ensures same_reference { flow.new.words.ghost_name ≡ flow.old.words.ghost_name }
{
    let mut q = to;
    for _ in 0..MOST_NODES - 1 {
        if q == from {
            break;
        }
        let p = notes.noted(q);
        step(flow, p, q);
        q = p;
    }
}

// A push back from the end of a trail is the push along it.
pub fn pushed_back()
    ensures { PushedBack }
{}
