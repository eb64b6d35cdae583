// The queue of the nodes that wait to be looked at. A node joins it once, as it is marked.
ghost use Rattle.std.specs.Prelude.{◌≡◌, ◌<◌, ◌||◌, [], ◌∷◌, ◌++◌, map, length, ◌==◌};
ghost use Rattle.rows.specs.Layout.{set_limit};
ghost use Rattle.rows.specs.Marks.{marked};

use crate::waiting::Waiting;
use ring::Ring;
use rows::marks::Marks;

// Puts an item at the end of a queue that has room for it.
fn put_last<E: Waiting>(queue: &mut Ring<E>, item: E)
    requires { length queue.old.items < queue.old.room }
    ensures items { queue.new.items ≡ queue.old.items ++ (item ∷ []) }
    ensures room { queue.new.room ≡ queue.old.room }
{
    let _ = queue.push(item);
}

// Marks node q, which was found from p, and lets it wait.
pub(crate) fn enter<E: Waiting>(
    marks: &mut Marks,
    queue: &mut Ring<E>,
    q: u16,
    p: u16,
    forwards: bool,
)
    requires { (q < set_limit) × (length queue.old.items < queue.old.room) }
    ensures marks { marked marks.new ≡ (λ k. marked marks.old k || k == q) }
    ensures nodes { map E.node queue.new.items ≡ map E.node queue.old.items ++ (q ∷ []) }
    ensures room { queue.new.room ≡ queue.old.room }
{
    marks.mark(q);
    put_last(queue, E::made(q, p, forwards));
}
