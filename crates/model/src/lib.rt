// The calls of a session, what they answer, why they are refused, and, in specs/, the
// reference model that says which of these is right. Nothing here holds a map.
#![tactic(auto)]

ghost use Rattle.model.specs.Meaning.{FirstFits, OrderAscends, SmallestFirst, ExactlyWhen};

mod call;
mod refusal;
mod sizes;

pub use call::{Answer, Call, Vertex, is_bad_order};
pub use refusal::Refusal;
pub use sizes::Sizes;

// A call is refused for the first row that fits in the checking order.
pub fn first_fits()
    ensures { FirstFits }
{}

// Today the checking order ascends by number.
pub fn order_ascends()
    ensures { OrderAscends }
{}

// A call is refused with the smallest number that fits, and accepted only where none fits.
pub fn smallest_first()
    ensures { SmallestFirst }
{}

// When exactly a store accepts a join, and a part.
pub fn accepted_exactly_when()
    ensures { ExactlyWhen }
{}
