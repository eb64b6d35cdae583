// What a session keeps.
ghost use Rattle.std.specs.Prelude.{◌≡◌};

use plan::{Line, Split};
use strike::Strike;

// The map of a session, one pile for its whole life: a store, over it the edges that are struck,
// over these the map as a plan of edges, and over that one as a plan of vertices. Edits go down
// through it and both plans read it, so nothing is copied or built anew.
#[derive(Drop)]
pub struct Planner<S> {
    pub(crate) pile: Split<Line<Strike<S>>>,
    // Between two calls the two ends of the plan of vertices are 0.
    ghost at_rest: { (pile.a ≡ 0) × (pile.b ≡ 0) },
}
