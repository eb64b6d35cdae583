// A planner keeps the map of a session in any store, and keeps to the reference model: every
// call is answered as the model says, and the graph in force is the model's.
#![tactic(auto)]

ghost use Rattle.std.specs.Prelude.{◌≡◌, Err, IfOk, IfErr};
ghost use Rattle.model.specs.Model.{unmade, blank};
ghost use Rattle.model.specs.Table.{alone, reply};
ghost use Rattle.model.specs.declared.call.Call.TheVariants.{Make};
ghost use Rattle.strike.specs.Kept.{noted};
ghost use Rattle.strike.specs.Struck.{without_simple};
ghost use Rattle.session.specs.Kept.{model_of, graph_of, held_of};
ghost use Rattle.session.specs.Calls.{AcceptedMake, Opened};

mod calls;
mod pairs;
mod planner;
mod refused;
mod script;

pub use calls::perform;
use model::Vertex;
use plan::{Line, Split};
pub use planner::Planner;
pub use refused::Refused;
use rows::marks::Marks;
pub use script::{Asked, play, respond};
use store::{Editable, Map};
use strike::Strike;

// As a map, a planner is the graph in force. The questions are passed on one by one: no form of
// the language passes a trait on to a field.
impl<S: Editable> Map for Planner<S> {
    ghost graph = { graph_of S.graph S.most };

    ghost simple = { λ p. without_simple (S.graph p.pile.map.map.store) (noted p.pile.map.map) (S.simple p.pile.map.map.store) };

    fn order(&mut self) -> u16 {
        self.pile.map.order()
    }

    fn joined(&mut self, u: Vertex, v: Vertex) -> bool {
        self.pile.map.joined(u, v)
    }

    fn degree(&mut self, u: Vertex) -> u16 {
        self.pile.map.degree(u)
    }

    fn next(&mut self, u: Vertex, w: Vertex) -> Option<Vertex> {
        self.pile.map.next(u, w)
    }

    fn next_outside(&mut self, u: Vertex, w: Vertex, set: &Marks) -> Option<Vertex> {
        self.pile.map.next_outside(u, w, set)
    }
}

impl<S: Editable> Planner<S> {
    // A planner of a map of n vertices, 1 to 200, with no edge laid and none struck; it takes as many edges
    // as the memory has room for. It requires that the table accepts the make: `S::room` says whether it
    // does, and who has not asked calls `open`.
    pub fn make(n: u16, memory: S::Memory) -> Planner<S>
        requires { reply (alone (S.room_in memory)) unmade (Make n) ≡ Ok tt }
        ensures model { model_of S.graph S.most result ≡ blank n ((S.room_in memory).capacity n) }
        ensures held { held_of S.held result ≡ S.fresh memory n }
    {
        Planner {
            pile: Split::over(Line::over(Strike::over(S::make(n, memory)))),
        }
    }

    // The planner of an accepted make, or why it is refused. A refused make only looks at the memory, which
    // `room` takes by `&`.
    fn make_if_room(n: u16, memory: S::Memory) -> Result<Planner<S>, Refused<S::Memory>>
        ensures accepted { IfOk result (λ p. AcceptedMake (S.room_in memory) n (model_of S.graph S.most p)) }
        ensures held { IfOk result (λ p. held_of S.held p ≡ S.fresh memory n) }
        ensures refused { IfErr result (λ e. reply (alone (S.room_in memory)) unmade (Make n) ≡ Err e.refusal) }
        ensures back { IfErr result (λ e. e.memory ≡ memory) }
    {
        match S::room(n, &memory) {
            Ok(()) => Ok(Planner::make(n, memory)),
            Err(refusal) => Err(Refused { refusal, memory }),
        }
    }

    // A planner of a map of n vertices with no edge, with which a session begins, or why there is none,
    // with the memory as it was lent.
    pub fn open(n: u16, memory: S::Memory) -> Result<Planner<S>, Refused<S::Memory>>
        ensures opened { IfOk result (λ p. Opened (S.room_in memory) n (model_of S.graph S.most p)) }
        ensures held { IfOk result (λ p. held_of S.held p ≡ S.fresh memory n) }
        ensures refused { IfErr result (λ e. reply (alone (S.room_in memory)) unmade (Make n) ≡ Err e.refusal) }
        ensures back { IfErr result (λ e. e.memory ≡ memory) }
    {
        Planner::make_if_room(n, memory)
    }
}
