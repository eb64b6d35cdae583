// A layer over any store that strikes edges out, and lifts them again, without taking them up.
#![tactic(auto)]

ghost use Rattle.std.specs.Prelude.{◌≡◌, false, [], is_ok};
ghost use Rattle.model.specs.Model.{made};
ghost use Rattle.model.specs.Table.{nothing, reply_on};
ghost use Rattle.model.specs.After.{after};
ghost use Rattle.model.specs.declared.call.Call.TheVariants.{Join, Part, Strike as StrikeCall, Lift};
ghost use Rattle.strike.specs.Struck.{without, without_simple};
ghost use Rattle.strike.specs.Kept.{noted, kept, held_under, memory_after, unstruck_reply};

mod marks;

use marks::Marks;
use model::{Refusal, Vertex};
use store::{Editable, Map, check_ends};

// A store below, and the edges of it that are struck.
#[derive(Drop)]
pub struct Strike<S> {
    store: S,
    marks: Marks,
}

// As a map, the layer is the graph below without the struck edges.
impl<S: Editable> Map for Strike<S> {
    ghost graph = { λ s. without (S.graph s.store) (noted s) };

    ghost simple = { λ s. without_simple (S.graph s.store) (noted s) (S.simple s.store) };

    // The number of vertices: striking takes none away.
    fn order(&mut self) -> u16 {
        self.store.order()
    }

    // Whether an edge that is not struck joins u and v.
    fn joined(&mut self, u: Vertex, v: Vertex) -> bool {
        !self.marks.has(u, v) && self.store.joined(u, v)
    }

    // The number of neighbours of u, by asking for each vertex. A `for` and no chain: a proof knows
    // nothing of the layer after a `count` whose closure has it for writing.
    fn degree(&mut self, u: Vertex) -> u16 {
        let n = self.store.order();
        let mut d = 0;
        for v in 0..n {
            if self.joined(u, v) {
                d += 1;
            }
        }
        d
    }

    // The lowest neighbour of u that is w or more: the store's, past those that are struck. The loop
    // leaps by the store's own answers.
    fn next(&mut self, u: Vertex, w: Vertex) -> Option<Vertex> {
        let mut from = w;
        while let Some(v) = self.store.next(u, from) {
            if !self.marks.has(u, v) {
                return Some(v);
            }
            from = v + 1;
        }
        None
    }

    // The lowest neighbour of u that is w or more and not in a set: the store's, past the struck ones.
    fn next_outside(&mut self, u: Vertex, w: Vertex, set: &rows::marks::Marks) -> Option<Vertex> {
        let mut low = w;
        while let Some(v) = self.store.next_outside(u, low, set) {
            if !self.marks.has(u, v) {
                return Some(v);
            }
            low = v + 1;
        }
        None
    }
}

impl<S> Strike<S> {
    // The layer over a store, with nothing struck.
    pub fn over(store: S) -> Strike<S>
        ensures store { result.store ≡ store }
        ensures none { noted result ≡ [] }
    {
        Strike {
            store,
            marks: Marks::none(),
        }
    }
}

// The calls of a session on a map that stands. Each is answered as the model says, and checks
// in the order of the table of refusals.
impl<S: Editable> Strike<S> {
    // How many edges the store below takes.
    pub fn capacity(&mut self) -> usize
        ensures value { result ≡ S.most self.old.store }
        ensures same { self.new ≡ self.old }
    {
        self.store.capacity()
    }

    // Refuses u and v unless they are two vertices and no edge between them is struck.
    fn check_unstruck(&mut self, u: Vertex, v: Vertex) -> Result<(), Refusal>
        ensures reply { result ≡ unstruck_reply (S.graph self.old.store).order (noted self.old) u v }
        ensures same { self.new ≡ self.old }
    {
        check_ends(self.store.order(), u, v)?;
        if self.marks.has(u, v) {
            return Err(Refusal::IsStruck);
        }
        Ok(())
    }

    // Lays the edge between u and v, unless it is struck or the store refuses.
    pub fn join(&mut self, u: Vertex, v: Vertex) -> Result<(), Refusal>
        ensures reply { result ≡ reply_on (kept S.graph S.most self.old) (Join u v) }
        ensures after { made (kept S.graph S.most self.new) ≡ after nothing (made (kept S.graph S.most self.old)) (Join u v) }
        ensures held { held_under S.held self.new
            ≡ memory_after S.with_edge_in S.without_edge_in (kept S.graph S.most self.old) (Join u v) (held_under S.held self.old) }
        ensures unchanged { is_ok result ≡ false → self.new ≡ self.old }
    {
        self.check_unstruck(u, v)?;
        self.store.join(u, v)
    }

    // Takes the edge between u and v up, unless it is struck or the store refuses.
    pub fn part(&mut self, u: Vertex, v: Vertex) -> Result<(), Refusal>
        ensures reply { result ≡ reply_on (kept S.graph S.most self.old) (Part u v) }
        ensures after { made (kept S.graph S.most self.new) ≡ after nothing (made (kept S.graph S.most self.old)) (Part u v) }
        ensures held { held_under S.held self.new
            ≡ memory_after S.with_edge_in S.without_edge_in (kept S.graph S.most self.old) (Part u v) (held_under S.held self.old) }
        ensures unchanged { is_ok result ≡ false → self.new ≡ self.old }
    {
        self.check_unstruck(u, v)?;
        self.store.part(u, v)
    }

    // Strikes the edge between u and v out, while fewer than 16 are struck. The store keeps it.
    pub fn strike(&mut self, u: Vertex, v: Vertex) -> Result<(), Refusal>
        ensures reply { result ≡ reply_on (kept S.graph S.most self.old) (StrikeCall u v) }
        ensures after { made (kept S.graph S.most self.new) ≡ after nothing (made (kept S.graph S.most self.old)) (StrikeCall u v) }
        ensures held { held_under S.held self.new
            ≡ memory_after S.with_edge_in S.without_edge_in (kept S.graph S.most self.old) (StrikeCall u v) (held_under S.held self.old) }
        ensures unchanged { is_ok result ≡ false → self.new ≡ self.old }
    {
        self.check_unstruck(u, v)?;
        if !self.store.joined(u, v) {
            return Err(Refusal::NotJoined);
        }
        if self.marks.full() {
            return Err(Refusal::NoRoom);
        }
        self.marks.note(u, v);
        Ok(())
    }

    // Lifts the strike of the edge between u and v.
    pub fn lift(&mut self, u: Vertex, v: Vertex) -> Result<(), Refusal>
        ensures reply { result ≡ reply_on (kept S.graph S.most self.old) (Lift u v) }
        ensures after { made (kept S.graph S.most self.new) ≡ after nothing (made (kept S.graph S.most self.old)) (Lift u v) }
        ensures held { held_under S.held self.new
            ≡ memory_after S.with_edge_in S.without_edge_in (kept S.graph S.most self.old) (Lift u v) (held_under S.held self.old) }
        ensures unchanged { is_ok result ≡ false → self.new ≡ self.old }
    {
        check_ends(self.store.order(), u, v)?;
        if !self.marks.has(u, v) {
            return Err(Refusal::NotStruck);
        }
        self.marks.clear(u, v);
        Ok(())
    }
}
