// What a store of a map promises: `Map` answers questions, `Editable` takes edges in and out.
// Every value of such a type means a simple graph, and all contracts are about that graph.
#![tactic(auto)]

ghost use Rattle.std.specs.Prelude.{◌≡◌, ℕ, ◌≤◌, false, List, is_ok, Ok, IsOk, ◌↔◌};
ghost use Rattle.graph.specs.Graph.{Graph, Simple, degree, next, empty};
ghost use Rattle.model.specs.Model.{Room, unmade, bare, make_limit};
ghost use Rattle.model.specs.Meaning.{JoinAccepted, PartAccepted};
ghost use Rattle.model.specs.Table.{alone, reply, reply_on};
ghost use Rattle.model.specs.declared.call.Call.TheVariants.{Make, Join, Part};
ghost use Rattle.store.specs.Change.{after_join, after_part, held_after};
ghost use Rattle.store.specs.Ends.{ends_reply};
ghost use Rattle.store.specs.Outside.{next_outside};
ghost use Rattle.rows.specs.Marks.{marked};

use model::{Refusal, Vertex};
use rows::marks::{Marks, SET_LIMIT};

// Refuses u and v unless they are two vertices of a map of n vertices. Every edit asks this
// first.
pub fn check_ends(n: u16, u: Vertex, v: Vertex) -> Result<(), Refusal>
    ensures { result ≡ ends_reply n u v }
{
    if u >= n || v >= n {
        return Err(Refusal::NoVertex);
    }
    if u == v {
        return Err(Refusal::SameVertex);
    }
    Ok(())
}

// A store of a map. A question is answered from the meaning alone and changes nothing; of a
// number that is no vertex the answers are no, 0 and none. Questions take the store for
// writing, so that a store may lend parts of its memory on.
pub trait Map {
    // The graph that a store means.
    ghost graph: { Self → Graph };

    ghost simple: { (m : Self) → Simple (graph m) };

    // The number of vertices.
    fn order(&mut self) -> u16
        ensures value { result ≡ (graph self.old).order }
        ensures same { self.new ≡ self.old };

    // Whether an edge joins u and v. Two arguments and no pair, as graph libraries ask it.
    fn joined(&mut self, u: Vertex, v: Vertex) -> bool
        ensures value { result ≡ (graph self.old).joined u v }
        ensures same { self.new ≡ self.old };

    // The number of neighbours of u.
    fn degree(&mut self, u: Vertex) -> u16
        ensures value { result ≡ degree (graph self.old) u }
        ensures same { self.new ≡ self.old };

    // The lowest neighbour of u that is w or more.
    fn next(&mut self, u: Vertex, w: Vertex) -> Option<Vertex>
        ensures value { result ≡ next (graph self.old) u w }
        ensures same { self.new ≡ self.old };

    // The lowest neighbour of u that is w or more and is not in a set. A store need not write it: this
    // asks `next`, and leaps over what is in the set. One that has its neighbours as a set in words
    // answers by words.
    fn next_outside(&mut self, u: Vertex, w: Vertex, set: &Marks) -> Option<Vertex>
        ensures value { result ≡ next_outside (graph self.old) (marked set.now) u w }
        ensures same { self.new ≡ self.old }
    {
        let mut from = w;
        while let Some(v) = self.next(u, from) {
            if !set.has(v) {
                return Some(v);
            }
            from = set.next_unmarked(v + 1, SET_LIMIT)?;
        }
        None
    }
}

// A store whose map can be edited, with a fixed capacity in edges. A refused edit leaves the
// whole value as it was, its memory included; what an accepted one leaves in the memory is a
// function of the graph, of what the memory held and of the two vertices.
pub trait Editable: Map + Sized + Drop {
    // What a store is made over.
    type Memory: Drop;

    // How many edges the store takes.
    ghost most: { Self → ℕ };

    // What such memory is good for.
    ghost room_in: { Self.Memory → Room };

    // All that the memory under a store holds, word by word or cell by cell.
    ghost held: { Self → List ℕ };

    // What memory holds after a make of n vertices over it.
    ghost fresh: { Self.Memory → ℕ → List ℕ };

    // What memory that held such numbers under a graph holds with an edge laid, and with one taken
    // up.
    ghost with_edge_in: { Graph → List ℕ → ℕ → ℕ → List ℕ };

    ghost without_edge_in: { Graph → List ℕ → ℕ → ℕ → List ℕ };

    // When such numbers mean a graph.
    ghost Means: { Graph → List ℕ → Type 0 };

    // Whether a map of n vertices can be made over the memory, by the table of refusals.
    fn room(n: u16, memory: &Self::Memory) -> Result<(), Refusal>
        ensures { result ≡ reply (alone (room_in memory.now)) unmade (Make n) };

    // A map of n vertices and no edge; `room` says when that goes.
    fn make(n: u16, memory: Self::Memory) -> Self
        requires { reply (alone (room_in memory)) unmade (Make n) ≡ Ok tt }
        ensures graph { Self.graph result ≡ empty n }
        ensures most { most result ≡ (room_in memory).capacity n }
        ensures held { held result ≡ fresh memory n };

    // How many edges the store takes.
    fn capacity(&mut self) -> usize
        ensures value { result ≡ most self.old }
        ensures same { self.new ≡ self.old };

    // Lays the edge between u and v.
    fn join(&mut self, u: Vertex, v: Vertex) -> Result<(), Refusal>
        ensures reply { result ≡ reply_on (bare (Self.graph self.old) (most self.old)) (Join u v) }
        ensures accepted { IsOk result ↔ JoinAccepted (Self.graph self.old) (most self.old) u v }
        ensures after { Self.graph self.new ≡ after_join result (Self.graph self.old) u v }
        ensures held { held self.new ≡ held_after result (with_edge_in (Self.graph self.old) (held self.old) u v) (held self.old) }
        ensures most { most self.new ≡ most self.old }
        ensures unchanged { is_ok result ≡ false → self.new ≡ self.old };

    // Takes the edge between u and v up, and frees its place.
    fn part(&mut self, u: Vertex, v: Vertex) -> Result<(), Refusal>
        ensures reply { result ≡ reply_on (bare (Self.graph self.old) (most self.old)) (Part u v) }
        ensures accepted { IsOk result ↔ PartAccepted (Self.graph self.old) u v }
        ensures after { Self.graph self.new ≡ after_part result (Self.graph self.old) u v }
        ensures held { held self.new ≡ held_after result (without_edge_in (Self.graph self.old) (held self.old) u v) (held self.old) }
        ensures most { most self.new ≡ most self.old }
        ensures unchanged { is_ok result ≡ false → self.new ≡ self.old };

    // A store has no more vertices than a make accepts.
    ghost few: { (s : Self) → (Self.graph s).order ≤ make_limit };

    // What its memory holds means its graph, at every moment.
    ghost meant: { (s : Self) → Means (Self.graph s) (held s) };
}
