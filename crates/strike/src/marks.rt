// The struck edges: up to 16 pairs of vertices, no edge twice.
ghost use Rattle.std.specs.Prelude.{◌≡◌, ◌<◌, true, false, length, ◌≢◌, [], nat_le, position};
ghost use Rattle.graph.specs.Graph.{order_limit, edges_below, same_edge, added, removed};
ghost use Rattle.model.specs.Model.{strike_limit};
ghost use Rattle.strike.specs.Struck.{listed};

use arrayvec::ArrayVec;
use model::Vertex;

// How many edges may be struck at a time.
const LIMIT: usize = 16;

// Whether a pair is the edge between u and v, in either order.
fn is_edge(pair: (Vertex, Vertex), u: Vertex, v: Vertex) -> bool
    ensures { result ≡ same_edge pair.0 pair.1 u v }
{
    pair == (u, v) || pair == (v, u)
}

// Whether one of the pairs is the edge between u and v.
fn is_listed(pairs: &[(Vertex, Vertex)], u: Vertex, v: Vertex) -> bool
    ensures { result ≡ listed pairs.now u v }
{
    pairs.iter().any(|p| is_edge(*p, u, v))
}

// The place of the first pair that is the edge between u and v, if one is.
fn find_pair(pairs: &[(Vertex, Vertex)], u: Vertex, v: Vertex) -> Option<usize>
    ensures { result ≡ position (λ p. same_edge p.0 p.1 u v) pairs.now }
{
    pairs.iter().position(|p| is_edge(*p, u, v))
}

// Struck edges; `counted` says that they are as many different edges as pairs, which is why a
// cleared edge is gone with its one pair.
#[derive(Drop)]
pub struct Marks {
    pairs: ArrayVec<(Vertex, Vertex), LIMIT>,
    ghost counted: { edges_below order_limit (listed pairs.items) ≡ length pairs.items },
}

impl Marks {
    // No edge noted. No derived `Default`, whose contract would not say so.
    pub(crate) fn none() -> Marks
        ensures { result.pairs.items ≡ [] }
    {
        Marks {
            pairs: ArrayVec::new(),
        }
    }

    // Whether the edge between u and v is noted.
    pub(crate) fn has(&self, u: Vertex, v: Vertex) -> bool
        ensures { result ≡ listed self.now.pairs.items u v }
    {
        is_listed(self.pairs.as_slice(), u, v)
    }

    // Whether as many edges are noted as may be.
    pub(crate) fn full(&self) -> bool
        ensures value { result ≡ nat_le strike_limit (edges_below order_limit (listed self.now.pairs.items)) }
        ensures room { result ≡ false → length self.now.pairs.items < strike_limit }
    {
        self.pairs.is_full()
    }

    // Notes the edge between u and v, which is not noted yet and for which there is room.
    pub(crate) fn note(&mut self, u: Vertex, v: Vertex)
        requires ends { (u < order_limit) × ((v < order_limit) × ((u ≢ v))) }
        requires room { length self.old.pairs.items < strike_limit }
        requires fresh { listed self.old.pairs.items u v ≡ false }
        ensures { listed self.new.pairs.items ≡ added (listed self.old.pairs.items) u v }
    {
        self.pairs.push((u, v));
    }

    // Clears the edge between u and v, which is noted: the last pair takes its place.
    pub(crate) fn clear(&mut self, u: Vertex, v: Vertex)
        requires ends { (u < order_limit) × ((v < order_limit) × ((u ≢ v))) }
        requires there { listed self.old.pairs.items u v ≡ true }
        ensures { listed self.new.pairs.items ≡ removed (listed self.old.pairs.items) u v }
    {
        let at = find_pair(self.pairs.as_slice(), u, v).unwrap();
        self.pairs.swap_remove(at);
    }
}
