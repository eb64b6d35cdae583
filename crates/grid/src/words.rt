// Writes to the words of a whole grid.
ghost use Rattle.std.specs.Prelude.{◌≡◌, ℕ, ◌+◌, ◌*◌, ◌<◌, ◌≤◌, ◌&&◌, length, if◌then◌else◌, ◌==◌};
ghost use Rattle.graph.specs.Graph.{same_edge};
ghost use Rattle.bits.specs.Bits.{has, with_number};
ghost use Rattle.grid.specs.Rows.{vertex_words, vertex_bits, row_end, wiped, edge_words};

use model::Vertex;

// How many words the row of a vertex takes.
pub(crate) const VERTEX_WORDS: usize = 4;

// Sets or clears bit v of u's row.
fn set_bit(words: &mut [u64], u: Vertex, v: Vertex, on: bool)
    requires { (row_end u ≤ length words.old) × (v < vertex_bits) }
    ensures words { words.new ≡ with_number words.old (vertex_words * u) v on }
    ensures bits { (a b : ℕ) → b < vertex_bits → has words.new (vertex_words * a) b ≡ (if u == a && v == b then on else has words.old (vertex_words * a) b) }
{
    let at = VERTEX_WORDS * u as usize;
    bits::set(&mut words[at..at + VERTEX_WORDS], v, on);
}

// Sets or clears the two bits of the edge between u and v.
pub(crate) fn set_edge(words: &mut [u64], u: Vertex, v: Vertex, on: bool)
    requires { (row_end u ≤ length words.old) × ((row_end v ≤ length words.old) × ((u < vertex_bits) × (v < vertex_bits))) }
    ensures words { words.new ≡ edge_words on words.old u v }
    ensures bits { (a b : ℕ) → b < vertex_bits → has words.new (vertex_words * a) b ≡ (if same_edge u v a b then on else has words.old (vertex_words * a) b) }
{
    set_bit(words, u, v, on);
    set_bit(words, v, u, on);
}

// Writes 0 into the words of n rows.
pub(crate) fn wipe_rows(words: &mut [u64], n: u16)
    requires { vertex_words * n ≤ length words.old }
    ensures { words.new ≡ wiped n words.old }
{
    words[..VERTEX_WORDS * n as usize].fill(0);
}
