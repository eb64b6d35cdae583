// One row of a grid: four words, in which bit v says whether the row's vertex is joined to v.
ghost use Rattle.std.specs.Prelude.{◌≡◌, ◌≤◌, length};
ghost use Rattle.graph.specs.Graph.{count};
ghost use Rattle.bits.specs.Bits.{bit};
ghost use Rattle.grid.specs.Rows.{vertex_words, set_bits};

// How many bits of a word are set.
fn word_count(word: u64) -> u16
    ensures value { result ≡ count (bit word) 64 }
    ensures small { result ≤ 64 }
{
    word.count_ones() as u16
}

// How many bits of the row are set: the ones of its four words, written out as the form of a row is.
pub(crate) fn row_count(row: &[u64]) -> u16
    requires { length row.now ≡ vertex_words }
    ensures { result ≡ set_bits row.now }
{
    word_count(row[0]) + word_count(row[1]) + word_count(row[2]) + word_count(row[3])
}
