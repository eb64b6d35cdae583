// A store of a map as a grid of bits over lent words: four words for each vertex, and bit v of
// u's four says whether an edge joins u and v. So an edge is two bits, and every question about
// a vertex reads the four words of its row alone.
#![tactic(auto)]

ghost use Rattle.std.specs.Prelude.{◌≡◌, ℕ, ◌*◌, ◌<◌, ◌≤◌, true, false, length};
ghost use Rattle.model.specs.Model.{make_limit};
ghost use Rattle.grid.specs.Rows.{vertex_words, grid, RestStays};

mod counts;
mod editing;
mod questions;
mod words;

// A map of n vertices over the first 4 n of the lent words. The ghost facts say that what the
// words mean is a simple graph; the bits from n up in a row are clear by the last of them.
#[derive(Drop)]
pub struct Grid<'a> {
    n: u16,
    words: &'a mut [u64],
    ghost some: { 1 ≤ n },
    ghost small: { n ≤ make_limit },
    ghost room: { vertex_words * n ≤ length words.now },
    ghost even: { (u v : ℕ) → (grid n words.now).joined u v ≡ (grid n words.now).joined v u },
    ghost loose: { (u : ℕ) → (grid n words.now).joined u u ≡ false },
    ghost within: { (u v : ℕ) → (grid n words.now).joined u v ≡ true → (u < n) × (v < n) },
}

// A make and an edit change no word past the rows: those are as they were before the make.
pub fn rest_stays()
    ensures { RestStays }
{}
