// The arcs that a flow goes along, in lent words: a row of words for each head, and in its first ones a
// bit for each tail. The last word of a row is not used. The methods have a file of their own, since
// the definitions that their clauses cite name the struct; so have what a search asks of a set of arcs
// (`Carries`), and the arcs in words that are lent for reading alone (`SharedArcs`).
ghost use Rattle.std.specs.Prelude.{◌≤◌, length};
ghost use Rattle.rows.specs.Layout.{set_limit, arc_words};

mod asked;
mod by_head;
mod shared;

pub use asked::Carries;
pub use shared::SharedArcs;

// How many words a row takes.
const ROW_WORDS: usize = 8;

// A set of arcs over lent words, enough for all rows. Its heads are the numbers below `heads`: no other
// row is written or read.
#[derive(Drop)]
pub struct Arcs<'a> {
    words: &'a mut [u64],
    heads: u16,
    ghost fits: { arc_words ≤ length words.now },
    ghost few: { heads ≤ set_limit },
}
