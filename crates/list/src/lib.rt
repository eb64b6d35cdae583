// A store of a map as a list: the cells in use hold one number an edge, in ascending order.
#![tactic(auto)]

ghost use Rattle.std.specs.Prelude.{◌≡◌, ℕ, ◌≤◌, length};
ghost use Rattle.graph.specs.Graph.{edges};
ghost use Rattle.model.specs.Model.{make_limit};
ghost use Rattle.list.specs.Cells.{Rising, listing};
ghost use Rattle.list.specs.Edges.{Listed};

mod codes;
mod editing;
mod laying;
mod questions;

// A map of n vertices whose edges stand in the first `count` cells. The cells are lent, and the
// number in use stands beside them, since a list takes no memory of its own.
#[derive(Drop)]
pub struct List<'a> {
    n: u16,
    count: usize,
    codes: &'a mut [u16],
    ghost some: { 1 ≤ n },
    ghost small: { n ≤ make_limit },
    ghost fits: { count ≤ length codes.now },
    ghost rising: { Rising count codes.now },
    ghost tally: { edges (listing n count codes.now) ≡ count },
    ghost listed: { Listed (listing n count codes.now) codes.now },
}
