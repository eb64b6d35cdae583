// Questions about connectivity, over any map. The machine under all of them is a run over a plan:
// it pushes one unit after another from one node to another, until no path leads on. Runs can't
// be held outside this crate.
#![tactic(auto)]

mod pair;
mod run;
mod work;

pub use pair::{edge_cut_between, vertex_cut_between};
pub use work::{CELLS, NUMBERS, WORDS};
