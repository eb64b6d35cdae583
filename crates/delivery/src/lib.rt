// A whole session over each store, with what its memory is good for written out: on bytes, and as a
// script of calls. For each store there is a function of its own, since it says this of its own memory.
#![tactic(auto)]

mod inputs;
mod scripts;

pub use inputs::{over_grid, over_list};
pub use scripts::{play_on_grid, play_on_list};
