// A whole session on bytes: frames in, a line each, and the text of the replies out. This is
// what the programs run, over any store.
#![tactic(auto)]

mod line;
mod lines;
mod whole;

pub use whole::serve;
