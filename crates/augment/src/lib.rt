// What follows a search that found its goal: one unit more is pushed along the route that it noted, while
// the route is read back.
#![tactic(auto)]

mod notes;
mod push;

pub use notes::{Notes, read_back};
pub use push::{augment, pushed_back};
