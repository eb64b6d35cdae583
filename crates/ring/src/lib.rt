// A queue, first in, first out, of any kind of items, over slots that it is lent. The
// slots are used in a circle: behind the last comes the first again.
#![tactic(auto)]

mod queue;
mod step;
#[cfg(test)]
mod tests;

pub use queue::Ring;
pub use step::Step;
