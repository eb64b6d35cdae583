// Two sets in words, for a search: node numbers that are marked, and arcs that a flow goes
// along. A search sees neither layout: each set says which numbers, or which arcs, it has.
#![tactic(auto)]

pub mod flow;
pub mod marks;
