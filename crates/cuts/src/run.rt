// A run as an item of a list of runs.

// The pair of a run, in its order, and the value that was found.
#[derive(Debug, Clone, Copy, PartialEq, Eq)]
pub struct Run {
    pub from: u16,
    pub to: u16,
    pub value: u16,
}
