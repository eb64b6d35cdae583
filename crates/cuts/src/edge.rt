// An edge as an item of a cut.

// The edge between two vertices, by its lower and its higher end.
#[derive(Debug, Clone, Copy, PartialEq, Eq)]
pub struct Edge {
    pub low: u16,
    pub high: u16,
}
