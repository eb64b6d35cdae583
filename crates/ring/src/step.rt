// A step of a search.

// A node, the node before it, and which way it was found. `forwards`: along an arc; else back along
// the flow. A search reads the node alone; the rest tells how it came there.
#[derive(Clone, Copy)]
pub struct Step {
    pub node: u16,
    pub before: u16,
    pub forwards: bool,
}
