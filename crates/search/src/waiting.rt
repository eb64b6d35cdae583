// What waits in the queue of a search: node numbers where what is reached is swept, steps where a
// path is sought. A search reads the node of either and no more; the way back stands in the notes.
ghost use Rattle.std.specs.Prelude.{◌≡◌, ℕ};

use ring::Step;

// An item of the queue: it has a node, and may keep the node before it and which way it was
// found.
pub trait Waiting: Copy + Drop {
    // The node that waits.
    ghost node: { Self → ℕ };

    // The item of a node q that was found from p, along an arc or back along the flow. No `From`: the
    // clause ties the item to its node.
    fn made(q: u16, p: u16, forwards: bool) -> Self
        ensures { node result ≡ q };

    // The node that waits.
    fn node(&self) -> u16
        ensures { result ≡ node self.now };
}

// A node alone.
impl Waiting for u16 {
    ghost node = { λ q. q };

    // The node itself.
    fn made(q: u16, _p: u16, _forwards: bool) -> u16
        ensures { result ≡ q }
    {
        q
    }

    // The node itself.
    fn node(&self) -> u16 {
        *self
    }
}

// A step, with the node that it leads to.
impl Waiting for Step {
    ghost node = { λ step. step.node };

    // The step from p to q.
    fn made(q: u16, p: u16, forwards: bool) -> Step
        ensures { result ≡ record { node = q; before = p; forwards = forwards } }
    {
        Step {
            node: q,
            before: p,
            forwards,
        }
    }

    // The node that the step leads to.
    fn node(&self) -> u16 {
        self.node
    }
}
