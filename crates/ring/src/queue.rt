// What a ring does: it takes an item at the end, and gives the first one away.
ghost use Rattle.std.specs.Prelude.{◌≡◌, ◌+◌, ◌<◌, ◌≤◌, false, [], ◌∷◌, ◌++◌, length, is_ok, is_some, IfErr, if◌then◌else◌, ◌==◌, nat_lt};
ghost use Rattle.ring.specs.Items.{round};
ghost use Rattle.ring.specs.Queue.{popped_from};

use std::marker::Model;

// The `len` items that wait, the first of them in the slot `head`. The slots are lent and of any
// number, so the length stands beside them.
#[derive(Drop)]
pub struct Ring<'a, T: Copy> {
    slots: &'a mut [T],
    head: usize,
    len: usize,
}

// Clauses see the items in their order, and how many there is room for. They see the slots, the first
// item's place and which memory was lent too, so that `unchanged` says of a refused call that nothing at
// all changed.
impl<'a, T: Copy> Model for Ring<'a, T> {
    ghost use Rattle.std.specs.Prelude.{◌≡◌, ◌<◌, ◌≤◌, length};
    ghost use Rattle.ring.specs.Items.{ring_items};
    ghost use Rattle.ring.specs.Queue.{Queue};

    ghost Value = { Queue T };

    ghost view = { λ r. record { items = ring_items r.slots.now r.head r.len; room = length r.slots.now; slots = r.slots.now; head = r.head; memory = r.slots.ghost_name } };

    ghost invariant = { λ r. (r.len ≤ length r.slots.now) × (0 < length r.slots.now → r.head < length r.slots.now) × (length (ring_items r.slots.now r.head r.len) ≡ r.len) };
}

impl<'a, T: Copy> Ring<'a, T> {
    // A ring that holds nothing, with room for an item in each slot.
    pub fn new(slots: &'a mut [T]) -> Ring<'a, T>
        ensures items { result.items ≡ [] }
        ensures room { result.room ≡ length slots.old }
    {
        Ring {
            slots,
            head: 0,
            len: 0,
        }
    }

    // How many items wait.
    pub fn len(&self) -> usize
        ensures { result ≡ length self.now.items }
    {
        self.len // one for each item that waits
    }

    // Whether no item waits.
    pub fn is_empty(&self) -> bool
        ensures { result ≡ (length self.now.items == 0) }
    {
        self.len() == 0
    }

    // Whether each slot is taken.
    fn is_full(&self) -> bool
        ensures { result ≡ (length self.now.items == self.now.room) }
    {
        self.len == self.slots.len()
    }

    // Takes an item at the end, or gives it back if the ring is full.
    pub fn push(&mut self, x: T) -> Result<(), T>
        ensures took { is_ok result ≡ nat_lt (length self.old.items) self.old.room }
        ensures items { self.new.items ≡ self.old.items ++ (if is_ok result then x ∷ [] else []) }
        ensures room { self.new.room ≡ self.old.room }
        ensures unchanged { is_ok result ≡ false → self.new ≡ self.old }
        ensures handed_back { IfErr result (λ y. y ≡ x) }
    {
        if self.is_full() {
            return Err(x);
        }
        let at = slot_behind(self.slots.len(), self.head, self.len);
        self.slots[at] = x;
        self.len += 1;
        Ok(())
    }

    // Gives the first item away, if one waits.
    pub fn pop(&mut self) -> Option<T>
        ensures items { self.old.items ≡ popped_from result self.new.items }
        ensures room { self.new.room ≡ self.old.room }
        ensures unchanged { is_some result ≡ false → self.new ≡ self.old }
    {
        if self.is_empty() {
            return None;
        }
        let x = self.slots[self.head];
        self.head = next_slot(self.slots.len(), self.head);
        self.len -= 1;
        Some(x)
    }
}

// The slot that is n on from the slot `head`, where there are `size` slots. The sum is not formed
// where it would pass the last slot.
fn slot_behind(size: usize, head: usize, n: usize) -> usize
    requires { (head < size) × (n ≤ size) }
    ensures { result ≡ round size (head + n) }
{
    let left = size - head;
    if n < left { head + n } else { n - left }
}

// The slot behind the slot `head`.
fn next_slot(size: usize, head: usize) -> usize
    requires { head < size }
    ensures { result ≡ round size (head + 1) }
{
    slot_behind(size, head, 1)
}
