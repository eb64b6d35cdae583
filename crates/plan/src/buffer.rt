// Items written into a lent buffer, one after another.
ghost use Rattle.std.specs.Prelude.{◌≡◌, ◌+◌, ◌<◌, ◌≤◌, [], ◌∷◌, length};
ghost use Rattle.std.specs.Option.{option_to_list};
ghost use Rattle.plan.specs.Writing.{placed};

// A buffer, of which the first slots are written; the others have what stood in them before. Each
// function that writes has to say that it still lies over the same slots (`same_reference`), since no
// type can.
#[derive(Drop)]
pub(crate) struct Filling<'a, T> {
    slots: &'a mut [T],
    len: usize,
    ghost fits: { len ≤ length slots.now },
}

impl<'a, T: Copy> Filling<'a, T> {
    // A buffer of which nothing is written yet.
    pub(crate) fn over(slots: &'a mut [T]) -> Filling<'a, T>
        ensures len { result.len ≡ 0 }
        ensures slots { result.slots.now ≡ slots.old }
        ensures same_reference { result.slots.ghost_name ≡ slots.entry.ghost_name }
    {
        Filling { slots, len: 0 }
    }

    // How many items are written.
    pub(crate) fn len(&self) -> usize
        ensures { result ≡ self.now.len }
    {
        self.len
    }

    // Writes an item behind the others.
    #[tactic(auto, using(crate::proofs::Placing::placed_one))]
    pub(crate) fn push(&mut self, x: T)
        requires { self.old.len < length self.old.slots.now }
        ensures next { self.new.len ≡ self.old.len + 1 }
        ensures same_reference { self.new.slots.ghost_name ≡ self.old.slots.ghost_name }
        ensures items { self.new.slots.now ≡ placed self.old.len (x ∷ []) self.old.slots.now }
    {
        self.slots[self.len] = x;
        self.len += 1;
    }

    // Writes an item behind the others, if there is one.
    #[tactic(auto, using(crate::proofs::Placing::placed_none))]
    pub(crate) fn extend(&mut self, item: Option<T>)
        requires { self.old.len + length (option_to_list item) ≤ length self.old.slots.now }
        ensures next { self.new.len ≡ self.old.len + length (option_to_list item) }
        ensures same_reference { self.new.slots.ghost_name ≡ self.old.slots.ghost_name }
        ensures items { self.new.slots.now ≡ placed self.old.len (option_to_list item) self.old.slots.now }
    {
        if let Some(x) = item {
            self.push(x);
        }
    }
}
