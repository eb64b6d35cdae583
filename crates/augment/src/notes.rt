// At each node that a search reaches, the node that it came from is noted. Whoever needs the route to a
// node reads it back from the notes, node by node.
ghost use Rattle.std.specs.Prelude.{◌≡◌, ◌<◌, ◌≤◌, length, slice_index, slice_set};
ghost use Rattle.graph.specs.Graph.{node_limit};
ghost use Rattle.augment.specs.Trails.{ReadBack};

// Two nodes for each of 201 vertices. A route has no node twice, so it is no longer.
pub(crate) const MOST_NODES: usize = 402;

// The notes, in lent numbers, one for each node that a search can have: number q is the node from which
// q was reached.
#[derive(Drop)]
pub struct Notes<'a> {
    before: &'a mut [u16],
    ghost fits: { node_limit ≤ length before.now },
}

impl<'a> Notes<'a> {
    // The lent numbers as notes, with whatever stands in them.
    pub fn over(before: &'a mut [u16]) -> Notes<'a>
        requires { node_limit ≤ length before.old }
        ensures notes { result.before.now ≡ before.old }
        ensures same_reference { result.before.ghost_name ≡ before.entry.ghost_name }
    {
        Notes { before }
    }

    // Notes that q was reached from p. That the notes lie over the same numbers has to be said.
    pub fn note(&mut self, q: u16, p: u16)
        requires { q < node_limit }
        ensures notes { self.new.before.now ≡ slice_set self.old.before.now q p }
        ensures same_reference { self.new.before.ghost_name ≡ self.old.before.ghost_name }
    {
        self.before[q as usize] = p;
    }

    // The node noted at x, 0 past the notes.
    pub fn noted(&self, x: u16) -> u16
        ensures { result ≡ slice_index self.now.before.now x }
    {
        self.before.get(x as usize).copied().unwrap_or(0)
    }
}

// What a trail noted is enough to read it back.
pub fn read_back()
    ensures { ReadBack }
{}
