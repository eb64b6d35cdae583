// The numbers that cells hold, and cells moved by one.
ghost use Rattle.std.specs.Prelude.{◌≡◌, ℕ, ◌+◌, ◌-◌, ◌<◌, ◌≤◌, length, slice_index};
ghost use Rattle.graph.specs.Graph.{order_limit};
ghost use Rattle.list.specs.Cells.{code, free};

use model::Vertex;

// What a freed cell holds.
const FREE: u16 = u16::MAX;

// The number of the edge between u and v.
pub(crate) fn edge_code(u: Vertex, v: Vertex) -> u16
    requires { (u < order_limit) × (v < order_limit) }
    ensures { result ≡ code u v }
{
    u.min(v) * 256 + u.max(v)
}

// Puts c in the first of the cells. The others get what stood one before, and what stood in
// the last is gone.
pub(crate) fn move_in(cells: &mut [u16], c: u16)
    requires { 1 ≤ length cells.old }
    ensures first { slice_index cells.new 0 ≡ c }
    ensures moved { (i : ℕ) → i + 1 < length cells.old → slice_index cells.new (i + 1) ≡ slice_index cells.old i }
{
    cells.rotate_right(1);
    cells[0] = c;
}

// Takes out what stands in the first of the cells. Each gets what stood one behind, and the
// last is free.
pub(crate) fn move_out(cells: &mut [u16])
    requires { 1 ≤ length cells.old }
    ensures moved { (i : ℕ) → i + 1 < length cells.old → slice_index cells.new i ≡ slice_index cells.old (i + 1) }
    ensures freed { slice_index cells.new (length cells.old - 1) ≡ free }
{
    let last = cells.len() - 1;
    cells.rotate_left(1);
    cells[last] = FREE;
}
