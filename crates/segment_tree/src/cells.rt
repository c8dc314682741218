// The writes to the cells. With q leaves, cell 1 is the root, cells 2k and 2k + 1 stand below cell k, and leaf i is
// cell q + i. Cell 0 is not used, and cells from 2q on are left alone. These take the slice and not the tree, since
// between two of their writes the joins are not yet those of the elements, as a tree's are.
ghost use Rattle.std.specs.Prelude.{◌≡◌, ℕ, ◌+◌, ◌*◌, ◌<◌, ◌≤◌, length, drop, slice_index_or, slice_set};
ghost use Rattle.segment_tree.specs.Cells.{Agrees};

use crate::Element;

// Sets leaf i, and the cells above it up to the first that stays as it was.
// It walks up the tree by hand: each step goes to the cell above the last.
pub(crate) fn put<E: Element>(cells: &mut [E], size: usize, i: usize, e: E)
    requires agrees { Agrees E.none E.op size cells.old }
    requires inside { i < size }
    ensures agrees { Agrees E.none E.op size cells.new }
    ensures after { drop size cells.new ≡ slice_set (drop size cells.old) i e }
{
    let mut node = size + i;
    cells[node] = e;
    while node > 1 {
        node /= 2;
        let joined = cells[2 * node].join(cells[2 * node + 1]);
        if joined == cells[node] {
            return;
        }
        cells[node] = joined;
    }
}

// Joins every inner cell anew, the lowest first.
pub(crate) fn join_all<E: Element>(cells: &mut [E], size: usize)
    requires { 2 * size ≤ length cells.old }
    ensures agrees { Agrees E.none E.op size cells.new }
    ensures after { drop size cells.new ≡ drop size cells.old }
{
    for node in (1..size).rev() {
        cells[node] = cells[2 * node].join(cells[2 * node + 1]);
    }
}

// Makes every cell empty. Not by `fill`, which asks for a clone that cannot fail: a kind of element promises none.
pub(crate) fn clear<E: Element>(cells: &mut [E])
    ensures { (k : ℕ) → k < length cells.old → slice_index_or cells.new k E.none ≡ E.none }
{
    for cell in cells.iter_mut() {
        *cell = E::empty();
    }
}
