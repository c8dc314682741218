// The tree itself: a lent slice of cells, of which it uses the first 2 * size. The cells from `size` on are its leaves,
// the first `count` of them its elements; each cell before them is the join of the two below it.
ghost use Rattle.std.specs.Prelude.{◌*◌, ◌≤◌, length};
ghost use Rattle.std.specs.Coded.{Coded-set};
ghost use Rattle.segment_tree.specs.Cells.{Sums, sums_prop};

use crate::Element;

pub mod leaves;
mod methods;
pub mod runs;

// The cells are lent whole, beside a size and a count: contracts speak of the cells past those in use, and a slice of the
// used ones alone would let go of them. It does not hold `Leaves`: contracts name its size, count and cells directly, and
// between laying and joining the sums may be false.
#[derive(Drop)]
pub struct Tree<'a, E: Element> {
    cells: &'a mut [E],
    size: usize,
    count: usize,
    // There are leaves for the elements, and cells for the leaves.
    ghost few: { count ≤ size },
    ghost long: { 2 * size ≤ length cells.now },
    // Each inner cell is the join of the two below it.
    ghost sums: { Sums E.none E.op size cells.now } by { sums_prop E.none E.op size cells.now (λ x y. Coded-set E.code x y) },
}

// There is no element at that index.
#[derive(Clone, Copy, PartialEq, Eq, Debug)]
pub struct NoElement;
