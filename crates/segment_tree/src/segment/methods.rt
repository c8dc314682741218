// What a tree does.
ghost use Rattle.std.specs.Prelude.{◌≡◌, ◌+◌, ◌*◌, ◌<◌, ◌≤◌, length, MatchOption, is_ok, nat_lt, slice_set};
ghost use Rattle.segment_tree.specs.Joins.{fold_of};
ghost use Rattle.segment_tree.specs.LeafCount.{leaf_count};
ghost use Rattle.segment_tree.specs.LongestRun.{Longest};

use super::leaves::Leaves;
use super::{NoElement, Tree};
use crate::{Element, cells as work};

impl<'a, E: Element> Tree<'a, E> {
    ghost use Rattle.segment_tree.specs.Trees.{elements, Kept, Fresh, Vacant, Parted};

    // A tree of `count` empty elements, where there are cells enough.
    pub fn new(cells: &'a mut [E], count: usize) -> Option<Tree<'a, E>>
        ensures { MatchOption result (length cells.old < 2 * leaf_count count) (λ t. Fresh E.none cells.old count t) }
    {
        let Leaves { cells, size, count } = Leaves::new(cells, count)?;
        work::clear(&mut cells[..2 * size]);
        Some(Tree { cells, size, count })
    }

    // A tree of no elements. It takes no cells and writes none.
    pub fn vacant(cells: &'a mut [E]) -> Tree<'a, E>
        ensures { Vacant cells.old result }
    {
        Tree {
            cells,
            size: 0,
            count: 0,
        }
    }

    // How many elements there are.
    pub fn count(&self) -> usize
        ensures { result ≡ self.now.count }
    {
        self.count
    }

    // Element i becomes e, where there is one.
    pub fn set(&mut self, i: usize, e: E) -> Result<(), NoElement>
        ensures answer { is_ok result ≡ nat_lt i self.old.count }
        ensures kept { Kept self.old self.new }
        ensures after { elements self.new ≡ slice_set (elements self.old) i e }
        ensures refused { self.old.count ≤ i → self.new.cells.now ≡ self.old.cells.now }
    {
        if i >= self.count {
            return Err(NoElement);
        }
        let size = self.size;
        work::put(self.cells, size, i, e);
        Ok(())
    }

    // The leaves of the tree, to write many elements in linear time: the joins wait until all are written.
    pub fn leaves(self) -> Leaves<'a, E>
        ensures { Parted self.entry result }
    {
        let Tree { cells, size, count } = self;
        Leaves { cells, size, count }
    }

    // The join of the elements a to b - 1, in order. A b past the last element counts as the number of elements, and
    // where that leaves none, the answer is the empty element.
    pub fn fold(&self, a: usize, b: usize) -> E
        ensures { result ≡ fold_of E.none E.op (elements self.now) a b }
    {
        let end = b.min(self.count);
        if a >= end {
            return E::empty();
        }
        self.join_between(a, end)
    }

    // The join of the leaves a to b - 1: of the nodes at the two ends that no wider node takes in, level by level.
    // It walks up the tree by hand, from both ends at once.
    fn join_between(&self, a: usize, b: usize) -> E
        requires order { (a < b) × (b ≤ self.now.size) }
        ensures { result ≡ fold_of E.none E.op self.now.cells.now (self.now.size + a) (self.now.size + b) }
    {
        let mut low = self.size + a;
        let mut high = self.size + b;
        let mut front = E::empty();
        let mut back = E::empty();
        while low < high {
            if low % 2 == 1 {
                front = front.join(self.cells[low]);
                low += 1;
            }
            if high % 2 == 1 {
                high -= 1;
                back = self.cells[high].join(back);
            }
            low /= 2;
            high /= 2;
        }
        front.join(back)
    }

    // The greatest b up to which the elements from a on join to what is within the limit, or a where there is none.
    pub fn longest_run(&self, a: usize, limit: &E::Limit) -> usize
        ensures { Longest E.none E.op (λ x. E.fits x limit.now) (elements self.now) a result }
    {
        if a > self.count || !E::empty().within(limit) {
            return a;
        }
        self.descend(a, limit, self.climb(a, limit))
    }
}
