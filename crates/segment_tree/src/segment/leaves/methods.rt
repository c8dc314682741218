// What is done with leaves.
ghost use Rattle.std.specs.Prelude.{◌≡◌, ◌+◌, ◌*◌, ◌<◌, ◌≤◌, length, drop, MatchOption, is_ok, nat_lt, slice_set};
ghost use Rattle.segment_tree.specs.LeafCount.{leaf_count};

use super::Leaves;
use crate::segment::{NoElement, Tree};
use crate::{Element, cells as work, powers};

impl<'a, E: Element> Leaves<'a, E> {
    ghost use Rattle.segment_tree.specs.Trees.{elements, laid, KeptLeaves, KeptJoined, Lent};

    // The leaves for `count` elements, where there are cells enough. It writes none: the leaves hold what the cells held.
    pub fn new(cells: &'a mut [E], count: usize) -> Option<Leaves<'a, E>>
        ensures { MatchOption result (length cells.old < 2 * leaf_count count) (λ l. Lent cells.old count l) }
    {
        if !powers::enough(cells.len(), count) {
            return None;
        }
        let size = powers::leaf_count(count);
        Some(Leaves { cells, size, count })
    }

    // How many elements there are.
    pub fn count(&self) -> usize
        ensures { result ≡ self.now.count }
    {
        self.count
    }

    // Element i becomes e, where there is one.
    pub fn lay(&mut self, i: usize, e: E) -> Result<(), NoElement>
        ensures answer { is_ok result ≡ nat_lt i self.old.count }
        ensures kept { KeptLeaves self.old self.new }
        ensures after { laid self.new ≡ slice_set (laid self.old) i e }
        ensures alone { i < self.old.count → self.new.cells.now ≡ slice_set self.old.cells.now (self.old.size + i) e }
        ensures refused { self.old.count ≤ i → self.new.cells.now ≡ self.old.cells.now }
    {
        if self.count <= i {
            return Err(NoElement);
        }
        let leaf = self.size + i;
        self.cells[leaf] = e;
        Ok(())
    }

    // The tree of the elements that were laid.
    pub fn join_all(self) -> Tree<'a, E>
        ensures kept { KeptJoined self.entry result }
        ensures after { elements result ≡ laid self.entry }
        ensures leaves { drop self.entry.size result.cells.now ≡ drop self.entry.size self.entry.cells.now }
    {
        let Leaves { cells, size, count } = self;
        work::join_all(cells, size);
        Tree { cells, size, count }
    }
}
