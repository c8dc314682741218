// The way from an element to the end of its longest run: up over ever wider nodes, then down to one leaf.
ghost use Rattle.std.specs.Prelude.{◌≡◌, ◌+◌, ◌*◌, ◌<◌, ◌≤◌, true};
ghost use Rattle.segment_tree.specs.LongestRun.{Longest, OneLongestRun};
ghost use Rattle.segment_tree.specs.Walk.{Held, Stuck};

use super::Tree;
use crate::Element;

// Where a walk stands: at leaf `at`, the first of the `width` leaves below `node`, with what it passed joined.
#[derive(Drop)]
pub(crate) struct Stand<E: Element> {
    at: usize,
    node: usize,
    width: usize,
    joined: E,
}

impl<'a, E: Element> Tree<'a, E> {
    ghost use Rattle.segment_tree.specs.Trees.{elements};

    // Goes right from leaf a over whole nodes, ever wider, as far as what it passes fits.
    // It walks up the tree by hand: how far it goes at each turn depends on what fitted at the last.
    pub(crate) fn climb(&self, a: usize, limit: &E::Limit) -> Stand<E>
        requires order { a ≤ self.now.count }
        requires start { E.fits E.none limit.now ≡ true }
        ensures held { Held E.none E.op (λ x. E.fits x limit.now) self.now.size self.now.count self.now.cells.now a result.at result.node result.width result.joined }
        ensures stuck { Stuck E.none E.op (λ x. E.fits x limit.now) self.now.size self.now.count self.now.cells.now a result.at result.width }
    {
        let mut at = a;
        let mut node = self.size + a;
        let mut width = 1;
        let mut joined = E::empty();
        while width <= self.count - at {
            if node % 2 == 0 {
                node /= 2;
                width *= 2;
            } else {
                let more = joined.join(self.cells[node]);
                if !more.within(limit) {
                    return Stand {
                        at,
                        node,
                        width,
                        joined,
                    };
                }
                joined = more;
                at += width;
                node += 1;
            }
        }
        Stand {
            at,
            node,
            width,
            joined,
        }
    }

    // Goes on over ever narrower nodes, down to one leaf.
    // It walks down the tree by hand, as `climb` walks up.
    pub(crate) fn descend(&self, a: usize, limit: &E::Limit, start: Stand<E>) -> usize
        requires order { a ≤ self.now.count }
        requires held { Held E.none E.op (λ x. E.fits x limit.now) self.now.size self.now.count self.now.cells.now a start.at start.node start.width start.joined }
        requires stuck { Stuck E.none E.op (λ x. E.fits x limit.now) self.now.size self.now.count self.now.cells.now a start.at start.width }
        ensures { Longest E.none E.op (λ x. E.fits x limit.now) (elements self.now) a result }
    {
        let Stand {
            mut at,
            mut node,
            mut width,
            mut joined,
        } = start;
        while width > 1 {
            width /= 2;
            node *= 2;
            if width <= self.count - at {
                let more = joined.join(self.cells[node]);
                if more.within(limit) {
                    joined = more;
                    at += width;
                    node += 1;
                }
            }
        }
        at
    }
}

// Of the ends that a run from one place may have, at most one is the longest.
pub fn one_longest_run<E: Element>() -> u8
    ensures { OneLongestRun E.none E.op E.fits }
{
    0
}
