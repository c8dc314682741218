// The reach of some rows, and what it leaves between margins. Only what stands here reads or writes the tree.
ghost use Rattle.std.specs.Prelude.{◌≡◌, ◌+◌, ◌<◌, ◌≤◌, List, slice_index_or, slice_set};
ghost use Rattle.segment_tree.specs.Trees.{elements};
ghost use Rattle.places.specs.Panels.{Placed};
ghost use Rattle.places.specs.Bands.{band, free};
ghost use Rattle.reaches.specs.Reaches.{no_reach, farther};
ghost use Rattle.reaches.specs.Panels.{rows_reach};
ghost use Rattle.rows.specs.Told.{index_of, gap_of, Tells};
ghost use Rattle.rows.specs.Fit.{Stays};

use crate::Rows;
use places::parts::Span;
use reaches::reach::{Gap, Reach, Taken};
use segment_tree::Element;

// Where the reach of a row stands in the tree. The cast loses nothing, since a row is a number of 32 bits.
pub(crate) fn index(row: u32) -> usize
    ensures { result ≡ index_of row }
{
    row as usize
}

// That the margins end on the sheet is asked at each call, since they are a paragraph's: a value that held them with the
// rows would be made anew for each call. So it is with the end of the open line, which is the caller's too.
impl<'a> Rows<'a> {
    // How far in the panels reach on the n rows from `top` on.
    pub(crate) fn reach_of(&self, top: u32, n: u32) -> Reach
        requires inside { top + n ≤ self.now.height }
        ensures { (qs : List Placed) → Tells self.now qs → result ≡ rows_reach self.now.width qs top n }
    {
        let first = index(top);
        self.tree.fold(first, first + index(n))
    }

    // Row `row` reaches as far as it did, or as this reach.
    pub(crate) fn widen(&mut self, row: u32, reach: Reach)
        requires inside { row < self.old.height }
        ensures stays { Stays self.old self.new }
        ensures after { elements self.new.tree ≡ slice_set (elements self.old.tree) (index_of row) (farther reach (slice_index_or (elements self.old.tree) (index_of row) no_reach)) }
    {
        let at = index(row);
        let old = self.tree.fold(at, at + 1);
        // The row is in the tree, so this sets it.
        let _ = self.tree.set(at, reach.join(old));
    }

    // The gap between these margins on this sheet, beside the boxes or beside the areas.
    pub(crate) fn gap(&self, margins: Span, of: Taken) -> Gap
        ensures { result ≡ gap_of self.now.width margins of }
    {
        Gap {
            margins,
            width: self.width,
            of,
        }
    }

    // The band of the n rows from `top` on: what the areas leave between the margins on all of them.
    pub fn band(&self, margins: Span, top: u32, n: u32) -> Span
        requires inside { top + n ≤ self.now.height }
        requires margins { margins.to ≤ self.now.width }
        ensures { (qs : List Placed) → Tells self.now qs → result ≡ band margins qs top n }
    {
        self.gap(margins, Taken::Areas)
            .left_over(self.reach_of(top, n))
    }

    // What the boxes leave of row y between the margins.
    pub(crate) fn free_on(&self, margins: Span, y: u32) -> Span
        requires inside { y < self.now.height }
        requires margins { margins.to ≤ self.now.width }
        ensures inside { result.to ≤ margins.to }
        ensures told { (qs : List Placed) → Tells self.now qs → result ≡ free margins qs y }
    {
        self.gap(margins, Taken::Boxes)
            .left_over(self.reach_of(y, 1))
    }
}
