// The least row for a line.
ghost use Rattle.std.specs.Prelude.{◌≡◌, ◌+◌, ◌≤◌, List, IfSome, nat_le};
ghost use Rattle.places.specs.Panels.{Placed};
ghost use Rattle.places.specs.Bands.{band, room};
ghost use Rattle.places.specs.Permitted.{Scene};
ghost use Rattle.places.specs.Theorems.{Sought};
ghost use Rattle.rows.specs.Told.{Tells};
ghost use Rattle.rows.specs.Asked.{sizes_of};

use crate::Rows;
use places::parts::Span;
use reaches::reach::{Need, Taken};
use segment_tree::Element;

impl<'a> Rows<'a> {
    // Whether the band of the `line` rows from `top` on is at least `need` units wide.
    fn is_wide(&self, margins: Span, line: u32, top: u32, need: u32) -> bool
        requires inside { top + line ≤ self.now.height }
        requires margins { margins.to ≤ self.now.width }
        ensures { (qs : List Placed) → Tells self.now qs → result ≡ nat_le need (room (band margins qs top line)) }
    {
        let gap = self.gap(margins, Taken::Areas);
        self.reach_of(top, line).within(&Need { gap, need })
    }

    // The least row from `start` on where a line of `line` rows ends on the sheet and has `need` units of room.
    pub fn least_row(&self, margins: Span, line: u32, start: u32, need: u32) -> Option<u32>
        requires margins { margins.to ≤ self.now.width }
        ensures ends { IfSome result (λ top. top + line ≤ self.now.height) }
        ensures told { (scene : Scene) → Tells self.now scene.placed → scene.margins ≡ margins → Sought (sizes_of self.now line) scene start need result }
    {
        let last = self.height.checked_sub(line)?;
        // By a `for`, since the library has no lemma of `find` over a range that includes its end.
        for top in start..=last {
            if self.is_wide(margins, line, top, need) {
                return Some(top);
            }
        }
        None
    }
}
