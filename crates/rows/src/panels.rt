// The best place for a panel.
ghost use Rattle.std.specs.Prelude.{◌≡◌, ◌+◌, ◌≤◌, List, IfSome};
ghost use Rattle.places.specs.Panels.{Placed};
ghost use Rattle.places.specs.Permitted.{Scene};
ghost use Rattle.places.specs.Tried.{first_row};
ghost use Rattle.places.specs.Theorems.{Found};
ghost use Rattle.rows.specs.Told.{Tells};
ghost use Rattle.rows.specs.Asked.{sizes_of, wanted, Ends, Shows, BoxInside};
ghost use Rattle.rows.specs.OneRow.{line_band, OnRow};

use crate::Rows;
use crate::ground::Ground;
use places::parts::{Place, Span};
use reaches::spans::nearest;
use shapes::Shape;
use shapes::sides::{Clear, Side};

impl<'a> Rows<'a> {
    // The open line's band, or the margins where no line is open.
    fn open_band(&self, ground: Ground) -> Span
        requires margins { ground.margins.to ≤ self.now.width }
        requires ends { Ends ground.current ground.line self.now.height }
        ensures { (qs : List Placed) → Tells self.now qs → result ≡ line_band ground.margins qs ground.line ground.current }
    {
        // By a `match`, since a closure given to `map_or` tells nothing of the band unless it repeats this contract.
        match ground.current {
            None => ground.margins,
            Some(words) => self.band(ground.margins, words.top, ground.line),
        }
    }

    // Where a panel stands with its top at row y, or none where it may not.
    fn stand_on<S: Shape>(
        &self,
        ground: Ground,
        around: Span,
        side: Side,
        shape: &S,
        y: u32,
    ) -> Option<u32>
        requires margins { ground.margins.to ≤ self.now.width }
        requires ends { Ends ground.current ground.line self.now.height }
        requires around { (qs : List Placed) → Tells self.now qs → around ≡ line_band ground.margins qs ground.line ground.current }
        requires high { y + (S.model shape.now).tall ≤ self.now.height }
        ensures inside { IfSome result (λ x. x + (S.model shape.now).wide ≤ self.now.width) }
        ensures told { (scene : Scene) (c : Clear) → Shows self.now ground.margins ground.current scene → first_row scene (wanted side c (S.model shape.now)) ≤ y → OnRow (sizes_of self.now ground.line) scene (wanted side c (S.model shape.now)) y result }
    {
        let width = shape.width();
        let free = self.free_on(ground.margins, y);
        if free.room() < width {
            return None;
        }
        let x = nearest(free, side, width);
        ground.keeps(around, side, x, y, shape).then_some(x)
    }

    // The best place for a panel: the highest that is permitted, and of these the nearest to its side. No row above
    // `start` is allowed; of clear no more is asked here, since that row is told by it. Side and shape come as they are
    // asked for, since an order, with its clear, is the caller's. Where a panel may stand on a row it may on each row
    // below, so the rows are halved.
    pub fn best_place<S: Shape>(
        &self,
        ground: Ground,
        start: u32,
        side: Side,
        shape: &S,
    ) -> Option<Place>
        requires margins { ground.margins.to ≤ self.now.width }
        requires ends { Ends ground.current ground.line self.now.height }
        ensures inside { IfSome result (BoxInside self.now (S.model shape.now)) }
        ensures told { (scene : Scene) (c : Clear) → Shows self.now ground.margins ground.current scene → first_row scene (wanted side c (S.model shape.now)) ≡ start → Found (sizes_of self.now ground.line) scene (wanted side c (S.model shape.now)) result }
    {
        let around = self.open_band(ground);
        // This halves a range: a row in its middle says which half the best row stands in.
        let mut found = None;
        let mut low = start;
        let mut high = self.height.saturating_sub(shape.height() - 1);
        while low < high {
            let y = low + (high - low) / 2;
            match self.stand_on(ground, around, side, shape, y) {
                Some(x) => {
                    found = Some(Place { x, y });
                    high = y;
                }
                None => {
                    low = y + 1;
                }
            }
        }
        found
    }
}
