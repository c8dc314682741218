// Taking a panel in.
ghost use Rattle.std.specs.Prelude.{◌+◌, ◌≤◌, List, ◌∷◌};
ghost use Rattle.places.specs.Panels.{Placed};
ghost use Rattle.rows.specs.Told.{Tells};
ghost use Rattle.rows.specs.Fit.{Stays};
ghost use Rattle.rows.specs.Asked.{panel_at};

use crate::Rows;
use places::parts::Place;
use reaches::part::Part;
use shapes::Shape;
use shapes::sides::Side;

impl<'a> Rows<'a> {
    // A panel stands at this place from now on. Its box lies on the sheet.
    pub fn take_in<S: Shape>(&mut self, side: Side, place: Place, shape: &S)
        requires wide { place.x + (S.model shape.now).wide ≤ self.old.width }
        requires high { place.y + (S.model shape.now).tall ≤ self.old.height }
        ensures stays { Stays self.old self.new }
        ensures told { (qs : List Placed) → Tells self.old qs → Tells self.new (panel_at side place.x place.y (S.model shape.now) ∷ qs) }
    {
        let (x, w) = (place.x, shape.width());
        for k in 0..shape.height() {
            let e = shape.extent(k);
            let taken = Part { side, x, w, e }.reach(self.width);
            self.widen(place.y + k, taken);
        }
    }
}
