// How a hand begins.
ghost use Rattle.std.specs.Prelude.{◌≡◌, None};
ghost use Rattle.calls.specs.Scales.{cell_of_one};

use crate::hands::Hand;
use metrics::cells::Cell;
use scales::Scale;
use sheet::sheet::Sheet;

impl<'a> Hand<'a> {
    // This sheet with no slip, and one unit for every byte.
    pub(crate) fn new(sheet: Sheet<'a>) -> Hand<'a>
        ensures sheet { result.sheet ≡ sheet.entry }
        ensures slip { result.slip ≡ None }
        ensures scale { cell_of_one result.scale }
    {
        let cell = Cell::new(1).unwrap();
        Hand {
            sheet,
            slip: None,
            opened: 0,
            scale: Scale::Cell(cell),
        }
    }
}
