// A new sheet.
ghost use Rattle.std.specs.Prelude.{◌≡◌, ◌≤◌, length};
ghost use Rattle.rows.specs.Fit.{Fit};
ghost use Rattle.sheet.specs.Stores.{view};
ghost use Rattle.sheet.specs.Fresh.{new_refusal, empty_view, Fresh};

use crate::clearance::Bottoms;
use crate::sizes::SheetSize;
use crate::store::Store;
use reaches::reach::Reach;
use rows::Rows;
use rules::boxes::BoxRecord;
use rules::refusals::Refusal;
use segment_tree::enough;

// The greatest width and height, and the greatest height of a line. They are a sheet's own, though those of a shape are
// the same.
const MOST_UNITS: u32 = 4096;

const MOST_LINE: u32 = 255;

// The cells that the highest sheet takes: two for each of its rows.
pub const MOST_CELLS: usize = 8192;

// Why no sheet of this size can be made over so many cells.
pub fn fault(size: SheetSize, cells: usize) -> Option<Refusal>
    ensures { result ≡ new_refusal size cells }
{
    let is_within = (1..=MOST_UNITS).contains(&size.width)
        && (1..=MOST_UNITS).contains(&size.height)
        && (1..=MOST_LINE).contains(&size.line);
    if !is_within {
        return Some(Refusal::BadSize);
    }
    // A `usize` has 64 bits, so the cast loses nothing; std has no `From` that says so.
    (!enough(cells, size.height as usize)).then_some(Refusal::FewCells)
}

// A sheet with nothing on it, over these rows and this list.
fn empty<'a>(rows: Rows<'a>, list: &'a mut [BoxRecord], line: u32) -> Store<'a>
    requires rows { Fit rows }
    requires low { line ≤ 255 }
    ensures view { view result ≡ empty_view rows.entry list.old line }
    ensures named { result.list.ghost_name ≡ list.entry.ghost_name }
{
    Store {
        rows,
        list,
        line,
        used: 0,
        top: 0,
        bottoms: Bottoms::default(),
        cursor: 0,
        count: 0,
        para: None,
        current: None,
    }
}

impl<'a> Store<'a> {
    // A new sheet. Of a size that `fault` refuses it makes one with no rows, and writes nothing.
    pub(crate) fn new(
        size: SheetSize,
        cells: &'a mut [Reach],
        list: &'a mut [BoxRecord],
    ) -> Store<'a>
        ensures fresh { Fresh size cells.old list.old result }
        ensures named { result.list.ghost_name ≡ list.entry.ghost_name }
    {
        if fault(size, cells.len()).is_some() {
            return empty(Rows::vacant(cells), list, 1);
        }
        let rows = Rows::new(cells, size.width, size.height).unwrap();
        empty(rows, list, size.line)
    }
}
