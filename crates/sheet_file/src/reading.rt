// A whole file: its sheet is made, and the calls that its lines ask for are made on it.
ghost use Rattle.std.specs.Prelude.{◌≡◌, length, drop};
ghost use Rattle.items.specs.Spares.{Spares};
ghost use Rattle.sheet_file.specs.Cursors.{ahead, number};
ghost use Rattle.sheet_file.specs.Done.{fault_in, ParasDone, Goes};
ghost use Rattle.sheet_file.specs.Laid.{Laid};
ghost use Rattle.sheet_file.specs.Plans.{body_of, body_plan, no_size, stopped, file_plan};

use crate::cursors::Cursor;
use crate::headings::{Body, next_body, next_size};
use crate::setters::Setter;
use items::faults::{FileFault, Located};
use reaches::reach::Reach;
use rules::boxes::BoxRecord;
use sheet::answers::Finished;
use sheet::sheet::Sheet;
use sheet::sizes::SheetSize;
use text::{Run, Word};

// The most bytes of a file.
pub const LONGEST: usize = 32768;

// What comes of a file: the list of its sheet, with the boxes that were set, and the first fault, if there is one. It is no
// `Result`: the list is handed back in both cases.
#[derive(Clone, Copy)]
pub struct Reading<'a> {
    pub list: Finished<'a>,
    pub fault: Option<Located>,
}

// Sets the lines behind the first on a sheet of this width, up to the first fault.
fn lay_out(
    sheet: &mut Sheet<'_>,
    width: u32,
    lines: Cursor<'_>,
    words: &mut [Word],
    runs: &mut [Run],
) -> Result<(), Located>
    requires { number lines ≡ 2 }
    ensures spares { Spares sheet.old sheet.new }
    ensures told { Goes (λ es fs. ParasDone (body_plan (body_of width (length words.old) (length runs.old) (ahead lines.entry))) es fs (fault_in result)) sheet.old sheet.new }
{
    let mut cursor = lines;
    let Body { desk, count } = next_body(width, &mut cursor)?;
    let mut setter = Setter {
        sheet,
        desk,
        cursor,
        words,
        runs,
    };
    setter.set_paragraphs(count)
}

// A file without a sheet: one without rows is made, and nothing is written.
fn nothing<'a>(cells: &'a mut [Reach], list: &'a mut [BoxRecord], fault: Located) -> Reading<'a>
    ensures laid { Laid (stopped (no_size (length cells.old) (length list.old)) fault) result.list.boxes.now result.fault }
    ensures spare { result.list.spare.now ≡ drop (length result.list.boxes.now) list.old }
{
    let none = SheetSize {
        width: 0,
        height: 0,
        line: 0,
    };
    let sheet = Sheet::new(none, cells, list);
    Reading {
        list: sheet.finish(),
        fault: Some(fault),
    }
}

// Reads a file and lays out its sheet, up to the first fault. The rows of the sheet take the cells, its boxes the list;
// the words of a text are measured into the records and the cells for runs.
pub fn read<'a>(
    file: &[u8],
    cells: &'a mut [Reach],
    list: &'a mut [BoxRecord],
    words: &mut [Word],
    runs: &mut [Run],
) -> Reading<'a>
    ensures laid { Laid (file_plan file.now (length cells.old) (length words.old) (length runs.old) (length list.old)) result.list.boxes.now result.fault }
    ensures spare { result.list.spare.now ≡ drop (length result.list.boxes.now) list.old }
{
    if file.len() > LONGEST {
        let fault = FileFault::Long;
        return nothing(cells, list, Located { line: 0, fault });
    }
    let mut cursor = Cursor::new(file);
    // By a match, since `nothing` takes the cells and the list that the lines below take too.
    let size = match next_size(&mut cursor, cells.len()) {
        Ok(size) => size,
        Err(fault) => return nothing(cells, list, fault),
    };
    let mut sheet = Sheet::new(size, cells, list);
    let done = lay_out(&mut sheet, size.width, cursor, words, runs);
    Reading {
        list: sheet.finish(),
        fault: done.err(),
    }
}
