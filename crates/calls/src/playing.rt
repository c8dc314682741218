// All lines of a script, one after another.
ghost use Rattle.std.specs.Prelude.{◌≡◌, ◌≤◌, ◌++◌, IfSome, IfOk, string_bytes, OnOk};
ghost use Rattle.calls.specs.Lines.{most_places};
ghost use Rattle.calls.specs.Shown.{row_line};

use crate::asks::Size;
use crate::hands::Hand;
use crate::reading::{MOST_PLACES, size_of};
use crate::replies::{Denied, Reply, Row};
use lexer::lines::Lines;
use reaches::reach::Reach;
use rules::boxes::{BoxRecord, LineBox};
use sheet::sheet::Sheet;
use sheet::{MOST_CELLS, fault};
use std::alloc::{AllocError, Global};
use text::{MOST_RUNS, MOST_WORDS, Run, Word};

// The lines and what is printed stay two arguments: what is printed is handed on without the lines, too.

// Adds a line to what is printed.
fn put(out: &mut String, row: Row) -> Result<(), AllocError>
    ensures { OnOk result (string_bytes out.new ≡ string_bytes out.old ++ row_line row) }
{
    write!(out, "{row}")
}

// Answers the lines before the first `sheet` line, and then that line's size, if there is such a line.
fn skip(lines: &mut Lines<'_>, out: &mut String) -> Result<Option<Size>, AllocError>
    ensures { IfOk result (λ o. IfSome o (λ s. s.places ≤ most_places)) }
{
    for line in lines.by_ref() {
        if let Some(size) = size_of(line) {
            return Ok(Some(size));
        }
        put(out, Row::Answer(Ok(Reply::Skipped), None))?;
    }
    Ok(None)
}

// Answers the lines that are left, with memory for the longest text.
fn answer(hand: &mut Hand<'_>, lines: Lines<'_>, out: &mut String) -> Result<(), AllocError> {
    let mut words = [Word::default(); MOST_WORDS];
    let mut runs = [Run::default(); MOST_RUNS];
    for line in lines {
        put(out, hand.turn(line, &mut words, &mut runs))?;
    }
    Ok(())
}

// The boxes of the sheet, in the order of its list, and what they come to.
fn list_boxes(sheet: &Sheet<'_>, out: &mut String) -> Result<(), AllocError> {
    for record in sheet.boxes() {
        put(out, Row::Box(*record))?;
    }
    put(out, Row::Total(sheet.totals()))
}

// Makes a sheet of this size, with cells for the highest one, answers the `sheet` line and then those that are left, and
// lists the boxes. A slip in hand has to be spent, also where there is no memory left for what is printed.
fn lay_out(size: Size, lines: Lines<'_>, out: &mut String) -> Result<(), AllocError>
    requires { size.places ≤ most_places }
{
    let mut cells = [Reach::default(); MOST_CELLS];
    // The cast, since the length of an array is a constant, and `usize::from` gives none.
    let mut list = [BoxRecord::Line(LineBox::default()); MOST_PLACES as usize];
    let places = usize::from(size.places);
    let first = fault(size.sheet, cells.len()).map_or(
        Ok(Reply::Sheet),
        |refusal| Err(Denied::from(refusal)),
    );
    put(out, Row::Answer(first, None))?;
    let sheet = Sheet::new(size.sheet, &mut cells, &mut list[0..places]);
    let mut hand = Hand::new(sheet);
    let printed = answer(&mut hand, lines, out);
    let sheet = hand.finish();
    printed?;
    list_boxes(&sheet, out)
}

// What is printed of a script: a line for each of its lines. The one other answer is that there is no memory left.
pub(crate) fn play(heap: Global, script: &[u8]) -> Result<String, AllocError> {
    let mut lines = Lines::new(script);
    let mut out = String::new(heap);
    if let Some(size) = skip(&mut lines, &mut out)? {
        lay_out(size, lines, &mut out)?;
    }
    Ok(out)
}
