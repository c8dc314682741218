// What a line of a script is read as.
ghost use Rattle.std.specs.Prelude.{◌≡◌, ◌≤◌, IfSome, IfOk};
ghost use Rattle.lexer.specs.LinesLeft.{line_of};
ghost use Rattle.calls.specs.Lines.{most_places, size_form, opening_form, plain_form, said, passage_form, word_form};

use crate::asks::{Ask, Opening, Passage, Size, StairsPanel};
use lexer::faults::{Cause, Fault};
use lexer::fields::Fields;
use lexer::kinds::{Number, Within, Word};
use lexer::lines::Line;
use lines::flights::take_flight;
use lines::headings::{SheetLine, take_size};
use lines::items::PlainLine;
use lines::names::{ClearName, SideName};
use places::parts::Span;
use scales::headings::metric_line;
use sheet::sizes::SheetSize;

// The most places of a list.
pub const MOST_PLACES: u16 = 1024;

// `sheet W H L PLACES`
fn read_size(line: Line<'_>) -> Result<Size, Fault>
    ensures form { result ≡ size_form (line_of line.entry) }
    ensures few { IfOk result (λ s. s.places ≤ most_places) }
{
    let mut fields = Fields::new(line);
    fields.take(&Word { text: b"sheet" })?;
    let SheetLine {
        width,
        height,
        line: rows,
    } = take_size(&mut fields)?;
    let places = fields.take(&Within {
        low: 0,
        high: MOST_PLACES,
    })?;
    fields.end()?;
    Ok(Size {
        sheet: SheetSize {
            width: u32::from(width),
            height: u32::from(height),
            line: u32::from(rows),
        },
        places,
    })
}

// `open L R CLEAR`
fn read_opening(line: Line<'_>) -> Result<Opening, Fault>
    ensures { result ≡ opening_form (line_of line.entry) }
{
    let mut fields = Fields::new(line);
    fields.take(&Word { text: b"open" })?;
    let from = fields.take(&Number)?;
    let to = fields.take(&Number)?;
    let clear = fields.take(&ClearName)?;
    fields.end()?;
    Ok(Opening {
        margins: Span {
            from: u32::from(from),
            to: u32::from(to),
        },
        clear,
    })
}

// `box SIDE CLEAR W P`
fn read_plain(line: Line<'_>) -> Result<PlainLine, Fault>
    ensures { result ≡ plain_form (line_of line.entry) }
{
    let mut fields = Fields::new(line);
    fields.take(&Word { text: b"box" })?;
    // By its fields: over `take_plain` of `lines` the proof of this contract doesn't close by itself.
    let side = fields.take(&SideName)?;
    let clear = fields.take(&ClearName)?;
    let width = fields.take(&Number)?;
    let height = fields.take(&Number)?;
    fields.end()?;
    Ok(PlainLine {
        side,
        clear,
        width,
        height,
    })
}

// Just this word, as `end`.
fn read_word(line: Line<'_>, word: &[u8]) -> Result<(), Fault>
    ensures { result ≡ word_form word.now (line_of line.entry) }
{
    let mut fields = Fields::new(line);
    fields.take(&Word { text: word })?;
    fields.end()
}

// `text FROM REST`: all bytes behind the space after FROM are the text's, and there may be none.
fn read_passage<'a>(line: Line<'a>) -> Result<Passage<'a>, Fault>
    ensures { said result ≡ passage_form (line_of line.entry) }
{
    let mut fields = Fields::new(line);
    fields.take(&Word { text: b"text" })?;
    let from = fields.take(&Number)?;
    let missing = fields.fault(Cause::Field);
    let bytes = line.bytes.get(missing.place..).ok_or(missing)?;
    Ok(Passage { from, bytes })
}

// `steps SIDE CLEAR K W`, and then the rows and the extent of each of the K steps.
fn read_stairs(line: Line<'_>) -> Result<StairsPanel, Fault> {
    let mut fields = Fields::new(line);
    fields.take(&Word { text: b"steps" })?;
    let side = fields.take(&SideName)?;
    let clear = fields.take(&ClearName)?;
    let flight = take_flight(&mut fields)?;
    fields.end()?;
    Ok(StairsPanel {
        side,
        clear,
        flight,
    })
}

// The line with its line end: the last line counts with or without it.
fn whole<'a>(line: Line<'a>) -> Line<'a> {
    Line {
        ended: true,
        ..line
    }
}

// The size that a `sheet` line says.
pub(crate) fn size_of(line: Line<'_>) -> Option<Size>
    ensures { IfSome result (λ s. s.places ≤ most_places) }
{
    read_size(whole(line)).ok()
}

// What a line asks for, or nothing where it is of no form.
pub(crate) fn read<'a>(line: Line<'a>) -> Option<Ask<'a>> {
    let line = whole(line);
    let ask = match Fields::new(line).next()? {
        b"sheet" => Ask::Sheet(read_size(line).ok()?),
        b"metric" => Ask::Metric(metric_line(line).ok()?),
        b"open" => Ask::Open(read_opening(line).ok()?),
        b"box" => Ask::Plain(read_plain(line).ok()?),
        b"steps" => Ask::Stairs(read_stairs(line).ok()?),
        b"text" => Ask::Text(read_passage(line).ok()?),
        b"end" => {
            read_word(line, b"end").ok()?;
            Ask::End
        },
        b"totals" => {
            read_word(line, b"totals").ok()?;
            Ask::Totals
        }
        _ => return None,
    };
    Some(ask)
}
