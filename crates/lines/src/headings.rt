// The line that says what sheet it is: `sheet W H L`. The metric line is passed on from `scales`.
ghost use Rattle.std.specs.Prelude.{◌≡◌};
ghost use Rattle.lexer.specs.LinesLeft.{line_of};
ghost use Rattle.lines.specs.Headings.{sheet_form, size_from, sized};

use lexer::faults::Fault;
use lexer::fields::Fields;
use lexer::kinds::{Number, Word};
use lexer::lines::Line;

// A family of metrics, and the line that asks for one.
pub use scales::headings::{MetricLine, metric_line};

// The sheet's width and height, and the height of its lines.
#[derive(Clone, Copy)]
pub struct SheetLine {
    pub width: u16,
    pub height: u16,
    pub line: u16,
}

// `W H L`, as it stands behind the keyword; the cursor moves past it.
pub fn take_size(fields: &mut Fields<'_>) -> Result<SheetLine, Fault>
    ensures value { sized fields.new.place result ≡ size_from fields.old.line.bytes.now fields.old.place }
    ensures line { fields.new.line ≡ fields.old.line }
{
    let width = fields.take(&Number)?;
    let height = fields.take(&Number)?;
    let rows = fields.take(&Number)?;
    Ok(SheetLine {
        width,
        height,
        line: rows,
    })
}

// `sheet W H L`
pub fn sheet_line(line: Line<'_>) -> Result<SheetLine, Fault>
    ensures { result ≡ sheet_form (line_of line.entry) }
{
    let mut fields = Fields::new(line);
    fields.take(&Word { text: b"sheet" })?;
    let size = take_size(&mut fields)?;
    fields.end()?;
    Ok(size)
}
