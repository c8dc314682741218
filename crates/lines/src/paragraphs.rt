// The line that a paragraph begins with: `para A B CLEAR K`.
ghost use Rattle.std.specs.Prelude.{◌≡◌};
ghost use Rattle.lexer.specs.LinesLeft.{line_of};
ghost use Rattle.lines.specs.Paragraphs.{para_form};

use crate::names::ClearName;
use lexer::faults::Fault;
use lexer::fields::Fields;
use lexer::kinds::{Number, Within, Word};
use lexer::lines::Line;
use shapes::sides::Clear;

// A paragraph's margins, the sides that it clears, and how many items follow.
#[derive(Clone, Copy)]
pub struct ParaLine {
    pub left: u16,
    pub right: u16,
    pub clear: Clear,
    pub items: u16,
}

// `para A B CLEAR K`, with K at most `most`.
pub fn para_line(line: Line<'_>, most: u16) -> Result<ParaLine, Fault>
    ensures { result ≡ para_form most (line_of line.entry) }
{
    let mut fields = Fields::new(line);
    fields.take(&Word { text: b"para" })?;
    let left = fields.take(&Number)?;
    let right = fields.take(&Number)?;
    let clear = fields.take(&ClearName)?;
    let items = fields.take(&Within { low: 0, high: most })?;
    fields.end()?;
    Ok(ParaLine {
        left,
        right,
        clear,
        items,
    })
}
