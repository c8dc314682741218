// The lines that say how many of something follow: `shapes N` and `paragraphs N`.
ghost use Rattle.std.specs.Prelude.{◌≡◌, ◌≤◌, IfOk};
ghost use Rattle.lexer.specs.LinesLeft.{line_of};
ghost use Rattle.lines.specs.Counts.{count_form, shapes_form, paragraphs_form};

use lexer::faults::Fault;
use lexer::fields::Fields;
use lexer::kinds::{Within, Word};
use lexer::lines::Line;

// This keyword, and a number of at most `most`.
fn count_line(line: Line<'_>, keyword: &[u8], most: u16) -> Result<u16, Fault>
    ensures form { result ≡ count_form keyword.now most (line_of line.entry) }
    ensures few { IfOk result (λ n. n ≤ most) }
{
    let mut fields = Fields::new(line);
    fields.take(&Word { text: keyword })?;
    let count = fields.take(&Within { low: 0, high: most })?;
    fields.end()?;
    Ok(count)
}

// `shapes N`, with N at most `most`.
pub fn shapes_line(line: Line<'_>, most: u16) -> Result<u16, Fault>
    ensures form { result ≡ shapes_form most (line_of line.entry) }
    ensures few { IfOk result (λ n. n ≤ most) }
{
    count_line(line, b"shapes", most)
}

// `paragraphs N`, with N at most `most`.
pub fn paragraphs_line(line: Line<'_>, most: u16) -> Result<u16, Fault>
    ensures { result ≡ paragraphs_form most (line_of line.entry) }
{
    count_line(line, b"paragraphs", most)
}
