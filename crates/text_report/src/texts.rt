// One text line: what it measures to.
ghost use Rattle.std.specs.Prelude.{◌≡◌, ◌≤◌, length, Some};
ghost use Rattle.lexer.specs.LinesLeft.{line_of};
ghost use Rattle.text_report.specs.Measures.{most_words, most_cells, text_measure, text_line};

use crate::faults::FileFault;
use lexer::lines::Line;
use metrics::advances::Metrics;
use std::fmt;
use text::{Run, Text, Word};

// What a text measures to: how many words it has, and how wide it is on one line; and on which line of the file it stands.
#[derive(Clone, Copy)]
pub struct Measured {
    pub line: usize,
    pub words: usize,
    pub width: u64,
}

impl fmt::Display for Measured {
    ghost output = { λ m. Some (text_line m) };

    fn fmt<W: fmt::Write>(&self, f: &mut fmt::Formatter<W>) -> fmt::Result {
        let line = self.line;
        let words = self.words;
        let width = self.width;
        write!(f, "text {line} {words} {width}\n")
    }
}

// What the text on this line of the file measures to, in memory for the longest text.
// Words and cells stand apart: a lent slice keeps its length over a call with no clause, and a struct of both would need one.
pub(crate) fn measure_text<M: Metrics>(
    metrics: &M,
    number: usize,
    line: Line<'_>,
    words: &mut [Word],
    cells: &mut [Run],
) -> Result<Measured, FileFault>
    requires records { most_words ≤ length words.old }
    requires cells { most_cells ≤ length cells.old }
    ensures { result ≡ text_measure (M.advances metrics.now) number (line_of line.entry) }
{
    line.closed()?;
    let text = Text::new(metrics, line.bytes, words, cells)?;
    let count = text.count();
    let width = text.fold(0, count).width(text.space());
    Ok(Measured {
        line: number,
        words: count,
        width,
    })
}
