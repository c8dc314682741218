// The metric line, with which a file begins: `metric cell C` or `metric table Q`.
ghost use Rattle.std.specs.Prelude.{◌≡◌};
ghost use Rattle.lexer.specs.LinesLeft.{line_of};
ghost use Rattle.text_report.specs.Headings.{advances_of, advances_in};

use crate::faults::FileFault;
use lexer::lines::Line;
use scales::Scale;
use scales::headings::metric_line;

// The metrics that this line asks for.
pub fn asked(line: Line<'_>) -> Result<Scale, FileFault>
    ensures { advances_in result ≡ advances_of (line_of line.entry) }
{
    Ok(metric_line(line)?.scale()?)
}
