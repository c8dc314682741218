// The line that asks for a metrics: `metric cell C` or `metric table Q`.
ghost use Rattle.std.specs.Prelude.{◌≡◌};
ghost use Rattle.lexer.specs.LinesLeft.{line_of};
ghost use Rattle.scales.specs.Headings.{metric_form};
ghost use Rattle.scales.specs.Scales.{family_advances, made, Makes};

use crate::names::FamilyName;
use crate::{Family, Scale};
use lexer::faults::Fault;
use lexer::fields::Fields;
use lexer::kinds::{Number, Word};
use lexer::lines::Line;
use metrics::Unfit;

// A family of metrics, and the advance of its cell or the size of its table.
#[derive(Clone, Copy)]
pub struct MetricLine {
    pub family: Family,
    pub number: u16,
}

impl MetricLine {
    // The metrics that the line asks for, if there is such a one.
    pub fn scale(self) -> Result<Scale, Unfit>
        ensures advances { made result ≡ family_advances self.family self.number }
        ensures kind { Makes self.family self.number result }
    {
        Scale::new(self.family, self.number)
    }
}

// `metric cell C` or `metric table Q`. Whether there is such a metrics is left open.
pub fn metric_line(line: Line<'_>) -> Result<MetricLine, Fault>
    ensures { result ≡ metric_form (line_of line.entry) }
{
    let mut fields = Fields::new(line);
    fields.take(&Word { text: b"metric" })?;
    let family = fields.take(&FamilyName)?;
    let number = fields.take(&Number)?;
    fields.end()?;
    Ok(MetricLine { family, number })
}
