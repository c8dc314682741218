// All lines of a file, up to the first that is refused.
ghost use Rattle.std.specs.Prelude.{◌≡◌, ◌+◌, ◌^◌, ◌<◌, length, alloc_error};
ghost use Rattle.lexer.specs.Lines.{file_lines};
ghost use Rattle.lexer.specs.LinesLeft.{left};
ghost use Rattle.text_report.specs.declared.reading.Stop.TheVariants.{Refused, Memory};
ghost use Rattle.text_report.specs.Reading.{text_measures, file_measures};
ghost use Rattle.text_report.specs.Stops.{Tells};

use crate::faults::{FileFault, Located};
use crate::headings::asked;
use crate::texts::{Measured, measure_text};
use fault_lines::locations::on_line;
use lexer::lines::Lines;
use metrics::advances::Metrics;
use std::alloc::{AllocError, AllocFailed, Global};
use text::{MOST_RUNS, MOST_WORDS, Run, Word};

// Why the reading of a file stops.
#[derive(Clone, Copy)]
pub enum Stop {
    // A line is refused.
    Refused(Located),
    // There is no memory left.
    Memory(AllocError),
}

impl From<Located> for Stop {
    ghost from_gives = { λ x y. y ≡ Refused x };

    fn from(fault: Located) -> Stop {
        Stop::Refused(fault)
    }
}

impl<T: Drop> From<AllocFailed<T>> for Stop {
    ghost from_gives = { λ _ y. y ≡ Memory alloc_error };

    fn from(back: AllocFailed<T>) -> Stop {
        Stop::Memory(AllocError::from(back))
    }
}

// What the texts on the lines that are left measure to, in memory for the longest text; the line before them is line 1 of the file.
fn texts<M: Metrics>(heap: Global, metrics: &M, lines: Lines<'_>) -> Result<Vec<Measured>, Stop>
    requires { 1 + length (left lines) < 2 ^ 64 }
    ensures { Tells (text_measures (M.advances metrics.now) 2 (left lines.entry)) result }
{
    let mut words = [Word::default(); MOST_WORDS];
    let mut cells = [Run::default(); MOST_RUNS];
    let mut texts = Vec::new(heap);
    for (before, line) in lines.enumerate() {
        let number = 2 + before;
        let text = on_line(
            number,
            measure_text(metrics, number, line, &mut words, &mut cells),
        )?;
        texts.push(text)?;
    }
    Ok(texts)
}

// What the texts of a file measure to.
pub fn measures(heap: Global, file: &[u8]) -> Result<Vec<Measured>, Stop>
    ensures { Tells (file_measures (file_lines file.now)) result }
{
    let mut lines = Lines::new(file);
    let first = on_line(1, lines.next().ok_or(FileFault::NoMetric))?;
    let metrics = on_line(1, asked(first))?;
    texts(heap, &metrics, lines)
}
