// The report of a file.
ghost use Rattle.std.specs.Prelude.{◌≡◌, IfOk, string_bytes};
ghost use Rattle.text_report.specs.Report.{report_of};

use crate::printing::list;
use crate::reading::{Stop, measures};
use fault_lines::tellings::FaultLine;
use std::alloc::{AllocError, Global};

// What is reported of a file: a line for each of its texts and the total, or its first fault alone.
// The one other answer is that there is no memory left. The three arms do three things: list, tell a fault, and hand an error on.
pub fn report(heap: Global, file: &[u8]) -> Result<String, AllocError>
    ensures { IfOk result (λ s. string_bytes s ≡ report_of file.now) }
{
    match measures(heap, file) {
        Ok(texts) => list(heap, texts.as_slice()),
        Err(Stop::Refused(located)) => format!(in heap; "{}", FaultLine::from(located)),
        Err(Stop::Memory(error)) => Err(error),
    }
}
