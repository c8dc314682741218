// What is printed of a file, with memory for the highest sheet, the longest text and 1,024 boxes.
ghost use Rattle.std.specs.Prelude.{◌≡◌, IfOk};
ghost use Rattle.sheet_report.specs.Reports.{Reports};

use fault_lines::tellings::FaultLine;
use printing::{Printable, print_at_front, wanted};
use reaches::reach::Reach;
use rules::boxes::{BoxRecord, LineBox};
use sheet::MOST_CELLS;
pub use sheet_file::reading::LONGEST;
use sheet_file::reading::read;
use std::alloc::{AllocError, Global};
use text::{MOST_RUNS, MOST_WORDS, Run, Word};

// The places of the list. Each program lends a list of its own, so the number stands in each.
const MOST_PLACES: usize = 1024;

// What is printed of this, in memory of just its length.
fn shown<P: Printable>(heap: Global, item: &P) -> Result<Vec<u8>, AllocError>
    ensures { IfOk result (λ v. v.items ≡ P.bytes item.now) }
{
    let mut out = vec![in heap; 0; wanted(item)]?;
    print_at_front(item, out.as_mut_slice()).unwrap();
    Ok(out)
}

// What is printed of a file: each box of its sheet and the total, or the first fault alone. The one other answer is that
// there is no memory left.
pub fn report(heap: Global, file: &[u8]) -> Result<Vec<u8>, AllocError>
    ensures { IfOk result (λ v. Reports file.now v.items) }
{
    let mut cells = [Reach::default(); MOST_CELLS];
    let mut list = [BoxRecord::Line(LineBox::default()); MOST_PLACES];
    let mut words = [Word::default(); MOST_WORDS];
    let mut runs = [Run::default(); MOST_RUNS];
    let reading = read(file, &mut cells, &mut list, &mut words, &mut runs);
    match reading.fault {
        Some(fault) => shown(heap, &FaultLine::from(fault)),
        None => shown(heap, &reading.list.boxes),
    }
}
