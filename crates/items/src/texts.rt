// A text that a line asks for.
ghost use Rattle.std.specs.Prelude.{◌≡◌, length};
ghost use Rattle.sheet.specs.Stores.{flow_answer};
ghost use Rattle.items.specs.Asked.{judged, Asked};
ghost use Rattle.items.specs.Calls.{text_call};
ghost use Rattle.items.specs.Spares.{Keeps};

use crate::faults::{FileFault, SheetFault};
use metrics::advances::Metrics;
use sheet::answers::Flowed;
use sheet::sheet::Sheet;
use text::{Run, Text, Word};

// Whether all words were set.
fn complete(flowed: Flowed) -> Result<(), FileFault>
    ensures { result ≡ judged (flow_answer flowed) }
{
    let words = flowed.set;
    flowed.stopped.map_or(
        Ok(()),
        |refusal| Err(FileFault::from(SheetFault { refusal, words })),
    )
}

// Measures the text and sets its words.
pub(crate) fn flow<M: Metrics>(
    sheet: &mut Sheet<'_>,
    metrics: &M,
    text: &[u8],
    words: &mut [Word],
    runs: &mut [Run],
) -> Result<(), FileFault>
    ensures keeps { Keeps sheet.old sheet.new }
    ensures asked { Asked (text_call (M.advances metrics.now) (length words.old) (length runs.old) text.now) result sheet.old sheet.new }
{
    let measured = Text::new(metrics, text, words, runs)?;
    complete(sheet.flow(&measured, 0))
}
