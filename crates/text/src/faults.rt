// Why a text is not measured.
ghost use Rattle.std.specs.Prelude.{◌≡◌, length, IfOk};
ghost use Rattle.std.specs.Result.{result_err};
ghost use Rattle.words.specs.Words.{words_of};
ghost use Rattle.text.specs.Fault.{cause_of, place_of, text_fault};
ghost use Rattle.text.specs.declared.faults.TextFault.TheVariants.{Metrics};

use crate::{Run, Word};
use metrics::Unfit;
use segment_tree::enough;
use words::alphabet::bad_byte;
use words::spans::count;

// The longest text that is measured, in bytes.
const LONGEST: usize = 8192;

// The records that its words may need, of which there are at most half as many as bytes.
pub const MOST_WORDS: usize = LONGEST / 2;

// The cells that the runs of so many words take, two for each.
pub const MOST_RUNS: usize = 2 * MOST_WORDS;

#[derive(Clone, Copy, PartialEq, Eq, Debug)]
pub enum TextFault {
    // No metrics could be made.
    Metrics,
    // At this offset stands the first byte that may not stand in a text.
    Byte { place: usize },
    // The text has too many bytes.
    Long,
    // There are too few records or cells for its words.
    Memory,
}

// A text that is not measured: why, and the records and the cells that were lent for it, as they were.
#[derive(Debug, Drop)]
pub struct Unmeasured<'a> {
    pub fault: TextFault,
    pub words: &'a mut [Word],
    pub cells: &'a mut [Run],
}

impl From<Unmeasured<'_>> for TextFault {
    ghost from_gives = { λ x y. y ≡ x.fault };

    fn from(back: Unmeasured<'_>) -> TextFault {
        back.fault
    }
}

impl From<Unfit> for TextFault {
    ghost from_gives = { λ _ y. y ≡ Metrics };

    fn from(_refusal: Unfit) -> TextFault {
        TextFault::Metrics
    }
}

impl TextFault {
    // The number by which the fault is known outside.
    // The numbers stand here, since a kind that holds a place has none by `as`.
    pub fn cause(self) -> u8
        ensures { result ≡ cause_of self }
    {
        match self {
            TextFault::Metrics => Unfit.number(),
            TextFault::Byte { .. } => 5,
            TextFault::Long => 6,
            TextFault::Memory => 7,
        }
    }

    // The offset in the text that it is about, or 0 where it is about none.
    pub fn place(self) -> usize
        ensures { result ≡ place_of self }
    {
        match self {
            TextFault::Byte { place } => place,
            _ => 0,
        }
    }
}

// How many words there are to measure, or the first fault that applies to measuring this text into these records and
// cells. It writes nothing. The three stand apart as in `fault` and `measure`, whose callers hold them apart.
pub(crate) fn admitted(text: &[u8], words: &[Word], cells: &[Run]) -> Result<usize, TextFault>
    ensures fault { result_err result ≡ text_fault text.now (length words.now) (length cells.now) }
    ensures count { IfOk result (λ n. n ≡ length (words_of text.now)) }
{
    if text.len() > LONGEST {
        return Err(TextFault::Long);
    }
    if let Some(place) = bad_byte(text) {
        return Err(TextFault::Byte { place });
    }
    let count = count(text);
    if count > words.len() || !enough(cells.len(), count) {
        return Err(TextFault::Memory);
    }
    Ok(count)
}

// The first fault that applies to measuring this text into these records and cells. It writes nothing.
pub fn fault(text: &[u8], words: &[Word], cells: &[Run]) -> Option<TextFault>
    ensures { result ≡ text_fault text.now (length words.now) (length cells.now) }
{
    admitted(text, words, cells).err()
}
