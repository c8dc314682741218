// The records of a text's words: place, length and advance of each, in a lent list.
ghost use Rattle.std.specs.Prelude.{◌≡◌, ◌≤◌, length};
ghost use Rattle.text.specs.Fault.{longest_text};
ghost use Rattle.text.specs.Measure.{advance_of, word_of, measured, laid};
ghost use Rattle.words.specs.Words.{end, words_of};

use metrics::advances::Metrics;
use words::spans::{Span, Words};

// Where a word stands in its text, how many bytes it has, and how far it moves the pen.
#[derive(Clone, Copy, PartialEq, Eq, Default, Debug)]
pub struct Word {
    pub place: u32,
    pub length: u32,
    pub advance: u32,
}

// How far these bytes move the pen, one after another.
fn advance<M: Metrics>(metrics: &M, bytes: &[u8]) -> u32
    requires { length bytes.now ≤ longest_text }
    ensures { result ≡ advance_of (M.advances metrics.now) bytes.now }
{
    bytes
        .iter()
        .map(|byte| u32::from(metrics.advance(*byte)))
        .sum()
}

// The record of the word that stands there.
// The casts are proved to lose nothing; `try_from` would only add an `unwrap`.
fn record<M: Metrics>(metrics: &M, text: &[u8], span: Span) -> Word
    requires short { length text.now ≤ longest_text }
    requires within { end span ≤ length text.now }
    ensures { result ≡ word_of (M.advances metrics.now) text.now span }
{
    let place = span.place;
    let end = place + span.length;
    Word {
        place: place as u32,
        length: span.length as u32,
        advance: advance(metrics, &text[place..end]),
    }
}

// Writes the record of each word, from the first place of the list on.
// It writes by index: of a list that is lent to `zip`, a proof knows afterwards no more than its length.
pub(crate) fn record_all<M: Metrics>(metrics: &M, text: &[u8], words: &mut [Word])
    requires short { length text.now ≤ longest_text }
    requires room { length (words_of text.now) ≤ length words.old }
    ensures { words.new ≡ laid (measured (M.advances metrics.now) text.now) words.old }
{
    for (i, span) in Words::new(text).enumerate() {
        words[i] = record(metrics, text, span);
    }
}
