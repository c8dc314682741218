// The words of a text, one after another. A word is a longest run of ink: of bytes from '!' to '~'.
ghost use Rattle.std.specs.Prelude.{◌≡◌, ◌≤◌, [], length, drop, IfSome};
ghost use Rattle.std.specs.Iterator.{YieldsFirst, item_count};
ghost use Rattle.words.specs.Words.{ink, words_of, words_left, word_start, word_end, Next, Lies};

// Where a word stands in its text: its first byte's offset, and how many bytes it has.
#[derive(Clone, Copy, PartialEq, Eq, Debug)]
pub struct Span {
    pub place: usize,
    pub length: usize,
}

// Whether a byte belongs to a word.
fn is_ink(b: u8) -> bool
    ensures { result ≡ ink b }
{
    matches!(b as char, '!'..='~')
}

// The bytes of the text from `from` on; none where it ends before.
// By a slice, since an iterator's `skip` goes over each byte before `from`, and so for each word.
fn left(text: &[u8], from: usize) -> &[u8]
    ensures { result.now ≡ drop from text.now }
{
    text.get(from..).unwrap_or_default()
}

// The first offset from `from` on whose byte is ink; where no word is left, the end of the text or past it.
fn word_start(text: &[u8], from: usize) -> usize
    ensures start { result ≡ word_start text.now from }
    ensures none { length text.now ≤ result → words_left text.now from ≡ [] }
{
    from + left(text, from).iter().take_while(|b| !is_ink(**b)).count()
}

// The first offset from `from` on whose byte is not ink; where there is none, the end of the text.
// A `from` past the end is its own answer.
pub fn word_end(text: &[u8], from: usize) -> usize
    ensures { result ≡ word_end text.now from }
{
    from + left(text, from).iter().take_while(|b| is_ink(**b)).count()
}

// The first word of what is left of the text from `from` on. Go on at the word's end for the next one.
// A `from` within a word gives the rest of that word.
// The text and the offset are one value in `Words`; here they stand apart for a caller who keeps no more than the offset.
pub fn next_word(text: &[u8], from: usize) -> Option<Span>
    ensures next { Next text.now from result }
    ensures lies { IfSome result (Lies text.now from) }
{
    let place = word_start(text, from);
    let end = word_end(text, place);
    if place >= text.len() {
        return None;
    }
    Some(Span {
        place,
        length: end - place,
    })
}

// The words that are left of a text from an offset on, first to last.
// The text stays whole, since a place counts from its start.
#[derive(Drop)]
pub struct Words<'t> {
    pub text: &'t [u8],
    pub at: usize,
}

impl<'t> Words<'t> {
    // All words of the text.
    pub fn new(text: &'t [u8]) -> Words<'t>
        ensures text { result.text.now ≡ text.now }
        ensures all { result.at ≡ 0 }
    {
        Words { text, at: 0 }
    }
}

impl<'t> Iterator for Words<'t> {
    type Item = Span;

    ghost next_gives = { YieldsFirst (λ s. words_left s.text.now s.at) };

    ghost remaining = { item_count (λ s. words_left s.text.now s.at) };

    fn next(&mut self) -> Option<Span> {
        let word = next_word(self.text, self.at)?;
        self.at = word.place + word.length;
        Some(word)
    }
}

// How many words the text has.
pub fn count(text: &[u8]) -> usize
    ensures { result ≡ length (words_of text.now) }
{
    Words::new(text).count()
}

#[cfg(test)]
mod tests {
    use super::*;
    use std::test::Fail;

    #[test]
    fn a_word_is_a_run_of_ink(rt: HostRuntime) -> Result<(), Fail> {
        let text = b" At 9:30,\nwe met";
        assert_eq!(rt; count(text), 4);
        let time = Span {
            place: 4,
            length: 5,
        };
        assert_eq!(rt; next_word(text, 3), Some(time), "the comma belongs to it");
        Ok(())
    }

    #[test]
    fn words_come_one_after_another(rt: HostRuntime) -> Result<(), Fail> {
        let mut words = Words::new(b" to be");
        let [to, be] = [1, 4].map(|place| Span { place, length: 2 });
        assert_eq!(rt; words.next(), Some(to));
        assert_eq!(rt; words.next(), Some(be));
        assert_eq!(rt; words.next(), None);
        Ok(())
    }
}
