// Setting the words of a text.
ghost use Rattle.std.specs.Prelude.{◌≡◌, ◌≤◌, true, is_some, Some};
ghost use Rattle.rules.specs.Runs.{flows};
ghost use Rattle.sheet.specs.Told.{Told, Flowing};
ghost use Rattle.sheet.specs.Stores.{view, Sets, advances_in, flow_answer};

use crate::answers::Flowed;
use crate::store::Store;
use places::parts::Line;
use rules::paragraphs::Paragraph;
use rules::refusals::Refusal;
use text::{Room, Text};

impl<'a> Store<'a> {
    // Joins to the open line, at once, the words from `from` on that it has room for, and answers which comes next.
    fn stretch(&mut self, para: Paragraph, text: &Text<'_>, from: usize) -> usize
        requires { self.old.para ≡ Some para }
        ensures on { from ≤ result }
        ensures sets { Sets self.old self.new }
        ensures account { Flowing para text.now.space (advances_in text.now) from result (view self.old) (view self.new) }
    {
        let Some(words) = self.current else {
            return from;
        };
        let space = text.space();
        let Some(width) = self.room_left(words, para.margins, space) else {
            return from;
        };
        let to = text.longest_run(from, &Room { width, space });
        if to <= from {
            return from;
        }
        let run = text.fold(from, to);
        // The cast is proved to lose nothing; `try_from` would only add an `unwrap`.
        self.current = Some(Line {
            top: words.top,
            used: words.used + u32::from(space) + run.width(space) as u32,
            words: words.words + run.count,
        });
        to
    }

    // Sets the words from a given one on, up to the first that is refused.
    pub(crate) fn flow(&mut self, text: &Text<'_>, from: usize) -> Flowed
        ensures sets { Sets self.old self.new }
        ensures same { result.set ≡ 0 → is_some result.stopped ≡ true → view self.new ≡ view self.old }
        ensures account { Told (flows (advances_in text.now) text.now.space from) (flow_answer result) (view self.old) (view self.new) }
    {
        let Some(para) = self.para else {
            return Flowed {
                set: 0,
                stopped: Some(Refusal::NoParagraph),
            };
        };
        let count = text.count();
        let mut i = from;
        // A round sets all words that a line has room for, so it goes on by more than one.
        while i < count {
            let word = text.word(i).unwrap();
            if let Err(refusal) = self.word(para, word.advance, text.space()) {
                return Flowed {
                    set: i - from,
                    stopped: Some(refusal),
                };
            }
            i = self.stretch(para, text, i + 1);
        }
        Flowed {
            set: i - from,
            stopped: None,
        }
    }
}
