// What a measured text answers.
ghost use Rattle.std.specs.Prelude.{◌≡◌, length, IfSome};
ghost use Rattle.segment_tree.specs.Joins.{fold_of};
ghost use Rattle.segment_tree.specs.LongestRun.{Longest};
ghost use Rattle.std.specs.List.{slice_get};
ghost use Rattle.text.specs.Measure.{FitAdvance};
ghost use Rattle.text.specs.Run.{no_run, longer, has_room};
ghost use Rattle.text.specs.Text.{words_in, runs_in};

use crate::{Room, Run, Text, Word};

impl<'a> Text<'a> {
    // How many words there are.
    pub fn count(&self) -> usize
        ensures { result ≡ length (words_in self.now) }
    {
        self.runs.count()
    }

    // The advance of the space.
    pub fn space(&self) -> u8
        ensures { result ≡ self.now.space }
    {
        self.space
    }

    // The record of word i, counted from 0.
    pub fn word(&self, i: usize) -> Option<Word>
        ensures answer { result ≡ slice_get (words_in self.now) i }
        ensures fit { IfSome result (λ w. FitAdvance w.advance) }
    {
        self.words[..self.count()].get(i).copied()
    }

    // The words a to b - 1 as one run. A b past the last word counts as the number of words.
    pub fn fold(&self, a: usize, b: usize) -> Run
        ensures { result ≡ fold_of no_run longer (runs_in self.now) a b }
    {
        self.runs.fold(a, b)
    }

    // The greatest end to which the words from `from` on have room on one line, or `from` where not one word has.
    pub fn longest_run(&self, from: usize, room: &Room) -> usize
        ensures { Longest no_run longer (λ x. has_room x room.now) (runs_in self.now) from result }
    {
        self.runs.longest_run(from, room)
    }
}
