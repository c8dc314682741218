// Measuring a text.
ghost use Rattle.std.specs.Prelude.{◌≡◌, ◌*◌, ◌≤◌, map, length, take, drop, IfErr};
ghost use Rattle.segment_tree.specs.LeafCount.{leaf_count};
ghost use Rattle.segment_tree.specs.Trees.{elements, laid, KeptLeaves};
ghost use Rattle.text.specs.Measure.{run_of};
ghost use Rattle.text.specs.Text.{Measures, Makes};

use crate::faults::{Unmeasured, admitted};
use crate::records::record_all;
use crate::{Run, Text, Word};
use metrics::advances::Metrics;
use segment_tree::{Leaves, Tree};

// Writes the run of each word as a leaf.
fn lay_runs(runs: &mut Leaves<'_, Run>, words: &[Word])
    requires { runs.old.count ≡ length words.now }
    ensures kept { KeptLeaves runs.old runs.new }
    ensures after { laid runs.new ≡ map run_of words.now }
{
    for (i, word) in words.iter().enumerate() {
        let run = Run {
            advance: word.advance,
            count: 1,
        };
        runs.lay(i, run).unwrap();
    }
}

// The tree of the runs of these words.
fn tree_of<'a>(words: &[Word], cells: &'a mut [Run]) -> Tree<'a, Run>
    requires { 2 * leaf_count (length words.now) ≤ length cells.old }
    ensures count { result.count ≡ length words.now }
    ensures after { elements result ≡ map run_of words.now }
    ensures rest { drop (2 * leaf_count (length words.now)) result.cells.now ≡ drop (2 * leaf_count (length words.now)) cells.old }
{
    let mut runs = Leaves::new(cells, words.len()).unwrap();
    lay_runs(&mut runs, words);
    runs.join_all()
}

impl<'a> Text<'a> {
    // Measures a text into a list of records and the cells of a tree, from the first of each on.
    // Where `fault` refuses the text, it hands both back as they were.
    pub fn new<M: Metrics>(
        metrics: &M,
        text: &[u8],
        words: &'a mut [Word],
        cells: &'a mut [Run],
    ) -> Result<Text<'a>, Unmeasured<'a>>
        ensures made { Makes (M.advances metrics.now) text.now words.old cells.old result }
        ensures words { IfErr result (λ u. u.words.ghost_name ≡ words.entry.ghost_name) }
        ensures cells { IfErr result (λ u. u.cells.ghost_name ≡ cells.entry.ghost_name) }
    {
        // By hand, since a closure of `map_err` would take the records and cells that the other arm writes.
        match admitted(text, words, cells) {
            Err(fault) => Err(Unmeasured {
                fault,
                words,
                cells,
            }),
            Ok(count) => {
                record_all(metrics, text, words);
                let runs = tree_of(&words[..count], cells);
                let space = metrics.advance(b' ');
                Ok(Text { words, runs, space })
            }
        }
    }
}

// Measures a text as `Text::new` does, but of a text that `fault` refuses it makes a text of no words, and writes nothing.
pub fn measure<'a, M: Metrics>(
    metrics: &M,
    text: &[u8],
    words: &'a mut [Word],
    cells: &'a mut [Run],
) -> Text<'a>
    ensures { Measures (M.advances metrics.now) text.now words.old cells.old result }
{
    // By hand, since a closure over an `Unmeasured`, which holds the records and cells, is not covered.
    match Text::new(metrics, text, words, cells) {
        Ok(text) => text,
        Err(Unmeasured { words, cells, .. }) => Text {
            words,
            runs: Tree::vacant(cells),
            space: metrics.advance(b' '),
        },
    }
}

#[cfg(test)]
mod tests {
    use super::*;
    use crate::TextFault;
    use metrics::cells::Cell;
    use std::test::Fail;

    #[test]
    fn two_words_of_three_bytes(rt: HostRuntime) -> Result<(), Fail> {
        let metrics = Cell::new(5)?;
        let mut words = [Word::default(); 2];
        let mut cells = [Run::default(); 4];
        let text = measure(&metrics, b"one two", &mut words, &mut cells);
        assert_eq!(rt; text.count(), 2);
        assert_eq!(rt; text.fold(0, 2).width(text.space()), 35);
        let last = text.word(1).ok_or("no second word")?;
        assert!(rt; last.place == 4 && last.advance == 15);
        Ok(())
    }

    #[test]
    fn a_refused_text_hands_its_memory_back(rt: HostRuntime) -> Result<(), Fail> {
        let metrics = Cell::new(5)?;
        let mut words = [Word::default(); 1];
        let mut cells = [Run::default(); 4];
        match Text::new(&metrics, b"one two", &mut words, &mut cells) {
            Ok(_) => return Err(Fail::new("two words in one record")),
            Err(back) => assert_eq!(rt; back.fault, TextFault::Memory),
        }
        let text = Text::new(&metrics, b"one", &mut words, &mut cells)?;
        assert_eq!(rt; text.count(), 1);
        assert_eq!(rt; text.fold(0, 1).advance, 15);
        Ok(())
    }
}
