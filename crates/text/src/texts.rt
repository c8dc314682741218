// A measured text.
ghost use Rattle.std.specs.Prelude.{◌≡◌, ℕ, ◌<◌, ◌≤◌, map, length, take, slice_index_or};
ghost use Rattle.segment_tree.specs.Trees.{elements};
ghost use Rattle.text.specs.Measure.{no_word, run_of, FitAdvance};

use crate::{Run, Word};
use segment_tree::Tree;

mod calls;
pub mod making;

// The records of the words, of which the first `runs.count()` are in use, the tree of the words' runs, and the advance of
// the space. It is made by `Text::new` and `measure` alone, and only read after that.
// The list is whole, since the contracts of those two also say what its other records hold.
#[derive(Drop)]
pub struct Text<'a> {
    words: &'a [Word],
    runs: Tree<'a, Run>,
    space: u8,
    // The tree's elements are the runs of the words in use.
    ghost listed: { runs.count ≤ length words.now },
    ghost alike: { elements runs ≡ map run_of (take runs.count words.now) },
    // Each word moves the pen, and none farther than the longest text of the widest bytes would.
    ghost wide: { (k : ℕ) → k < runs.count → FitAdvance (slice_index_or words.now k no_word).advance },
    ghost spaced: { 1 ≤ space },
}
