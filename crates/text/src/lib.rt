// Measured text: where the words of a text are, how far each moves the pen, and how wide any run of them is.
#![tactic(auto)]

// Why a text is not measured.
mod faults;
// The records of words, in a lent list.
mod records;
// A run of words, as an element of a segment tree.
mod runs;
// A measured text: making one, and what it answers.
mod texts;

pub use faults::{MOST_RUNS, MOST_WORDS, TextFault, Unmeasured, fault};
pub use records::Word;
pub use runs::{Room, Run, sums_are_held};
pub use texts::Text;
pub use texts::making::measure;
