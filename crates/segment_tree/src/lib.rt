// A tree of joins over any kind of element, in a lent slice of cells: set one element, join a range, find the longest
// run that keeps within a limit, each in about as many steps as the number of elements has binary digits.
#![tactic(auto)]

// What an element is: how two are joined, and when one is within a limit.
mod element;
// The tree and its leaves, with their methods, and the way from an element to the end of its longest run.
mod segment;
// How many leaves a tree has, and so how many cells it takes.
mod powers;
// The writes to the slice of cells: set a leaf, join everything anew, make all empty.
mod cells;

pub use element::Element;
pub use powers::{enough, leaf_count_is_least};
pub use segment::leaves::Leaves;
pub use segment::runs::one_longest_run;
pub use segment::{NoElement, Tree};
