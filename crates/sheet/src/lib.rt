// The sheet: paragraphs, panels and lines over lent memory, each call bearing the law over all calls before it.
#![tactic(auto)]

// What the calls of a sheet answer, and what it leaves.
pub mod answers;

// The bottoms of the panels of each side.
pub(crate) mod clearance;

// The sheet, with its invariant, and its calls.
pub mod sheet;

// The size of a sheet.
pub mod sizes;

// The right to end a paragraph.
pub mod slips;

// What a sheet holds, and the work of its calls.
pub(crate) mod store;

pub use store::make::{MOST_CELLS, fault};
