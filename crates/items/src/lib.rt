// One item of a paragraph of a sheet file: the call on the sheet that its line asks for, and why a file is refused.
#![tactic(auto)]

// Why a sheet file is refused.
pub mod faults;

// A line of a paragraph: what it asks for, and what comes of it.
pub mod paragraphs;

// A panel that a line asks for.
pub(crate) mod panels;

// The staircases that a file names.
pub mod shelves;

// A text that a line asks for.
pub(crate) mod texts;
