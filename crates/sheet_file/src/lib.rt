// The sheet file: which calls its lines ask for, and what comes of them.
#![tactic(auto)]

// The lines of a file, with their numbers.
pub(crate) mod cursors;

// What the items of a file are read against.
pub(crate) mod desks;

// The lines before the paragraphs.
pub(crate) mod headings;

// What single lines say, and what is made of that.
pub(crate) mod readers;

// Setting the paragraphs of a file.
pub(crate) mod setters;

// A whole file.
pub mod reading;
