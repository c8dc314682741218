// What the texts of a file measure to, line by line, and what is reported of them.
#![tactic(auto)]

// Why a file is refused, and on which line.
pub mod faults;

// The metric line, with which a file begins.
pub mod headings;

// What holds of every file.
pub mod laws;

// What is printed of the texts of a file.
pub mod printing;

// All lines of a file, up to the first that is refused.
pub mod reading;

// The report of a file.
pub mod reports;

// One text line: what it measures to.
pub mod texts;
