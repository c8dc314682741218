// What is printed of a sheet file: its boxes, or its first fault.
#![tactic(auto)]

// A whole file, with memory for any sheet.
pub mod reports;
