// How far in panels reach on the rows of a sheet, and what they leave of the rows between margins.
#![tactic(auto)]

// What a panel reaches on one of its rows.
mod panels;
// A part of a box on one row.
pub mod part;
// The reach of some rows, and what it is held against.
pub mod reach;
// What a band keeps beside a panel, and the place nearest a side.
pub mod spans;
pub mod theorems;
