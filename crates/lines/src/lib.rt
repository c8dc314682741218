// The form of each line of a sheet file: bytes to a typed line, or the fault with its place. Nothing here makes a call
// or keeps a count: the largest number that a count may have is the caller's.
#![tactic(auto)]

// Numbers below a bound.
pub mod bounds;

// How many shapes and how many paragraphs follow.
pub mod counts;

// Lines worked by hand, with the places of their faults.
#[cfg(test)]
mod examples;

// Flights of steps, the shapes of a sheet.
pub mod flights;

// The sheet; the metric line is passed on from `scales`.
pub mod headings;

// The items of a paragraph: texts, boxes and shapes.
pub mod items;

// The names of sides and clears, and the keywords of items.
pub mod names;

// The line that a paragraph begins with.
pub mod paragraphs;
