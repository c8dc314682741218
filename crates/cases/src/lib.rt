// Worked examples, run through the public functions of the libraries. There is nothing but tests here.
#![tactic(auto)]

// The lines and fields of a file.
#[cfg(test)]
mod files;
// Shapes of panels.
#[cfg(test)]
mod panels;
// Calls on a sheet.
#[cfg(test)]
mod sheets;
// Words, advances and measured texts.
#[cfg(test)]
mod texts;
// Trees of joins.
#[cfg(test)]
mod trees;
