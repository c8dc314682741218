// Worked examples of sheets, run through the public functions of the libraries. There is nothing but tests here.
#![tactic(auto)]

// Three calls on a sheet, and the answer to the last.
#[cfg(test)]
mod examples;
// Calls on a sheet, as the examples make them.
#[cfg(test)]
mod playing;
// Whole sheets: their lists, their open lines, their memory.
#[cfg(test)]
mod sheets;
