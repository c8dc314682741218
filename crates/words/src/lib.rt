// Where the words of a text are, and which bytes a text may hold.
#![tactic(auto)]

// The words of a text, one after another.
pub mod spans;

// What holds of the words of every text.
pub mod laws;

// The bytes that a text may hold.
pub mod alphabet;
