// How a program tells why a line of a file is refused: the layer that refuses, the line, the cause and the place.
#![tactic(auto)]

// A fault of a text, told on its line.
#[cfg(test)]
mod examples;

// The parts of a program that refuse.
pub mod layers;

// A fault with the line that it lies on.
pub mod locations;

// What is told of a fault, and the line that is printed of it.
pub mod tellings;
