// The lines of a file and the fields of a line, by place. Nothing here knows what a line means.
#![tactic(auto)]

// What a field can be refused for, and where it stands.
pub mod faults;

// The fields of a line, one after another.
pub mod fields;

// Kinds of field: what the bytes of one are worth.
pub mod kinds;

// The lines of a file, one after another.
pub mod lines;

// The bytes that part lines and fields, and the run of bytes before one.
pub(crate) mod marks;

// Numbers as they are written in a field.
pub mod numerals;
