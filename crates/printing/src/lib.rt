// What is printed of a sheet, into lent memory: the lines of its boxes and their total, or the line of a fault.
#![tactic(auto)]

// The lines of the boxes of a sheet.
mod boxes;
// The line of a fault.
mod faults;
// What is printed into lent memory, where it is long enough.
mod outputs;
// Lent memory that bytes are laid into.
mod pages;

pub use boxes::{print, printed_length};
pub use fault_lines::layers::Layer;
pub use fault_lines::tellings::FaultLine;
pub use faults::{fault_length, print_fault};
pub use outputs::{Printable, ShortOutput, print_at_front, wanted};
pub use pages::Page;
