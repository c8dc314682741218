// The rules of a sheet, without memory: refusals, box records, and the account that the calls on a sheet amount to.
#![tactic(auto)]

pub mod boxes;
pub mod paragraphs;
pub mod refusals;
pub mod theorems;
