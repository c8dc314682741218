// Where a panel may stand on a sheet and where it stands, and which rows a line may stand on.
#![tactic(auto)]

pub mod parts;
pub mod theorems;
