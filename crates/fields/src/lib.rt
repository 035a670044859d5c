// What stands in a line of the text form (01, "The file"): its end, numbers, names, and what its literals call for. The parts of which the
// crates `lines` and `reader` are made.
#![tactic(auto)]

pub mod judge;
pub mod line;
pub mod name;
pub mod number;
pub mod row;
