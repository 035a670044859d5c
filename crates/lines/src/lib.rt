// What one line of the text form says (01, "The file"), by what was defined and named above it.
#![tactic(auto)]

pub mod body;
pub mod header;
pub mod kind;
pub mod symbol;
