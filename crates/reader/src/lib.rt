// The reader of the text form (01, "The file" and "The numbers"): any list of bytes is met. What stands in a line has the crate `fields`,
// what one line says the crate `lines`.
#![tactic(auto)]

mod before;
mod body;
mod columns;
mod gates;
mod late;
pub mod read;
mod rest;
mod symbols;
