// Numbers as digits: bits of a number, bytes of a number with the lowest first, a bit of a list of bytes.
// Definitions (specs/) and their laws (proofs/Laws/); every law is over the base or the width. And what code does with bytes.
#![tactic(auto)]

pub mod bytes;
pub mod packed;
