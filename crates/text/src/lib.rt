// The text form of AIGER (01, "The file"): its definitions (specs/) and their laws (proofs/Laws/). The crates `fields`, `lines` and
// `reader` have the code.
#![tactic(auto)]
