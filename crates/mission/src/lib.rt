// The three rules of the mission, as theorems over the definitions and promises of the crates below: one page, proofs/Laws/Rules.antt.
#![tactic(auto)]
