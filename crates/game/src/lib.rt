// The game (01, "The game"), over any step function and at a circuit's: its definitions (specs/) and their laws (proofs/Laws/).
#![tactic(auto)]
