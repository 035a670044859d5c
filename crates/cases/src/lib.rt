// The starred cases of document 01 ("Listings to compare"): one table (specs/), one claim over all its rows (proofs/Laws/).
#![tactic(auto)]
