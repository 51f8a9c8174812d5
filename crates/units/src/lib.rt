// Document 02, request 12: a double as a whole number of units, and the bound on one multiplier. No code, only meanings and proofs.
#![tactic(auto)]
