// Document 01's table, "Figures to meet", and the strength of the contracts, over the public calls: no code, only meanings and proofs.
#![tactic(auto)]
