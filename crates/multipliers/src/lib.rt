// Document 02, request 12: multipliers and growth of accepted factors, of columns added and taken off. No code, only meanings and proofs.
#![tactic(auto)]
