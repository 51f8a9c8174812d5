// Demand 3 for any mix of factoring, adding, taking off and building up: what the calls lead to together. No code, only proofs.
#![tactic(auto)]
