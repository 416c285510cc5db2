// Demand 2, whole: definitions and their proofs.
#![tactic(auto)]
