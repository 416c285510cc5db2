// Demand 3 over lists of the library's calls: definitions and their proofs.
#![tactic(auto)]
