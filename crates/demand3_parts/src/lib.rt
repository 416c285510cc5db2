// Which parts of demand 3 follow from the others, and which do not: definitions and their proofs.
#![tactic(auto)]
