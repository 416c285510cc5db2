// Tags that demand 3 shuts out: definitions and their proofs.
#![tactic(auto)]
