// The waiting tag, and that it follows the entry point call by call: definitions and their proofs.
#![tactic(auto)]
