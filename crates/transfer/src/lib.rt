// The whole transfer, and that a run of signals is it: definitions and their proof.
#![tactic(auto)]
