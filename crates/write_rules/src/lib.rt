// The rules that forbid a write have no code here: write_verdict decides by them.
#![tactic(auto)]
