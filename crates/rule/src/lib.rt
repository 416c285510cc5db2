// The rule of the wire on a data byte has no code here: write_verdict decides it, and this crate shows that both agree.
#![tactic(auto)]
