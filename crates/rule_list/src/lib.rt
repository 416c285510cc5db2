// Rules in their order: definitions and laws only.
#![tactic(auto)]
