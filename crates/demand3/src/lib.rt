// Demand 3: the claim and its proof.
#![tactic(auto)]
