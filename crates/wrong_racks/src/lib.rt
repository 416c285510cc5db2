// Racks that the claims shut out, each refuted by one list of calls.
#![tactic(auto)]
