// The twelve pairs of document 01, by computation over the entry point's definition.
#![tactic(auto)]
