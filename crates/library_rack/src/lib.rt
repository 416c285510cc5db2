// Definitions and claims alone: lists of the library's rack calls.
#![tactic(auto)]
