// The installer's search over a rack: what it sends, and what it finds. Definitions.
#![tactic(auto)]
