// A rack of tags: what one call does to it, and lists of calls. Definitions.
#![tactic(auto)]
