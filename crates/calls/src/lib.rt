// Lists of calls at the entry point, and calls and tags to write such lists with: definitions and their laws.
#![tactic(auto)]
