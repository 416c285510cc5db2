// No code: which rule explains an answer, as definitions, and how code may find its number.
#![tactic(auto)]
