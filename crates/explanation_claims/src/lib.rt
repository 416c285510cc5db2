// No code: specs/ states what is proved of the rule that explains an answer; proofs/ proves it.
#![tactic(auto)]
