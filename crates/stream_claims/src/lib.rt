// No code: specs/ states what is proved of the whole output, however the input is cut into pieces; proofs/ proves it.
#![tactic(auto)]
