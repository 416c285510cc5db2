// No code: specs/ states what is proved of every wire signal, proofs/ proves it.
#![tactic(auto)]
