// No code: specs/ states what document 01 says of all replies of the radio, proofs/ proves it.
#![tactic(auto)]
