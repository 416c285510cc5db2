// Every reply fits its 643 bytes. No code.
#![tactic(auto)]
