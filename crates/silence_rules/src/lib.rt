// No code: the silence list as definitions, and its order.
#![tactic(auto)]
