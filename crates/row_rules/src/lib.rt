// No code: specs/ states the errors of each row of the table of commands, with their conditions and their order.
#![tactic(auto)]
