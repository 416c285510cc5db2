// What is claimed of lists of a rack's calls: the rack is its tags, and demand 3 for each tag taken alone.
#![tactic(auto)]
