// What follows from the words alone; no code.
#![tactic(auto)]
