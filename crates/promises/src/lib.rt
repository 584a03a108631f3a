// Theorems over whole messages and whole runs, which belong to no one call. There is no code here.
#![tactic(auto)]
