// Theorems on the shortest forms: each is lawful and means its value, and none is shorter. There is no code here.
#![tactic(auto)]
