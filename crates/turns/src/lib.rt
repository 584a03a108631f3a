// Turns over an input that arrives in pieces. There is no code here.
#![tactic(auto)]
