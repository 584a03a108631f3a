// A host that made the calls as messages arrived, and the same frames played again. There is no code here.
#![tactic(auto)]
