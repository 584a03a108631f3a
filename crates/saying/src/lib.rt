// The parts of a record: what they say of each key, whether it fits, and what is written for it. Definitions and theorems alone.
#![tactic(auto)]
