// Demand 3, stated, proved and used: no code, only laws over the generated circuit and its repeats.
#![tactic(auto)]
