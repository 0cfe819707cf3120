// Demand 1, stated and proved of every function that hosts call and of the programs' own: no code, only laws over what contracts cite.
#![tactic(auto)]
