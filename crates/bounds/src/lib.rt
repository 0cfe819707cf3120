// The bound on the steps of every run (document 02, "Fewer variables, fewer steps"): no code, only laws.
#![tactic(auto)]
