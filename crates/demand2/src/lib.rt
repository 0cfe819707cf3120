// Demand 2, stated, proved and used: no code, only laws over the giant step and the budgeted run.
#![tactic(auto)]
