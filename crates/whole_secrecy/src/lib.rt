// The run through a whole budget, what it comes to, when it is closed and what is seen of it: no code, only laws.
#![tactic(auto)]
