// Runs and repeats while late conditions fall: no code, only laws over the plain run, the circuit's repeats and the replacement's entry.
#![tactic(auto)]
