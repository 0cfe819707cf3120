// When an assignment makes rows true, and what each rule of the giant step says of that: no code, only definitions and laws. They speak of
// no run.
#![tactic(auto)]
