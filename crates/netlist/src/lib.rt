// The circuit of the giant step as a list of gates: definitions in specs/, and in proofs/ that it carries out the giant step. The crate
// `generator` writes it.
#![tactic(auto)]
