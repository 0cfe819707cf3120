// The demands of texts that were read: no code, only laws (proofs/Texts) over the crates that read, run and repeat.
#![tactic(auto)]
