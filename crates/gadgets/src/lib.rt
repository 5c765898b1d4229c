// Gadgets that hide, and their composition. This crate is mathematics only: definitions in specs/, theorems in proofs/.
#![tactic(auto)]
