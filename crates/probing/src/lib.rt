// Hiding of whole calls: places, choices, rules. This crate is mathematics only: definitions in specs/, theorems in proofs/.
#![tactic(auto)]
