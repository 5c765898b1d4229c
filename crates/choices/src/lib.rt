// Counting the choices of masks and of the words of a tape. This crate is mathematics only: definitions in specs/, theorems in proofs/.
#![tactic(auto)]
