// What only the mathematics needs of the field: its inverse, and that the S-boxes undo each other; document 03's own definitions agree with ours.
// This crate is mathematics only: definitions in specs/, theorems in proofs/.
#![tactic(auto)]
