// The hiding rules and the routines: what the rules of `probing` count is what the calls put out. This crate is mathematics only.
#![tactic(auto)]
