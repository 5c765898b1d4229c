// Commands that call a routine of the library: each is tied to its routine by a contract.
#![tactic(auto)]

pub mod routines;
