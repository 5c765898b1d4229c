// The command `preview`: what a call would answer, by the contract that ties it to the library's preview.
#![tactic(auto)]

pub mod previews;
