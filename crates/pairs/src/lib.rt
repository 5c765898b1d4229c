// Pairs of shares: how many there are, and the running sums that take in a row of them. Every masked product and every refresh goes through these.
// Document 01, "The steps over shares", and document 02, wish 7, decide.
//
// Nothing here is for the module's own use: a function asks for an `Order`, or has a `requires`, which its callers prove.
#![tactic(auto)]

pub mod counting;
pub mod rows;
