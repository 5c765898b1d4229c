// The rounds of an encryption or decryption over shares, from round keys in shares: `rounds::rounds_core`. Document 01 decides, and for decryption
// document 02, wish 2; the crate cipher has the standard and the definitions of the steps over shares.
//
// Nothing here is for the module's own use: each function has a `requires`, which its callers prove.
#![tactic(auto)]

pub mod round;
pub mod rounds;
