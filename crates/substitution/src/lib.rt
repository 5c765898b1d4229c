// S-boxes, or inverse S-boxes, of bytes of a string in shares, in a lent buffer, share after share. Document 01, "The steps over shares", and
// document 02, wish 2, decide; the crate cipher has the definitions.
//
// Nothing here is for the module's own use: each function has a `requires`, which its callers prove.
#![tactic(auto)]

pub mod boxes;
pub mod bytes;
