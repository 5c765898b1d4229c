// Encryption and decryption over shares, by a single call, and encryption from prepared keys. Documents 01 and 02 decide; specs/Calls.antt is the
// outcome on every input; the crate cipher has the standard and the steps over shares, and lengths what a call would answer.
//
// The routines of the documents stand at the root, and ask nothing of a caller. What stands in the modules besides serves the crates above;
// where it has a `requires`, its callers prove it.
#![tactic(auto)]

pub mod preparation;
pub mod single;

pub use preparation::{encrypt_prepared, prepare};
pub use single::{decrypt, encrypt};
