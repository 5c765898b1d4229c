// The masked S-box of AES and its inverse. Document 01, and document 02, wish 2, decide; specs/Calls.antt has the outcome of the S-box on every
// input.
//
// The routine of document 01 stands at the root, and asks nothing of a caller. What stands in the modules besides serves the crates above;
// where it has a `requires`, its callers prove it.
#![tactic(auto)]

pub mod boxes;

pub use boxes::masked_box;
