// The masked product of bytes (ISW multiplication over the field of AES). Document 01 decides; specs/Calls.antt has the outcome of the public routine
// on every input.
//
// The routine of document 01 stands at the root, and asks nothing of a caller. What stands in the modules besides serves the crates above;
// where it has a `requires`, its callers prove it.
#![tactic(auto)]

pub mod product;
pub mod rows;
pub mod steps;

pub use product::masked_product;
