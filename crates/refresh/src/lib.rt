// Mask refresh: new shares of the same byte. Document 02, wish 7, decides; specs/Calls.antt has the outcome of the routine on every input.
//
// The routine stands at the root, and asks nothing of a caller. What stands in the module besides serves the crates above; where it has a `requires`,
// its callers prove it.
#![tactic(auto)]

pub mod refreshing;

pub use refreshing::refresh;
