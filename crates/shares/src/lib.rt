// Bytes and strings in shares: splitting, joining, unused tape.
// Document 01 decides; specs/Calls.antt has the outcome of each public routine on every input.
//
// The routines of document 01 stand at the root, and ask nothing of a caller. What stands in the modules besides serves the crates above;
// where it has a `requires`, its callers prove it.
#![tactic(auto)]

pub mod answers;
pub mod bytes;
pub mod joining;
pub mod splitting;
pub mod tape;

pub use joining::join;
pub use splitting::split;
pub use tape::unused_tape;
