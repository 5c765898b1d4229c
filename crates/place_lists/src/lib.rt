// A list of place numbers: its tests, and the bytes of any sheet that it names. Document 01 decides; specs/Listed.antt has the outcome of the
// reading on every input. `read_listed` asks nothing of a caller.
#![tactic(auto)]

pub mod listed;

pub use listed::read_listed;
