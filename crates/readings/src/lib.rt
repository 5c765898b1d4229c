// The reading of listed places of a masked product's sheet, and the hiding rule for bytes, which speaks of it.
// Document 01 decides; specs/Calls.antt has the outcome of the routine on every input.
//
// The routine of document 01 stands at the root, and asks nothing of a caller.
#![tactic(auto)]

pub mod reading;

pub use reading::read_places;
