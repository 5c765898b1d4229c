// The reading of listed places of the cube's sheet, and the hiding rule for bytes across the cube, which speaks of it.
// Document 02, wish 8, decides; specs/Calls.antt has the outcome of the routine on every input.
//
// The routine stands at the root, and asks nothing of a caller.
#![tactic(auto)]

pub mod reading;

pub use reading::read_cube_places;
