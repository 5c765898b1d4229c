// The sheet of the cube, the first product of power 254 as one run, which holds its intermediate bytes. Document 02, wish 8, decides;
// specs/Calls.antt has the outcome of the public routine on every input.
//
// The routine stands at the root, and asks nothing of a caller. What stands in the modules besides serves the crates above; where it has a
// `requires`, its callers prove it.
#![tactic(auto)]

pub mod cube;

pub use cube::cube_sheet;
