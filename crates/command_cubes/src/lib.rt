// Commands that list the cube, the first product of power 254 as one run: its places, and the bytes at all of them or at some. Document 02, wish 8,
// decides.
#![tactic(auto)]

pub mod names;
pub mod places;
pub mod reading;
pub mod sheet;
