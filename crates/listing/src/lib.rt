// What the command line lists: the places of a product, and the steps that the bytes of a tape go into. Document 01 decides the order of both.
#![tactic(auto)]

pub mod lines;
pub mod places;
pub mod tape;
pub mod walk;
