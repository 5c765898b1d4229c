// Runs that a line of `vectors` asks for: of a plain key and block by one of the routes, and of a product's places.
#![tactic(auto)]

pub mod places;
pub mod runs;
