// Calls of the library that a line of `vectors` asks for: a block in shares by one of the routes, or zeros of some lengths.
#![tactic(auto)]

pub mod routes;
pub mod zeros;
