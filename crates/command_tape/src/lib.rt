// The argument TAPE of the command line.
#![tactic(auto)]

pub mod argument;

pub use argument::{buffer, read};
