// A command line as it is read: the commands, with their usage; which one a line names, whether it has its words, and its arguments as numbers and
// bytes. What cannot be read is a fault, which gets a line on standard error.
#![tactic(auto)]

pub mod arguments;
pub mod commands;
pub mod faults;
pub mod help;
pub mod stops;
