// Text for the programs: words, numbers and bytes in hexadecimal, read and printed, and answers in document 01's words; and bytes packed into the
// words of a tape.
#![tactic(auto)]

pub mod answers;
pub mod decimal;
pub mod hexadecimal;
pub mod packing;
pub mod words;

pub use words::{Stream, print, print_count, print_number, print_with};
