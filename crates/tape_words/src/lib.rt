// The tape as the caller lends it, 32-bit words, and as the steps draw it, bytes. Document 02, wish 6, decides.
#![tactic(auto)]

pub mod words;

pub use words::{unpack, words_for};
