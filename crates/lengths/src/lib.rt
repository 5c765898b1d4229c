// The tests on the lengths of a call of AES, and the previews, which answer by them alone. Documents 01 and 02 decide; specs/Previews.antt has the
// answer on any lengths.
//
// The routines of document 02, wish 4, stand at the root, and ask nothing of a caller. What stands in the modules besides serves the crates above;
// where it has a `requires`, its callers prove it.
#![tactic(auto)]

pub mod answers;
pub mod key;
pub mod needs;
pub mod previews;
pub mod sizes;

pub use previews::{preview_decrypt, preview_encrypt, preview_encrypt_prepared, preview_prepare};
