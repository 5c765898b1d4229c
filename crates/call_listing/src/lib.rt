// The places of a whole encryption or decryption, by ranges of their numbers: one line for each S-box and for each other step. The numbering is
// that of `probing`'s definitions (`encryption_sheet` and `decryption_sheet`): place k is entry k of the sheet. A function that prints lines
// takes the walk further, and its contract says by how many places.
#![tactic(auto)]

pub mod boxes;
pub mod call;
pub mod key;
pub mod lines;
pub mod rounds;
