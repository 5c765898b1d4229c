// Maps of bytes that are linear over their bits, but for a constant: the affine maps of the S-boxes, and one column of MixColumns and of
// InvMixColumns. Document 01, "Bytes as field elements", and document 02, wish 2, decide; specs/Field.antt of gf256 has the definitions that the
// contracts name. What stands at the root asks nothing of a caller.
#![tactic(auto)]

mod affine_map;
mod columns;

pub use affine_map::{affine, constant};
pub use columns::mixed_of;
