// Bytes as elements of AES's field: products and powers. Document 01, "Bytes as field elements", and document 02, wishes 2, 3 and 5, decide;
// specs/Field.antt has the definitions that the contracts name.
//
// What stands at the root asks nothing of a caller. The products and powers by logs are methods of the two tables (`Tables`), which the cores of the
// crates above are lent.
#![tactic(auto)]

mod powers;
mod product;
mod tables;

pub use product::{double, times};
pub use tables::{Antilogs, Logs, Tables};

// Which way AES runs: by the cipher of FIPS 197, or by its inverse cipher.
// Kept: an enum and a match, where closures could be handed down. The definitions go by its two cases (`affine_of`, `box_of`, `round_of`), so a
// contract names one, and one body of masked code serves both.
#[derive(Clone, Copy)]
pub enum Direction {
    Forward,
    Inverse,
}

// The powers of a byte that the S-box needs share by share. Kept: an enum, as above; `raised_to` goes by its three cases.
#[derive(Clone, Copy)]
pub enum Exponent {
    Two,
    Four,
    Sixteen,
}
