// The parts of the sheet of a masked product, row by row. Document 01, "Places in one product", decides.
//
// Nothing here is for the module's own use: each function has a `requires`, which its callers prove.
#![tactic(auto)]

pub mod parts;

// The bytes of one pair of shares i < j, in the order of their places.
#[derive(Clone, Copy)]
pub struct Pair {
    pub drawn: u8, // r(i, j)
    pub upper: u8, // a_i · b_j
    pub half: u8, // r(i, j) XOR a_i · b_j
    pub lower: u8, // a_j · b_i
    pub back: u8, // r(j, i)
}
