// The linear steps of FIPS 197 on each share of a state or a word, in a lent buffer, share after share, and their inverses. Document 01, "The steps
// over shares", and document 02, wish 2, decide; the crate cipher has the definitions.
//
// Nothing here is for the module's own use: each function has a `requires`, which its callers prove.
#![tactic(auto)]

pub mod steps;

// The linear steps of FIPS 197 that act on a state alone; a direction says whether the step is meant or its inverse.
// Kept: an enum and a match. `stepped` goes by its cases, and `step_all` names one definition for all four steps.
#[derive(Clone, Copy)]
pub enum Step {
    ShiftRows,
    MixColumns,
}
