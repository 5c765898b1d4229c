// Key expansion over shares: `expansion::expand_core` fills a lent buffer with the round keys, share after share. Document 01, "The steps over
// shares", decides; the crate cipher has the definition, `schedule`, and the theorem that its shares join to FIPS 197's round keys.
//
// Nothing here is for the module's own use: each function has a `requires`, which its callers prove.
#![tactic(auto)]

pub mod expansion;
pub mod word;
