// Power 254 over shares, the inverse in the field: `powers::power_core`. Document 01, "The steps over shares", decides.
//
// Nothing here is for the module's own use: each function has a `requires`, which its callers prove.
#![tactic(auto)]

pub mod powers;
