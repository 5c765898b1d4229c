// A refresh that shows the byte at each of its places: `rows::refresh_shown`. Document 02, wish 8, decides.
//
// Nothing here is for the module's own use: each function has a `requires`, which its callers prove.
#![tactic(auto)]

pub mod rows;
