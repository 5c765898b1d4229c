// Strings in shares that stand share after share in one buffer: their parts, loops over shares, loops whose steps draw. `each::each_share` does one
// thing to every share; the rest is theorems, in proofs/, about the definitions of the crates shares and cipher.
//
// Nothing here is for the module's own use: the function has a `requires`, which its callers prove.
#![tactic(auto)]

pub mod each;
