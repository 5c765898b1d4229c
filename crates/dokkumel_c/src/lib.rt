// The C interface: each routine under a C name, by a thin wrapper whose contract names the same outcome. include/dokkumel.h tells C of it.
//
// A wrapper answers 0 when the call was carried through, with the count behind taken; else the refusal's number, and neither output nor
// taken changes. A preview answers as its call would. C passes a slice as a pointer and a length.
//
// Kept: wrappers of one form, since C calls each routine by its own name.
#![tactic(auto)]

pub mod blocks;
pub mod cube;
pub mod prepared;
pub mod previews;
pub mod product;
pub mod sharing;
mod status;
pub mod tape;
pub mod version;
