// Commands that list: the places of a product, the bytes at all of them or at some, and the steps that the bytes of a tape go into.
#![tactic(auto)]

pub mod layout;
pub mod orders;
pub mod place_list;
pub mod places;
pub mod reading;
pub mod sheet;
