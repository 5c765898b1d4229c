// The command `places` in all its forms: of a product, and by a first word of an S-box, of an inverse S-box, of an encryption or of a decryption.
#![tactic(auto)]

pub mod places;
