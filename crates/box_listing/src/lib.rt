// The places of an S-box, or of an inverse S-box, by number and name, in groups: a line without a number says what the group behind it is of. The
// numbering is that of `probing`'s definition (`box_sheet`): place k is entry k of the sheet. As for a product (crate `listing`), a contract says how
// many lines a function prints.
#![tactic(auto)]

pub mod boxes;
pub mod groups;
pub mod power;
