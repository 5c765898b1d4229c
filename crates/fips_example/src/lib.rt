// FIPS 197's appendix B, computed from the standard as the crate cipher writes it: proofs/Example.antt. No code stands on it, so an edit of the
// cipher need not pay for it.
#![tactic(auto)]
