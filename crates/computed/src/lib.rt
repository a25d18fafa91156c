//! The definitions of the plain machine, computed on small states that a reader can work out by hand.
//!
//! The crate has no code. Each file of `proofs/` states what a definition gives for a few states, and the checker
//! computes both sides. If a definition changes by accident, one of these files fails. No crate depends on this one.
#![tactic(auto)]
