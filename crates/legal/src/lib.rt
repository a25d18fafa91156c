//! What steps of the plain machine do, and what holds in every state that a legal history leads to.
//!
//! The crate has no code. It has lemmas of the definitions in `machine`, for proofs about whole calls and whole
//! histories.
#![tactic(auto)]
