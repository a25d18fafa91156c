//! The definitions of `turns` and `driver`, computed on small states that a reader can work out by hand.
//!
//! The crate has no code. Each file of `proofs/` states which turn comes next, or what a command answers, for a few
//! states, and the checker computes both sides. No crate depends on this one.
#![tactic(auto)]
