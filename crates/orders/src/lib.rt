//! All orders in which some actors can take turns, each order once.
//!
//! The orders are the paths of a tree. At each point of a path some actors are ready, and one of them takes its turn. The
//! tree is known only by walking it, and the machine that is walked can't be copied. So a caller runs the machine from
//! its beginning for each path, and [`Orders`] says at each point who takes the turn. It keeps one path, never the tree.
#![tactic(auto)]

pub use laws::{paths_are_the_paths, runs_have_a_tree};
pub use orders::{Fault, Orders};

mod laws;
mod orders;
mod point;
