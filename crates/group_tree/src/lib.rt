//! The tree of groups: which groups exist, the parent of each, which one a path names, and which of them the
//! OOM killer kills as one.
//!
//! A group's number is its place in the order of making, and its parent's number is smaller. Therefore every
//! walk up ends, and no walk allocates memory.
#![tactic(auto)]

pub use flags::Flags;
pub use lineage::Lineage;
pub use preorder::Preorder;
pub use tree::Tree;

mod flags;
mod lineage;
mod path;
mod preorder;
mod tree;
mod walk;
