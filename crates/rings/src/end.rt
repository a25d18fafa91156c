//! One end of a link, as it is stored.

ghost use Rattle.std.specs.Prelude.{◌≡◌};
ghost use Rattle.rings.specs.RingNodes.{IsCounted};

use crate::ring_node::{ListId, RingNode};
use machine::id::PageId;
use std::marker::Model;

/// Numbers below this are pages, and the others are heads.
pub const FIRST_HEAD: u32 = 1 << 31;

/// A node in 4 bytes; a [`RingNode`] takes 8.
#[derive(Drop)]
pub struct End(u32);

impl Model for End {
    ghost use Rattle.rings.specs.declared.ring_node.RingNode.{RingNode};
    ghost use Rattle.rings.specs.Ends.{node_by};

    ghost Value = { RingNode };

    ghost view = { λ e. node_by e.0 };
}

impl End {
    /// Stores the node.
    pub fn new(node: RingNode) -> End
        requires { IsCounted node }
        ensures { result ≡ node }
    {
        match node {
            RingNode::Page(page) => End(page.0),
            RingNode::Head(list) => End(FIRST_HEAD + list.0),
        }
    }

    /// The stored node.
    pub fn node(&self) -> RingNode
        ensures node { result ≡ self.now }
        ensures counted { IsCounted result }
    {
        if self.0 < FIRST_HEAD {
            RingNode::Page(PageId(self.0))
        } else {
            RingNode::Head(ListId(self.0 - FIRST_HEAD))
        }
    }
}
