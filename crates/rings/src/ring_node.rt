//! The nodes of a ring, and their links.

ghost use Rattle.std.specs.Prelude.{◌≡◌, option_map};
ghost use Rattle.rings.specs.RingNodes.{page_of, IsCounted};

use crate::end::End;
use machine::id::PageId;
use std::marker::Model;
use std::mem::size_of;

/// A list. Lists are numbered from 0 on, in the order in which they were added.
#[derive(Clone, Copy, PartialEq, Eq)]
pub struct ListId(pub u32);

/// A node of a ring: a page, or the head of a list (kernel: a `struct list_head *`, which is `lru`
/// of a folio or a list's own head).
#[derive(Clone, Copy)]
pub enum RingNode {
    Page(PageId),
    Head(ListId),
}

impl RingNode {
    /// The page, if the node is one.
    pub fn page(self) -> Option<PageId>
        ensures { option_map (λ page. page.0) result ≡ page_of self }
    {
        match self {
            RingNode::Page(page) => Some(page),
            RingNode::Head(_) => None,
        }
    }
}

/// The neighbours of a node in its ring (kernel: what a `struct list_head` has), in 8 bytes. No
/// code outside this crate copies or makes a link, so a link that is lent is the stored one.
#[derive(Drop)]
pub struct Link {
    prev: End,
    next: End,
}

// The sizes that the first lines of the crate state.
const _: () = prove!(size_of::<RingNode>() == 8);

const _: () = prove!(size_of::<Link>() == 8);

const _: () = prove!(size_of::<Option<Link>>() == 12);

impl Model for Link {
    ghost use Rattle.rings.specs.RingNodes.{LinkOf};

    ghost Value = { LinkOf };

    ghost view = { λ l. record { prev = l.prev; next = l.next } };
}

impl Link {
    /// The link of a node between these two.
    pub(crate) fn new(prev: RingNode, next: RingNode) -> Link
        requires prev { IsCounted prev }
        requires next { IsCounted next }
        ensures { result ≡ record { prev = prev; next = next } }
    {
        Link {
            prev: End::new(prev),
            next: End::new(next),
        }
    }

    /// The node just before this one. Before a head it is the last page of the list, or the head
    /// itself if the list is empty.
    pub fn prev(&self) -> RingNode
        ensures node { result ≡ self.now.prev }
        ensures counted { IsCounted result }
    {
        self.prev.node()
    }

    /// The node just after this one. After a head it is the first page of the list, or the head
    /// itself if the list is empty.
    pub fn next(&self) -> RingNode
        ensures node { result ≡ self.now.next }
        ensures counted { IsCounted result }
    {
        self.next.node()
    }
}
