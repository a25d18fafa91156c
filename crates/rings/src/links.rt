//! The links of all rings, and the three changes that keep them rings (kernel: `__list_add`,
//! `__list_del`, `__list_splice`).

ghost use Rattle.std.specs.Prelude.{◌≡◌, ◌≢◌, ◌<◌, Some, None, option_copied, IsSome, length};
ghost use Rattle.rings.specs.RingNodes.{IsCounted};
ghost use Rattle.rings.specs.Links.{link_at, IsJoined, WritesLink, SetsNext, SetsPrev, Joins, Adds, Removes, Splices};

use crate::ring_node::{Link, RingNode};
use machine::id::PageId;

/// The links of all rings.
#[derive(Drop)]
pub struct Links {
    /// By page: its link, or `None` if it is in no list.
    pub pages: Vec<Option<Link>>,
    /// By list: the link of its head.
    pub heads: Vec<Link>,
}

impl Links {
    /// The link of the node, if it has one.
    pub fn get(&self, node: RingNode) -> Option<&Link>
        ensures { option_copied result ≡ link_at self.now node }
    {
        match node {
            RingNode::Page(page) => match self.pages.get(page.0 as usize) {
                Some(link) => link.as_ref(),
                None => None,
            },
            RingNode::Head(list) => self.heads.get(list.0 as usize),
        }
    }

    /// The link of a node that has one.
    pub fn link(&self, node: RingNode) -> &Link
        requires { IsSome (link_at self.now node) }
        ensures { link_at self.now node ≡ Some result.now }
    {
        match self.get(node) {
            Some(link) => link,
            None => unreachable!(),
        }
    }

    fn write(&mut self, node: RingNode, link: Link)
        requires { IsSome (link_at self.old node) }
        ensures { WritesLink self.old self.new node (Some link) }
    {
        match node {
            RingNode::Page(page) => self.pages[page.0 as usize] = Some(link),
            RingNode::Head(list) => self.heads[list.0 as usize] = link,
        }
    }

    fn set_next(&mut self, node: RingNode, to: RingNode)
        requires there { IsSome (link_at self.old node) }
        requires counted { IsCounted to }
        ensures { SetsNext self.old self.new node to }
    {
        let prev = self.link(node).prev();
        self.write(node, Link::new(prev, to));
    }

    fn set_prev(&mut self, node: RingNode, to: RingNode)
        requires there { IsSome (link_at self.old node) }
        requires counted { IsCounted to }
        ensures { SetsPrev self.old self.new node to }
    {
        let next = self.link(node).next();
        self.write(node, Link::new(to, next));
    }

    // Makes b the next node after a.
    fn join(&mut self, a: RingNode, b: RingNode)
        requires a_there { IsSome (link_at self.old a) }
        requires b_there { IsSome (link_at self.old b) }
        requires a_counted { IsCounted a }
        requires b_counted { IsCounted b }
        ensures { Joins self.old self.new a b }
    {
        self.set_next(a, b);
        self.set_prev(b, a);
    }

    fn put(&mut self, page: PageId, link: Option<Link>)
        requires { page.0 < length self.old.pages.items }
        ensures { WritesLink self.old self.new (RingNode.Page page) link }
    {
        self.pages[page.0 as usize] = link;
    }

    /// Inserts a page that is in no ring before the node (kernel: `list_add_tail`).
    pub fn add_before(&mut self, page: PageId, node: RingNode)
        requires within { page.0 < length self.old.pages.items }
        requires page_counted { IsCounted (RingNode.Page page) }
        requires node_counted { IsCounted node }
        requires out { link_at self.old (RingNode.Page page) ≡ None }
        requires ring { (last : RingNode) × IsJoined self.old last node }
        ensures { Adds self.old self.new (RingNode.Page page) node }
    {
        let prev = self.link(node).prev();
        let added = RingNode::Page(page);
        self.put(page, Some(Link::new(prev, node)));
        self.set_next(prev, added);
        self.set_prev(node, added);
    }

    /// Removes the page from its ring (kernel: `list_del`).
    pub fn remove(&mut self, page: PageId)
        requires prev { (a : RingNode) × (a ≢ RingNode.Page page) × IsJoined self.old a (RingNode.Page page) }
        requires next { (b : RingNode) × (b ≢ RingNode.Page page) × IsJoined self.old (RingNode.Page page) b }
        ensures { Removes self.old self.new (RingNode.Page page) }
    {
        let link = self.link(RingNode::Page(page));
        let (prev, next) = (link.prev(), link.next());
        self.join(prev, next);
        self.put(page, None);
    }

    /// Moves all pages of a ring that is not empty between two joined nodes (kernel:
    /// `__list_splice`).
    pub fn splice(&mut self, source: RingNode, before: RingNode, after: RingNode)
        requires source_counted { IsCounted source }
        requires before_counted { IsCounted before }
        requires after_counted { IsCounted after }
        requires before { before ≢ source }
        requires after { after ≢ source }
        requires joined { IsJoined self.old before after }
        requires last { (a : RingNode) × (a ≢ source) × IsJoined self.old a source }
        requires first { (b : RingNode) × (b ≢ source) × IsJoined self.old source b }
        ensures { Splices self.old self.new source before after }
    {
        let moved = self.link(source);
        let (last, first) = (moved.prev(), moved.next());
        self.join(before, first);
        self.join(last, after);
        self.join(source, source);
    }
}
