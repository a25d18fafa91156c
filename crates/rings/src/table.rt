//! The lists of pages.

ghost use Rattle.std.specs.Prelude.{◌≡◌, ◌≢◌, ℕ, ◌+◌, ◌<◌, ◌≤◌, ◌^◌, ◌==◌, ◌++◌, ◌∷◌, [], not, map, true, false, length, option_map, option_copied, slice_get, slice_set, is_none, is_some, None, replicate, IfSome, IfOk, OnOk, IsOk};
ghost use Rattle.rings.specs.declared.ring_node.Link.{Link};
ghost use Rattle.rings.specs.Chains.{IsGap};
ghost use Rattle.rings.specs.Rings.{list_at, is_listed, without, is_there, AreApart, IsLinkOf, IsAfter, IsBefore, KeepsLinksBut, first_node, last_node};

use crate::end::FIRST_HEAD;
use crate::links::Links;
use crate::ring_node::{Link, ListId, RingNode};
use machine::id::PageId;
use std::alloc::{AllocError, Global};
use std::marker::Model;

/// Lists of pages. A page is in at most one list, and only once (kernel: lists of folios by their
/// `lru`).
///
/// A contract sees each list as the numbers of its pages in order. No call walks a list. Only
/// [`Rings::open`] and [`Rings::reserve`] allocate memory.
#[derive(Drop)]
pub struct Rings {
    links: Links,
}

impl Model for Rings {
    ghost use Rattle.std.specs.Prelude.{◌-◌, length, vec_len, vec_capacity};
    ghost use Rattle.rings.specs.Rings.{RingsOf};

    ghost Value = { RingsOf };

    ghost use Rattle.rings.specs.Chains.{lists_of, IsRings};

    ghost view = { λ r. record {
      lists = lists_of r.links;
      numbers = length r.links.pages.items;
      room = vec_capacity r.links.heads - vec_len r.links.heads;
    } };

    ghost invariant = { λ r. IsRings r.links (lists_of r.links) };
}

fn no_links(alloc: Global, numbers: usize) -> Result<Vec<Option<Link>>, AllocError>
    ensures { IfOk result (λ links. links.items ≡ replicate numbers None) }
{
    let mut links = Vec::with_capacity(alloc, numbers)?;
    for _ in 0..numbers {
        links.push_reserved(None);
    }
    Ok(links)
}

impl Rings {
    /// No list, and links for this many page numbers. `AllocError` if there is no memory for them, or
    /// if there are 2^31 or more.
    pub fn open(alloc: Global, numbers: u32) -> Result<Self, AllocError>
        ensures lists { IfOk result (λ r. r.lists ≡ []) }
        ensures numbers { IfOk result (λ r. r.numbers ≡ numbers) }
    {
        if numbers >= FIRST_HEAD {
            return Err(AllocError);
        }
        Ok(Rings {
            links: Links {
                pages: no_links(alloc, numbers as usize)?,
                heads: Vec::new(alloc),
            },
        })
    }

    /// Reserves the memory for this many further lists. `AllocError` if memory runs out. The lists do
    /// not change in either case.
    pub fn reserve(&mut self, lists: u32) -> Result<(), AllocError>
        ensures room { OnOk result (lists ≤ self.new.room) }
        ensures others { self.new ≡ record self.old { room = self.new.room } }
        ensures succeeds { lists ≤ self.old.room → IsOk result }
        ensures kept { self.old.room ≤ self.new.room }
    {
        self.links.heads.reserve(lists as usize)
    }

    /// Adds this many empty lists (kernel: `INIT_LIST_HEAD`). [`Rings::reserve`] reserved their memory.
    pub fn add(&mut self, lists: u32)
        requires room { lists ≤ self.old.room }
        requires fits { length self.old.lists + lists < 2 ^ 31 }
        ensures lists { self.new.lists ≡ self.old.lists ++ replicate lists [] }
        ensures numbers { self.new.numbers ≡ self.old.numbers }
        ensures room { self.new.room + lists ≡ self.old.room }
    {
        for added in 0..lists {
            self.add_list();
        }
    }

    fn add_list(&mut self)
        requires room { 0 < self.old.room }
        requires fits { length self.old.lists + 1 < 2 ^ 31 }
        ensures lists { self.new.lists ≡ self.old.lists ++ [] ∷ [] }
        ensures numbers { self.new.numbers ≡ self.old.numbers }
        ensures room { self.new.room + 1 ≡ self.old.room }
    {
        let list = ListId(self.links.heads.len() as u32);
        let head = RingNode::Head(list);
        self.links.heads.push_reserved(Link::new(head, head));
    }

    /// How many lists there are.
    pub fn len(&self) -> u32
        ensures { result ≡ length self.now.lists }
    {
        self.links.heads.len() as u32
    }

    /// How many page numbers there are.
    pub fn numbers(&self) -> u32
        ensures { result ≡ self.now.numbers }
    {
        self.links.pages.len() as u32
    }

    /// Lends the stored link of a page, or of the head of a list. `None` for a page that is in no list,
    /// and for a list that does not exist.
    pub fn link(&self, node: RingNode) -> Option<&Link>
        ensures there { is_some result ≡ is_there self.now.lists node }
        ensures link { IfSome (option_copied result) (λ link. IsLinkOf self.now.lists node link) }
    {
        self.links.get(node)
    }

    /// Whether the page is in a list (kernel: `list_empty` of the folio's `lru` says that it is not).
    pub fn is_listed(&self, page: PageId) -> bool
        ensures { result ≡ is_listed self.now.lists page.0 }
    {
        self.links.get(RingNode::Page(page)).is_some()
    }

    /// The first page of a list, if there is one (kernel: `list_first_entry_or_null`).
    pub fn front(&self, list: ListId) -> Option<PageId>
        requires { list.0 < length self.now.lists }
        ensures { option_map (λ page. page.0) result ≡ slice_get (list_at self.now.lists list.0) 0 }
    {
        self.head(list).next().page()
    }

    fn head(&self, list: ListId) -> &Link
        requires { list.0 < length self.now.lists }
        ensures { IsLinkOf self.now.lists (RingNode.Head list) result.now }
    {
        self.links.link(RingNode::Head(list))
    }

    /// Whether a list has no page (kernel: `list_empty`).
    pub fn is_empty(&self, list: ListId) -> bool
        requires { list.0 < length self.now.lists }
        ensures { result ≡ (length (list_at self.now.lists list.0) == 0) }
    {
        self.front(list).is_none()
    }

    /// The next page in the list of this one, if there is one (kernel: `list_next_entry`).
    pub fn after(&self, page: PageId) -> Option<PageId>
        requires { is_listed self.now.lists page.0 ≡ true }
        ensures { IsAfter self.now.lists page.0 (option_map (λ page. page.0) result) }
    {
        self.links.link(RingNode::Page(page)).next().page()
    }

    /// The page just before this one in its list, if there is one (kernel: `list_prev_entry`).
    pub fn before(&self, page: PageId) -> Option<PageId>
        requires { is_listed self.now.lists page.0 ≡ true }
        ensures { IsBefore self.now.lists page.0 (option_map (λ page. page.0) result) }
    {
        self.links.link(RingNode::Page(page)).prev().page()
    }

    /// Adds a page that is in no list to the end of this one (kernel: `list_add_tail`). At most three
    /// nodes' links change: the page, the head, and the page that was last.
    pub fn push_back(&mut self, list: ListId, page: PageId)
        requires list { list.0 < length self.old.lists }
        requires page { page.0 < self.old.numbers }
        requires unlisted { is_listed self.old.lists page.0 ≡ false }
        ensures lists { self.new.lists ≡ slice_set self.old.lists list.0 (list_at self.old.lists list.0 ++ page.0 ∷ []) }
        ensures few { KeepsLinksBut (RingNode.Page page ∷ RingNode.Head list ∷ last_node list.0 (list_at self.old.lists list.0) ∷ []) self.old.lists self.new.lists }
        ensures others { self.new ≡ record self.old { lists = self.new.lists } }
    {
        self.links.add_before(page, RingNode::Head(list));
    }

    /// Removes the page from its list (kernel: `list_del_init`). At most three nodes' links change: the
    /// page and its two neighbours.
    pub fn remove(&mut self, page: PageId)
        requires { is_listed self.old.lists page.0 ≡ true }
        ensures lists { self.new.lists ≡ map (without page.0) self.old.lists }
        ensures few { (link : Link) → IsLinkOf self.old.lists (RingNode.Page page) link
            → KeepsLinksBut (RingNode.Page page ∷ link.prev ∷ link.next ∷ []) self.old.lists self.new.lists }
        ensures others { self.new ≡ record self.old { lists = self.new.lists } }
    {
        self.links.remove(page);
    }

    /// Moves all pages of one list, in their order, before those of another (kernel:
    /// `list_splice_init`). The list that they came from is empty then. At most five nodes' links
    /// change: the two heads, the first and the last of the moved pages, and the page that follows
    /// them.
    pub fn splice_front(&mut self, source: ListId, target: ListId)
        requires source { source.0 < length self.old.lists }
        requires target { target.0 < length self.old.lists }
        requires apart { source.0 ≢ target.0 }
        ensures lists { self.new.lists ≡ slice_set
            (slice_set self.old.lists target.0 (list_at self.old.lists source.0 ++ list_at self.old.lists target.0))
            source.0 [] }
        ensures few { KeepsLinksBut
            (RingNode.Head source ∷ RingNode.Head target ∷ first_node source.0 (list_at self.old.lists source.0)
            ∷ last_node source.0 (list_at self.old.lists source.0) ∷ first_node target.0 (list_at self.old.lists target.0) ∷ [])
            self.old.lists self.new.lists }
        ensures others { self.new ≡ record self.old { lists = self.new.lists } }
    {
        if self.is_empty(source) {
            return;
        }
        let first = self.head(target).next();
        self.splice(source, target, RingNode::Head(target), first);
    }

    /// Moves all pages of one list, in their order, after those of another (kernel:
    /// `list_splice_tail_init`). The list that they came from is empty then. At most five nodes' links
    /// change: the two heads, the first and the last of the moved pages, and the page that precedes
    /// them.
    pub fn splice_back(&mut self, source: ListId, target: ListId)
        requires source { source.0 < length self.old.lists }
        requires target { target.0 < length self.old.lists }
        requires apart { source.0 ≢ target.0 }
        ensures lists { self.new.lists ≡ slice_set
            (slice_set self.old.lists target.0 (list_at self.old.lists target.0 ++ list_at self.old.lists source.0))
            source.0 [] }
        ensures few { KeepsLinksBut
            (RingNode.Head source ∷ RingNode.Head target ∷ first_node source.0 (list_at self.old.lists source.0)
            ∷ last_node source.0 (list_at self.old.lists source.0) ∷ last_node target.0 (list_at self.old.lists target.0) ∷ [])
            self.old.lists self.new.lists }
        ensures others { self.new ≡ record self.old { lists = self.new.lists } }
    {
        if self.is_empty(source) {
            return;
        }
        let last = self.head(target).prev();
        self.splice(source, target, last, RingNode::Head(target));
    }

    // Moves all pages of a list that is not empty, in their order, between two neighbours in another.
    fn splice(&mut self, source: ListId, target: ListId, before: RingNode, after: RingNode)
        requires source { source.0 < length self.old.lists }
        requires target { target.0 < length self.old.lists }
        requires apart { source.0 ≢ target.0 }
        requires some { (length (list_at self.old.lists source.0) == 0) ≡ false }
        requires gap { IsGap self.old.lists target.0 before after }
        ensures lists { (gap : IsGap self.old.lists target.0 before after) → self.new.lists ≡ slice_set
            (slice_set self.old.lists target.0 (gap.front ++ (list_at self.old.lists source.0 ++ gap.rest)))
            source.0 [] }
        ensures few { KeepsLinksBut
            (RingNode.Head source ∷ before ∷ first_node source.0 (list_at self.old.lists source.0)
            ∷ last_node source.0 (list_at self.old.lists source.0) ∷ after ∷ [])
            self.old.lists self.new.lists }
        ensures others { self.new ≡ record self.old { lists = self.new.lists } }
    {
        self.links.splice(RingNode::Head(source), before, after);
    }

    /// Does nothing. The contract states what always holds: no page is in two lists, or twice in one.
    /// The number of each page in a list is among the page numbers. The number of lists fits in 31
    /// bits.
    pub fn lists_are_apart(&self)
        ensures apart { AreApart self.now.lists }
        ensures within { (p : ℕ) → is_listed self.now.lists p ≡ true → p < self.now.numbers }
        ensures countable { length self.now.lists < 2 ^ 31 }
    {
        let _ = &self.links;
    }
}
