//! Lists of pages, compared with plain vectors after the same calls.

use machine::id::PageId;
use rings::{ListId, RingNode, Rings};
use std::alloc::{AllocError, Global};
use std::test::Fail;

// The example of the README.
#[test]
fn the_older_pages_come_first(rt: HostRuntime) -> Result<(), Fail> {
    let mut rings = Rings::open(rt.alloc(), 8)?;
    rings.reserve(2)?;
    rings.add(2);
    let (old, young) = (ListId(0), ListId(1));
    rings.push_back(old, PageId(3));
    rings.push_back(old, PageId(1));
    rings.push_back(young, PageId(5));
    rings.remove(PageId(3));
    rings.splice_front(old, young);
    assert_eq!(rt; rings.front(young), Some(PageId(1)));
    let after = [rings.after(PageId(1)), rings.after(PageId(5))];
    assert_eq!(rt;
        (after, rings.before(PageId(5))),
        ([Some(PageId(5)), None], Some(PageId(1)))
    );
    assert!(rt; rings.is_empty(old) && !rings.is_listed(PageId(3)));
    Ok(())
}

// There are fewer page numbers than a link can name.
#[test]
fn too_many_page_numbers_are_refused(rt: HostRuntime) {
    assert!(rt; Rings::open(rt.alloc(), 1 << 31).is_err());
}

const LISTS: u32 = 4;

const NUMBERS: u32 = 32;

/// Makes the call that these bits name, on both.
fn call_both(
    alloc: Global,
    rings: &mut Rings,
    plain: &mut Vec<Vec<u32>>,
    bits: u64,
) -> Result<(), AllocError> {
    let list = ((bits >> 30) % 4) as u32;
    let target = (list + 1) % LISTS;
    match bits >> 60 {
        0 => {
            splice_front(rings, list, target);
            splice_plain(alloc, plain, list, target, [list, target])
        }
        1 => {
            splice_back(rings, list, target);
            splice_plain(alloc, plain, list, target, [target, list])
        }
        _ => toggle_both(rings, plain, list, PageId(((bits >> 40) % 32) as u32)),
    }
}

/// Removes the page from its list, or adds it at the end of this one if it is on none.
fn toggle_both(
    rings: &mut Rings,
    plain: &mut Vec<Vec<u32>>,
    list: u32,
    page: PageId,
) -> Result<(), AllocError> {
    if rings.is_listed(page) {
        rings.remove(page);
        for pages in plain.iter_mut() {
            pages.retain(|other| *other != page.0);
        }
        return Ok(());
    }
    push_back(rings, list, page);
    if let Some(pages) = plain.get_mut(list as usize) {
        pages.push(page.0)?;
    }
    Ok(())
}

/// Whether each list has the pages of its vector, from its front on and from its back on.
fn all_match(rings: &Rings, plain: &[Vec<u32>]) -> bool {
    for (list, pages) in (0..LISTS).zip(plain.iter()) {
        if !is_forth(rings, ListId(list), pages) || !is_back(rings, ListId(list), pages) {
            return false;
        }
    }
    true
}

/// Makes calls on both, until the lists differ from the vectors. Returns how many calls it made.
fn calls_of(
    alloc: Global,
    rings: &mut Rings,
    plain: &mut Vec<Vec<u32>>,
) -> Result<u32, AllocError> {
    let mut seed: u64 = 1;
    for call in 0..5_000 {
        seed = seed
            .wrapping_mul(6364136223846793005)
            .wrapping_add(1442695040888963407);
        call_both(alloc, rings, plain, seed)?;
        if !all_match(rings, plain) {
            return Ok(call);
        }
    }
    Ok(5_000)
}

/// As many empty vectors as there are lists.
fn empty(alloc: Global) -> Result<Vec<Vec<u32>>, AllocError> {
    let mut plain = Vec::new(alloc);
    for _ in 0..LISTS {
        plain.push(Vec::new(alloc))?;
    }
    Ok(plain)
}

// After each call the lists are as vectors are after the same calls.
#[test]
fn mixed_calls_match_plain_vectors(rt: HostRuntime) -> Result<(), Fail> {
    let mut rings = Rings::open(rt.alloc(), NUMBERS)?;
    rings.reserve(LISTS)?;
    rings.add(LISTS);
    let mut plain = empty(rt.alloc())?;
    assert_eq!(rt; calls_of(rt.alloc(), &mut rings, &mut plain), Ok(5_000));
    Ok(())
}

// The calls, if they may be made.
fn push_back(rings: &mut Rings, list: u32, page: PageId) {
    let there = list < rings.len() && page.0 < rings.numbers();
    if there && !rings.is_listed(page) {
        rings.push_back(ListId(list), page);
    }
}

fn splice_front(rings: &mut Rings, source: u32, target: u32) {
    if source < rings.len() && target < rings.len() && source != target {
        rings.splice_front(ListId(source), ListId(target));
    }
}

fn splice_back(rings: &mut Rings, source: u32, target: u32) {
    if source < rings.len() && target < rings.len() && source != target {
        rings.splice_back(ListId(source), ListId(target));
    }
}

fn after(rings: &Rings, page: PageId) -> Option<PageId> {
    if !rings.is_listed(page) {
        return None;
    }
    rings.after(page)
}

fn before(rings: &Rings, page: PageId) -> Option<PageId> {
    if !rings.is_listed(page) {
        return None;
    }
    rings.before(page)
}

// Whether the list has these pages, from its front on.
fn is_forth(rings: &Rings, list: ListId, pages: &[u32]) -> bool {
    if list.0 >= rings.len() {
        return false;
    }
    let mut next = rings.front(list);
    for page in pages {
        match next {
            Some(found) if found.0 == *page => next = after(rings, found),
            _ => return false,
        }
    }
    next.is_none()
}

// The same backwards, from the head's link.
fn is_back(rings: &Rings, list: ListId, pages: &[u32]) -> bool {
    let Some(head) = rings.link(RingNode::Head(list)) else {
        return false;
    };
    let mut prev = head.prev().page();
    for page in pages.iter().rev() {
        match prev {
            Some(found) if found.0 == *page => prev = before(rings, found),
            _ => return false,
        }
    }
    prev.is_none()
}

// The source's pages move to the target, which then has those of the two lists in this order.
fn splice_plain(
    alloc: Global,
    plain: &mut Vec<Vec<u32>>,
    source: u32,
    target: u32,
    order: [u32; 2],
) -> Result<(), AllocError> {
    let mut joined = Vec::new(alloc);
    for list in order {
        if let Some(pages) = plain.get(list as usize) {
            joined.extend_from_slice(pages.as_slice())?;
        }
    }
    if let Some(pages) = plain.get_mut(source as usize) {
        pages.clear();
    }
    if let Some(pages) = plain.get_mut(target as usize) {
        *pages = joined;
    }
    Ok(())
}
