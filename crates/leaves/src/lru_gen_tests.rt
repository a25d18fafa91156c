//! Generation lists, compared with plain vectors after the same calls.

ghost use Rattle.std.specs.Prelude.{◌≡◌, length, nat_lt};

use lru_gen::{Gens, ListId, RingNode, list_of};
use machine::id::{GroupId, PageId};
use machine::record::Kind;
use std::alloc::{AllocError, Global};
use std::test::Fail;

// The example of the README.
#[test]
fn the_merged_pages_come_first(rt: HostRuntime) -> Result<(), Fail> {
    let mut gens = Gens::open(rt.alloc(), 16)?;
    gens.reserve_group()?;
    gens.add_group_reserved();
    let root = GroupId::ROOT;
    add(&mut gens, root, PageId(7), Kind::File, 1);
    add(&mut gens, root, PageId(4), Kind::File, 0);
    add(&mut gens, root, PageId(5), Kind::File, 0);
    merge_oldest(&mut gens, root, Kind::File);
    isolate(&mut gens, PageId(4));
    assert_eq!(rt;
        walk(rt.alloc(), &gens, root, Kind::File)?.as_slice(),
        [5, 7].as_slice()
    );
    raise_min(&mut gens, root, Kind::Anon);
    advance(&mut gens, root);
    assert_eq!(rt; min_seq(&gens, root, Kind::File), 1);
    Ok(())
}

/// A call, or what is seen after the calls before it.
#[derive(Clone, Copy)]
enum Step {
    /// A page enters this generation.
    Add(GroupId, PageId, u64),
    Isolate(PageId),
    Merge(GroupId),
    /// The pages of one group move to another.
    Move(GroupId, GroupId),
    RaiseMin(GroupId),
    Advance(GroupId),
    /// Whether pages of the type may be reclaimed. The group has no page of the other type.
    Usable(GroupId, bool),
    /// Whether a page may be reclaimed if no swap block is free.
    WithoutSwap(GroupId, bool),
    Youngest(GroupId, u64),
}

const ROOT: GroupId = GroupId::ROOT;

const CHILD: GroupId = GroupId(1);

/// Each call that gives a type its first page or takes its last one, and those that do neither.
const STEPS: [Step; 36] = [
    Step::Usable(ROOT, false),
    // Two pages on one list, and then on two.
    Step::Add(ROOT, PageId(7), 0),
    Step::Add(ROOT, PageId(4), 0),
    Step::Isolate(PageId(7)),
    Step::Usable(ROOT, true),
    Step::Isolate(PageId(4)),
    Step::Usable(ROOT, false),
    Step::Add(ROOT, PageId(7), 0),
    Step::Add(ROOT, PageId(4), 3),
    Step::Isolate(PageId(7)),
    Step::Usable(ROOT, true),
    Step::Isolate(PageId(4)),
    Step::Usable(ROOT, false),
    Step::Add(ROOT, PageId(7), 0),
    Step::Merge(ROOT),
    Step::Usable(ROOT, true),
    Step::Isolate(PageId(7)),
    Step::Usable(ROOT, false),
    // The pages move from one group to the other and back. A group without pages takes none away from one that has some.
    Step::Add(ROOT, PageId(7), 3),
    Step::Move(ROOT, CHILD),
    Step::Usable(ROOT, false),
    Step::Usable(CHILD, true),
    Step::Move(ROOT, CHILD),
    Step::Usable(ROOT, false),
    Step::Usable(CHILD, true),
    Step::Move(CHILD, ROOT),
    Step::Usable(CHILD, false),
    Step::Usable(ROOT, true),
    Step::Add(CHILD, PageId(4), 3),
    Step::Move(ROOT, CHILD),
    Step::Isolate(PageId(4)),
    Step::Usable(CHILD, true),
    Step::Isolate(PageId(7)),
    Step::Usable(CHILD, false),
    Step::RaiseMin(ROOT),
    Step::Usable(ROOT, false),
];

/// The same for files and then for anonymous pages. An anonymous page alone is usable only if a swap block is free, and
/// one of a file always.
const RUNS: [(Kind, &[Step]); 4] = [
    (Kind::File, &STEPS),
    (Kind::Anon, &STEPS),
    (
        Kind::Anon,
        &[
            Step::Add(ROOT, PageId(7), 3),
            Step::Advance(ROOT),
            Step::Youngest(ROOT, 4),
            Step::Usable(ROOT, true),
            Step::WithoutSwap(ROOT, false),
        ],
    ),
    (
        Kind::File,
        &[
            Step::Usable(ROOT, false),
            Step::Add(ROOT, PageId(4), 3),
            Step::WithoutSwap(ROOT, true),
        ],
    ),
];

/// Makes the call, or looks. Returns whether it could be made, or what was seen was right.
fn is_right(gens: &mut Gens, kind: Kind, step: Step) -> bool {
    match step {
        Step::Add(group, page, seq) => add(gens, group, page, kind, seq),
        Step::Isolate(page) => {
            isolate(gens, page);
            true
        }
        Step::Merge(group) => merge_oldest(gens, group, kind),
        Step::Move(from, to) => take_over(gens, from, to).is_some(),
        Step::RaiseMin(group) => raise_min(gens, group, kind),
        Step::Advance(group) => advance(gens, group),
        Step::Usable(group, wanted) => has_usable(gens, group, kind == Kind::Anon) == wanted,
        Step::WithoutSwap(group, wanted) => has_usable(gens, group, false) == wanted,
        Step::Youngest(group, wanted) => max_seq(gens, group) == wanted,
    }
}

/// New lists, of this number of groups.
fn opened(alloc: Global, groups: u32, pages: usize) -> Result<Gens, AllocError> {
    let mut gens = Gens::open(alloc, pages)?;
    for _ in 0..groups {
        gens.reserve_group()?;
        gens.add_group_reserved();
    }
    Ok(gens)
}

#[test]
fn a_type_is_usable_while_it_has_a_page(rt: HostRuntime) -> Result<(), Fail> {
    let mut gens = opened(rt.alloc(), 2, 16)?;
    for (run, (kind, steps)) in RUNS.iter().enumerate() {
        for (at, step) in steps.iter().enumerate() {
            let right = is_right(&mut gens, *kind, *step);
            assert!(rt; right, "step {at} of run {run}");
        }
    }
    Ok(())
}

const GROUPS: u32 = 3;

const PAGES: usize = 64;

// No generation of the next test has a number from this on.
const SEQS: u64 = 200;

// How many calls the next test makes.
const CALLS: usize = 10_000;

// How many kinds of calls the next test makes.
const KINDS: usize = 6;

// What a call of the next test is.
#[derive(Clone, Copy)]
enum Call {
    Add,
    Isolate,
    MergeOldest,
    RaiseMin,
    Advance,
    TakeOver,
}

// Empty vectors.
fn empty(alloc: Global) -> Result<Plain, AllocError> {
    let mut lists = Vec::new(alloc);
    for _ in 0..2 * SEQS * GROUPS as u64 {
        lists.push(Vec::new(alloc))?;
    }
    Ok(Plain { lists })
}

// Makes calls on both, and compares them after each until they differ. Returns how many calls of each kind it made, and
// whether they were the same to the end.
fn calls_of(
    alloc: Global,
    gens: &mut Gens,
    plain: &mut Plain,
) -> Result<([usize; KINDS], bool), AllocError> {
    let mut made = [0usize; KINDS];
    let mut calls = 0usize;
    let mut seed: u64 = 1;
    for _ in 0..5 * CALLS {
        if calls == CALLS {
            break;
        }
        seed = seed
            .wrapping_mul(6364136223846793005)
            .wrapping_add(1442695040888963407);
        if let Some(call) = call_both(alloc, gens, plain, seed)? {
            calls = calls.wrapping_add(1);
            if let Some(count) = made.get_mut(call as usize) {
                *count = count.wrapping_add(1);
            }
            if !all_match(alloc, gens, plain)? {
                return Ok((made, false));
            }
        }
    }
    Ok((made, true))
}

// After each call the pages are the same as in plain vectors after the same calls. There is a vector for each
// generation that ever was. The pages are read by `first` and `after`, and along the stored links of each list both
// ways.
#[test]
fn mixed_calls_match_plain_vectors(rt: HostRuntime) {
    let mut gens = opened(rt.alloc(), GROUPS, PAGES).expect(&rt, "no memory");
    let mut plain = empty(rt.alloc()).expect(&rt, "no memory");
    let (made, same) = calls_of(rt.alloc(), &mut gens, &mut plain).expect(&rt, "no memory");
    let all = made
        .iter()
        .fold(0usize, |all, count| all.wrapping_add(*count));
    assert_eq!(rt; (all, same), (CALLS, true));
    assert!(rt; made.iter().all(|count| *count > 100));
    assert!(rt; min_seq(&gens, GroupId(0), Kind::File) > 10);
}

// The call that these bits name, made on both if it may be made.
fn call_both(
    alloc: Global,
    gens: &mut Gens,
    plain: &mut Plain,
    bits: u64,
) -> Result<Option<Call>, AllocError> {
    let page = PageId(((bits >> 40) % 64) as u32);
    let group = GroupId(((bits >> 30) % 3) as u32);
    let kind = kind_of(bits >> 33);
    let oldest = min_seq(gens, group, kind);
    match bits >> 60 {
        0 => {
            if !merge_oldest(gens, group, kind) {
                return Ok(None);
            }
            plain.merge(alloc, group, kind, oldest)?;
            Ok(Some(Call::MergeOldest))
        }
        1 => Ok(raise_min(gens, group, kind).then_some(Call::RaiseMin)),
        2 => Ok(advance(gens, group).then_some(Call::Advance)),
        3 => {
            let from = GroupId(group.0.wrapping_add(1) % GROUPS);
            let Some(seq) = take_over(gens, from, group) else {
                return Ok(None);
            };
            for kind in [Kind::Anon, Kind::File] {
                let oldest = min_seq(gens, from, kind);
                plain.take_over(alloc, from, oldest, group, seq, kind)?;
            }
            Ok(Some(Call::TakeOver))
        }
        _ => {
            let seq = oldest.wrapping_add((bits >> 50) % 4);
            if gens.is_listed(page) {
                isolate(gens, page);
                plain.remove(page);
                return Ok(Some(Call::Isolate));
            }
            if !add(gens, group, page, kind, seq) {
                return Ok(None);
            }
            plain.push(group, kind, seq, page)?;
            Ok(Some(Call::Add))
        }
    }
}

// Whether each type of each group has the pages of the plain vectors, and is usable if they have one.
fn all_match(alloc: Global, gens: &Gens, plain: &Plain) -> Result<bool, AllocError> {
    for group in 0..GROUPS {
        if !group_matches(alloc, gens, plain, GroupId(group))? {
            return Ok(false);
        }
    }
    Ok(true)
}

fn group_matches(
    alloc: Global,
    gens: &Gens,
    plain: &Plain,
    group: GroupId,
) -> Result<bool, AllocError> {
    let files = plain.has_page(alloc, gens, group, Kind::File)?;
    let anon = plain.has_page(alloc, gens, group, Kind::Anon)?;
    Ok(
        has_usable(gens, group, false) == files
            && has_usable(gens, group, true) == (files || anon)
            && row_matches(alloc, gens, plain, group, Kind::Anon)?
            && row_matches(alloc, gens, plain, group, Kind::File)?,
    )
}

fn row_matches(
    alloc: Global,
    gens: &Gens,
    plain: &Plain,
    group: GroupId,
    kind: Kind,
) -> Result<bool, AllocError> {
    let oldest = min_seq(gens, group, kind);
    for turn in 0..4 {
        if !list_matches(alloc, gens, plain, group, kind, oldest.wrapping_add(turn))? {
            return Ok(false);
        }
    }
    let pages = walk(alloc, gens, group, kind)?;
    let row = plain.row(alloc, group, kind, oldest, 4)?;
    Ok(pages.as_slice() == row.as_slice())
}

// Whether the stored links form a ring for the list, and name its pages in order both ways.
fn list_matches(
    alloc: Global,
    gens: &Gens,
    plain: &Plain,
    group: GroupId,
    kind: Kind,
    seq: u64,
) -> Result<bool, AllocError> {
    if group.0 >= GROUPS {
        return Ok(false);
    }
    let list = list_of(group, kind, seq);
    let Some(pages) = plain.lists.get(place(group, kind, seq)) else {
        return Ok(false);
    };
    Ok(is_round(gens, list, Way::Forth, pages) && is_round(gens, list, Way::Back, pages))
}

// Which neighbour of each node comes next in a walk around a list.
#[derive(Clone, Copy)]
enum Way {
    Forth,
    Back,
}

// The neighbour of a node.
fn neighbour(gens: &Gens, node: RingNode, way: Way) -> Option<RingNode> {
    let link = gens.link(node)?;
    Some(match way {
        Way::Forth => link.next(),
        Way::Back => link.prev(),
    })
}

// Whether the stored links from the head of a list on name these pages, and lead back to it.
fn is_round(gens: &Gens, list: ListId, way: Way, pages: &[u32]) -> bool {
    let mut node = RingNode::Head(list);
    for at in 0..pages.len() {
        let page = match way {
            Way::Forth => pages[at],
            Way::Back => pages[pages.len() - 1 - at],
        };
        match neighbour(gens, node, way) {
            Some(RingNode::Page(found)) if found.0 == page => node = RingNode::Page(found),
            _ => return false,
        }
    }
    matches!(neighbour(gens, node, way), Some(RingNode::Head(end)) if end == list)
}

fn kind_of(bits: u64) -> Kind {
    if bits % 2 == 0 {
        Kind::Anon
    } else {
        Kind::File
    }
}

// A vector for each sequence number of each type of each group.
#[derive(Drop)]
struct Plain {
    lists: Vec<Vec<u32>>,
}

fn place(group: GroupId, kind: Kind, seq: u64) -> usize {
    let first = match kind {
        Kind::Anon => 0,
        Kind::File => 1,
    };
    (group.0 as usize * 2 + first) * SEQS as usize + (seq % SEQS) as usize
}

impl Plain {
    fn push(
        &mut self,
        group: GroupId,
        kind: Kind,
        seq: u64,
        page: PageId,
    ) -> Result<(), AllocError> {
        if let Some(pages) = self.lists.get_mut(place(group, kind, seq)) {
            pages.push(page.0)?;
        }
        Ok(())
    }

    fn remove(&mut self, page: PageId) {
        for pages in self.lists.iter_mut() {
            pages.retain(|other| *other != page.0);
        }
    }

    // The pages of this generation come before those of the next.
    fn merge(
        &mut self,
        alloc: Global,
        group: GroupId,
        kind: Kind,
        seq: u64,
    ) -> Result<(), AllocError> {
        let joined = self.row(alloc, group, kind, seq, 2)?;
        if let Some(pages) = self.lists.get_mut(place(group, kind, seq)) {
            pages.clear();
        }
        if let Some(pages) = self.lists.get_mut(place(group, kind, seq.wrapping_add(1))) {
            *pages = joined;
        }
        Ok(())
    }

    // The pages of four generations come after those of another group's generation.
    fn take_over(
        &mut self,
        alloc: Global,
        from: GroupId,
        oldest: u64,
        to: GroupId,
        seq: u64,
        kind: Kind,
    ) -> Result<(), AllocError> {
        let moved = self.row(alloc, from, kind, oldest, 4)?;
        for turn in 0..4 {
            if let Some(pages) = self
                .lists
                .get_mut(place(from, kind, oldest.wrapping_add(turn)))
            {
                pages.clear();
            }
        }
        if let Some(pages) = self.lists.get_mut(place(to, kind, seq)) {
            pages.extend_from_slice(moved.as_slice())?;
        }
        Ok(())
    }

    fn has_page(
        &self,
        alloc: Global,
        gens: &Gens,
        group: GroupId,
        kind: Kind,
    ) -> Result<bool, AllocError> {
        let row = self.row(alloc, group, kind, min_seq(gens, group, kind), 4)?;
        Ok(!row.is_empty())
    }

    fn row(
        &self,
        alloc: Global,
        group: GroupId,
        kind: Kind,
        oldest: u64,
        generations: u64,
    ) -> Result<Vec<u32>, AllocError> {
        let mut row = Vec::new(alloc);
        for turn in 0..generations {
            if let Some(pages) = self
                .lists
                .get(place(group, kind, oldest.wrapping_add(turn)))
            {
                row.extend_from_slice(pages.as_slice())?;
            }
        }
        Ok(row)
    }
}

fn has_group(gens: &Gens, group: GroupId) -> bool
    ensures { result ≡ nat_lt group.0 (length gens.now.groups) }
{
    (group.0 as usize) < gens.groups()
}

// The calls, if they may be made.
fn add(gens: &mut Gens, group: GroupId, page: PageId, kind: Kind, seq: u64) -> bool {
    if !has_group(gens, group) || page.0 as usize >= gens.pages() || gens.is_listed(page) {
        return false;
    }
    if seq < gens.min_seq(group, kind) || gens.max_seq(group) < seq {
        return false;
    }
    gens.add(group, page, kind, seq);
    true
}

fn isolate(gens: &mut Gens, page: PageId) {
    if gens.is_listed(page) {
        gens.isolate(page);
    }
}

fn merge_oldest(gens: &mut Gens, group: GroupId, kind: Kind) -> bool {
    if !has_group(gens, group) {
        return false;
    }
    let youngest = gens.max_seq(group);
    if youngest < 3 || gens.min_seq(group, kind) != youngest - 3 {
        return false;
    }
    gens.merge_oldest(group, kind);
    true
}

// The number of the generation that the pages came to.
fn take_over(gens: &mut Gens, from: GroupId, to: GroupId) -> Option<u64> {
    if !has_group(gens, from) || !has_group(gens, to) || from == to {
        return None;
    }
    gens.take_over(from, to);
    Some(gens.max_seq(to).wrapping_sub(1))
}

fn raise_min(gens: &mut Gens, group: GroupId, kind: Kind) -> bool {
    if !has_group(gens, group) {
        return false;
    }
    let youngest = gens.max_seq(group);
    if youngest < 2
        || gens.min_seq(group, kind) > youngest - 2
        || gens.front(group, kind).is_some()
    {
        return false;
    }
    gens.raise_min(group, kind);
    true
}

fn advance(gens: &mut Gens, group: GroupId) -> bool {
    if !has_group(gens, group) {
        return false;
    }
    let youngest = gens.max_seq(group);
    if youngest < 2 || youngest >= SEQS - 1 {
        return false;
    }
    if gens.min_seq(group, Kind::Anon) < youngest - 2
        || gens.min_seq(group, Kind::File) < youngest - 2
    {
        return false;
    }
    gens.advance(group);
    true
}

fn has_usable(gens: &Gens, group: GroupId, swap_free: bool) -> bool {
    has_group(gens, group) && gens.has_usable(group, swap_free)
}

fn min_seq(gens: &Gens, group: GroupId, kind: Kind) -> u64 {
    if has_group(gens, group) {
        gens.min_seq(group, kind)
    } else {
        0
    }
}

fn max_seq(gens: &Gens, group: GroupId) -> u64 {
    if has_group(gens, group) {
        gens.max_seq(group)
    } else {
        0
    }
}

// The pages of a type, from the first, and then the page after each.
fn walk(alloc: Global, gens: &Gens, group: GroupId, kind: Kind) -> Result<Vec<u32>, AllocError> {
    let mut pages = Vec::new(alloc);
    if !has_group(gens, group) {
        return Ok(pages);
    }
    let mut next = gens.first(group, kind);
    for _ in 0..gens.pages() {
        let Some(page) = next else {
            break;
        };
        pages.push(page.0)?;
        next = gens.after(group, kind, page);
    }
    Ok(pages)
}
