//! Looks at a book. They are not events, and nothing changes.

ghost use Rattle.std.specs.Prelude.{◌≡◌, ℕ, ◌+◌, ◌<◌, length, option_map, IfSome, true};
ghost use Rattle.machine.specs.Pages.{used_frames, used_swap, in_transfer};
ghost use Rattle.machine.specs.Reclaim.{target_of};
ghost use Rattle.machine.specs.Tasks.{group_of_task, size_of};
ghost use Rattle.machine.specs.Victim.{IsVictims};
ghost use Rattle.book.specs.Looks.{look_at, stat_at, events_at, max_seq_at, candidates, is_as_large, count_as_large, IsNextAsLarge, dying_of, shows, IsFirstIn, IsFirstMapping, IsPageLook};

use crate::book::Book;
use crate::decide::target_of;
use group_tree::Tree;
use machine::amount::Amount;
use machine::event::Cause;
use machine::id::{GroupId, PageId, TaskId, TicketId};
use machine::limit::TASK_PAGES;
use machine::record::{EventCounts, Kind, MemoryStat};
use oom::{is_candidate, victims};
use page_state::State;
use pages::Pages;
use spaces::Spaces;

/// The state of a group at some moment.
#[derive(Clone, Copy, Debug, PartialEq, Eq)]
pub struct GroupLook {
    /// The group's number among all groups that were ever made.
    pub number: u32,
    /// Pages that are charged to it and below it (`memory.current`, in pages).
    pub usage: u64,
    /// `memory.max`
    pub max: Amount,
    /// `memory.min`
    pub min: Amount,
    /// `memory.low`
    pub low: Amount,
    /// The counts of the group itself (`memory.events.local`).
    pub local: EventCounts,
}

/// The task that a relief would kill, if it kills one.
#[derive(Clone, Copy)]
pub struct Victim {
    pub task: TaskId,
    /// The group that the task is in.
    pub home: GroupId,
    /// How many of its virtual pages map a page.
    pub pages: usize,
    /// How many tasks are live at or below the group under which room is needed, including the victim.
    pub tasks: u32,
    /// How many of the other tasks map the same number of pages. All of them have higher numbers than the victim.
    pub as_large: u32,
    /// The group under which room is needed.
    pub limit: GroupId,
    /// The group that dies with it: all live tasks in and below it. `None` if only the victim dies.
    pub group: Option<GroupId>,
}

/// A virtual page of a task.
#[derive(Clone, Copy)]
pub struct Mapping {
    pub task: TaskId,
    pub page: u32,
}

/// A page in transfer.
#[derive(Clone, Copy)]
pub struct PageLook {
    pub page: PageId,
    /// The group that is charged for it.
    pub group: GroupId,
    pub kind: Kind,
    /// The virtual page that maps it, of the lowest task number and there of the lowest page number. `None` if no task
    /// maps it, as with each page of a file.
    pub mapping: Option<Mapping>,
}

/// The free frames and blocks, the transfers and the entries of a whole machine.
#[derive(Clone, Copy, PartialEq, Eq)]
pub struct Tally {
    /// Frames without a page.
    pub free_frames: u32,
    /// Swap blocks without a page.
    pub free_blocks: u32,
    /// Pages that are being read in or written out.
    pub in_transfer: u32,
    /// Entries of the trace, without the room that is kept for the ends of transfers.
    pub entries: u32,
}

/// How many live tasks are in a group at or under the limit.
fn candidates(state: &State, limit: GroupId) -> u32
    ensures { result ≡ candidates state.now.tables.tree state.now.tables.tasks limit.0 }
{
    let mut count = 0;
    for task in 0..state.spaces().slots() as u32 {
        if is_candidate(state.tree(), state.spaces(), limit, TaskId(task)) {
            count += 1;
        }
    }
    count
}

/// Whether another live task at or under the limit maps as many pages as the victim.
fn is_as_large(tree: &Tree, spaces: &Spaces, limit: GroupId, victim: TaskId, task: TaskId) -> bool
    ensures { result ≡ is_as_large tree.now spaces.now.tasks spaces.now.page_tables limit.0 victim.0 task.0 }
{
    is_candidate(tree, spaces, limit, task)
        && spaces.size(task) == spaces.size(victim)
        && task.0 != victim.0
}

/// How many such tasks there are.
fn count_as_large(tree: &Tree, spaces: &Spaces, limit: GroupId, victim: TaskId) -> u32
    ensures { result ≡ count_as_large tree.now spaces.now.tasks spaces.now.page_tables limit.0 victim.0 }
{
    let mut count = 0;
    for task in 0..spaces.slots() as u32 {
        if is_as_large(tree, spaces, limit, victim, TaskId(task)) {
            count += 1;
        }
    }
    count
}

/// The next such task after this number.
fn next_as_large(
    tree: &Tree,
    spaces: &Spaces,
    limit: GroupId,
    victim: TaskId,
    after: TaskId,
) -> Option<TaskId>
    ensures { IsNextAsLarge tree.now spaces.now.tasks spaces.now.page_tables limit.0 victim.0 after.0 (option_map (λ t. t.0) result) }
{
    for task in after.0..spaces.slots() as u32 {
        if task > after.0 && is_as_large(tree, spaces, limit, victim, TaskId(task)) {
            return Some(TaskId(task));
        }
    }
    None
}

/// Whether the virtual page of the task maps the page.
fn maps(spaces: &Spaces, task: TaskId, at: u32, page: PageId) -> bool
    ensures { result ≡ shows spaces.now.page_tables page.0 task.0 at }
{
    match spaces.page(task, at) {
        Some(mapped) => mapped.0 == page.0,
        None => false,
    }
}

/// The first virtual page of the task that maps the page.
fn first_in(spaces: &Spaces, task: TaskId, page: PageId) -> Option<u32>
    ensures { IsFirstIn spaces.now.page_tables page.0 task.0 result }
{
    spaces.owners();
    for at in 0..TASK_PAGES {
        if maps(spaces, task, at, page) {
            return Some(at);
        }
    }
    None
}

/// The virtual page that maps the page, of the lowest task number and there of the lowest page number.
fn first_mapping(spaces: &Spaces, page: PageId) -> Option<Mapping>
    ensures { IsFirstMapping spaces.now.page_tables page.0 result }
{
    spaces.owners();
    for task in 0..spaces.slots() as u32 {
        if let Some(at) = first_in(spaces, TaskId(task), page) {
            return Some(Mapping {
                task: TaskId(task),
                page: at,
            });
        }
    }
    None
}

/// The page that is in transfer under this ticket.
fn page_in_transfer(pages: &Pages, spaces: &Spaces, ticket: TicketId) -> Option<PageLook>
    ensures { IsPageLook pages.now.pages spaces.now.page_tables ticket.0 result }
{
    pages.are_in_flight();
    let page = pages.flight(ticket)?.page;
    let (Some(group), Some(kind)) = (pages.group(page), pages.kind(page)) else {
        unreachable!()
    };
    Some(PageLook {
        page,
        group,
        kind,
        mapping: first_mapping(spaces, page),
    })
}

impl Book {
    /// The state of the group that has this path now. `None` if no group has it.
    pub fn look(&self, path: &str) -> Option<GroupLook>
        ensures { result ≡ look_at self.now.state path.now }
    {
        let group = self.state.tree().find(path)?;
        Some(GroupLook {
            number: group.0,
            usage: self.state.usage(group),
            max: self.state.limits(group).max,
            min: self.state.limits(group).min,
            low: self.state.limits(group).low,
            local: self.state.local_events(group),
        })
    }

    /// How many frames and swap blocks are free, how many pages are in transfer, and how many entries the trace has.
    pub fn tally(&self) -> Tally
        ensures frames { result.free_frames + used_frames self.now.state.pages ≡ self.now.state.opening.frames }
        ensures blocks { result.free_blocks + used_swap self.now.state.pages ≡ self.now.state.opening.swap }
        ensures in_transfer { result.in_transfer ≡ in_transfer self.now.state.pages }
        ensures entries { result.entries ≡ length self.now.history }
    {
        self.state.is_joined();
        Tally {
            free_frames: self.state.free_frames(),
            free_blocks: self.state.free_blocks(),
            in_transfer: self.state.transfers(),
            entries: self.trace().len() as u32,
        }
    }

    /// What the pages of the group that has this path now contain (`memory.stat`, in pages). The call looks at all page
    /// numbers.
    pub fn stat(&self, path: &str) -> Option<MemoryStat>
        ensures { result ≡ stat_at self.now.state path.now }
    {
        let group = self.state.tree().find(path)?;
        Some(self.state.stat(group))
    }

    /// The counts of the group that has this path now, with those of all groups below it, removed ones included
    /// (`memory.events`).
    pub fn events(&self, path: &str) -> Option<EventCounts>
        ensures { result ≡ events_at self.now.state path.now }
    {
        let group = self.state.tree().find(path)?;
        Some(self.state.events(group))
    }

    /// The number of the youngest generation of the group that has this path now (kernel: `lrugen.max_seq`). It begins
    /// at 3 and rises by one with each aging. `None` if no group has this path.
    pub fn max_seq(&self, path: &str) -> Option<u64>
        ensures { result ≡ max_seq_at self.now.state self.now.order path.now }
    {
        let group = self.state.tree().find(path)?;
        Some(self.state.max_seq(group))
    }

    /// The task that a relief for this cause kills, if it kills one now, and the group that dies with it. A relief
    /// kills only if the cause still applies, no page can be reclaimed, and none is in transfer. The call looks at all
    /// task numbers.
    pub fn victim(&self, cause: Cause) -> Option<Victim>
        ensures who { IsVictims self.now.state.tree self.now.state.flags self.now.state.tasks self.now.state.page_tables (target_of cause) (option_map dying_of result) }
        ensures home { IfSome result (λ v. v.home.0 ≡ group_of_task self.now.state.tasks v.task.0) }
        ensures pages { IfSome result (λ v. v.pages ≡ size_of self.now.state.page_tables v.task.0) }
        ensures tasks { IfSome result (λ v. v.tasks ≡ candidates self.now.state.tree self.now.state.tasks (target_of cause)) }
        ensures as_large { IfSome result (λ v. v.as_large ≡ count_as_large self.now.state.tree self.now.state.tasks self.now.state.page_tables (target_of cause) v.task.0) }
        ensures lowest { IfSome result (λ v. (t : ℕ) → is_as_large self.now.state.tree self.now.state.tasks self.now.state.page_tables (target_of cause) v.task.0 t ≡ true → v.task.0 < t) }
        ensures limit { IfSome result (λ v. v.limit.0 ≡ target_of cause) }
    {
        let limit = target_of(cause);
        let chosen = victims(
            self.state.tree(),
            self.state.spaces(),
            self.state.flags(),
            limit,
        )?;
        let Some(task) = self.state.spaces().task(chosen.victim) else {
            unreachable!()
        };
        Some(Victim {
            task: chosen.victim,
            home: task.group,
            pages: self.state.spaces().size(chosen.victim),
            tasks: candidates(&self.state, limit),
            as_large: count_as_large(self.state.tree(), self.state.spaces(), limit, chosen.victim),
            limit,
            group: chosen.group,
        })
    }

    /// The next task after this number that is live at or below the victim's limit group and maps as many pages as the
    /// victim. The call looks at each later task number.
    pub fn next_as_large(&self, victim: &Victim, after: TaskId) -> Option<TaskId>
        ensures { IsNextAsLarge self.now.state.tree self.now.state.tasks self.now.state.page_tables victim.now.limit.0 victim.now.task.0 after.0 (option_map (λ t. t.0) result) }
    {
        next_as_large(
            self.state.tree(),
            self.state.spaces(),
            victim.limit,
            victim.task,
            after,
        )
    }

    /// The page that is in transfer under this ticket. `None` if there is no such transfer. The call looks at the page
    /// tables of all tasks up to the first that maps the page.
    pub fn page_in_transfer(&self, ticket: TicketId) -> Option<PageLook>
        ensures { IsPageLook self.now.state.pages self.now.state.page_tables ticket.0 result }
    {
        page_in_transfer(self.state.pages(), self.state.spaces(), ticket)
    }
}
