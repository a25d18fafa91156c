//! Tasks, and the pages that their virtual pages map.
//!
//! A task is known by its number, also after it ended, so no number is used twice. Each live task has a
//! page table. Its memory is allocated when the task starts, and freed when it ends. The crate counts
//! the live tasks, in all and by group, and the virtual pages that map each page. Reading one of these
//! counts needs no walk over the tasks.
#![tactic(auto)]

ghost use Rattle.std.specs.Prelude.{◌≡◌, ◌≢◌, ℕ, ◌+◌, ◌<◌, ◌≤◌, [], true, false, Some, None, IfOk, OnOk, OnErr, length, max, vec_capacity, vec_len, option_map};
ghost use Rattle.machine.specs.Access.{task_pages};
ghost use Rattle.machine.specs.Slots.{Changes};
ghost use Rattle.machine.specs.Tasks.{task_at, lives, has_tasks, group_of, group_of_task, is_live_life, SetsTask, table_of, mapped_at, size_of, mappers, Shows, Copies, ShowsNothing};
ghost use Rattle.machine.specs.Refusals.{number_refusal};

mod page_table;

use crate::page_table::PageTable;
use machine::id::{GroupId, PageId, TaskId};
use machine::limit::{LAST_TASK, MOST_TASKS};
use machine::record::{Life, Task};
use machine::refusal::Refusal;
use std::alloc::{AllocError, Global};
use std::marker::Model;

/// The tasks by their numbers, and what the virtual pages of the live ones map (kernel: each task's
/// `mm_struct`, and `_mapcount` of a `struct page`).
#[derive(Drop)]
pub struct Spaces {
    tasks: Vec<Option<Task>>,
    /// How many tasks are live.
    live: usize,
    /// By group: how many of its tasks are live (kernel: `nr_tasks` of a `struct css_set`).
    by_group: Vec<u32>,
    /// By task number: the page table.
    tables: Vec<PageTable>,
    /// By page number: how many virtual pages map the page.
    mappers: Vec<u32>,
}

impl Model for Spaces {
    ghost use Rattle.spaces.specs.Space.{Space};

    ghost Value = { Space };

    ghost use Rattle.spaces.specs.Tables.{space_of, AreSpaces};

    ghost view = { space_of };

    ghost invariant = { λ s. AreSpaces s.tasks.items s.tables.items s.live s.by_group.items s.mappers.items };
}

impl Spaces {
    /// No task, the root as the only group, and this many page numbers. No page is mapped. `AllocError`
    /// if there is no memory for the counts.
    pub fn new(alloc: Global, numbers: u32) -> Result<Self, AllocError>
        ensures tasks { IfOk result (λ s. s.tasks ≡ []) }
        ensures page_tables { IfOk result (λ s. s.page_tables ≡ []) }
        ensures numbers { IfOk result (λ s. s.numbers ≡ numbers) }
        ensures groups { IfOk result (λ s. s.groups ≡ 1) }
    {
        let mut by_group = Vec::with_capacity(alloc, 1)?;
        by_group.push_reserved(0);
        let mut mappers = Vec::new(alloc);
        mappers.resize(numbers as usize, 0)?;
        Ok(Spaces {
            tasks: Vec::new(alloc),
            live: 0,
            by_group,
            tables: Vec::new(alloc),
            mappers,
        })
    }

    /// The task with this number, if there ever was one.
    pub fn task(&self, task: TaskId) -> Option<Task>
        ensures { result ≡ task_at self.now.tasks task.0 }
    {
        match self.tasks.get(task.0 as usize) {
            Some(slot) => *slot,
            None => None,
        }
    }

    /// Why no new task can have this number: `Invalid` outside 1 to 65,535, `NumberUsed` for a number
    /// that a task had before, `NoSpace` if 1,024 tasks are live.
    pub fn number_refusal(&self, task: TaskId) -> Option<Refusal>
        ensures { result ≡ number_refusal self.now.tasks task.0 }
    {
        if task.0 < 1 || task.0 > LAST_TASK {
            return Some(Refusal::Invalid);
        }
        if self.task(task).is_some() {
            return Some(Refusal::NumberUsed);
        }
        if self.live >= MOST_TASKS {
            return Some(Refusal::NoSpace);
        }
        None
    }

    /// Whether the group has a live task (kernel: `cgroup_has_tasks`). A group that does not exist has
    /// none.
    pub fn has_tasks(&self, group: GroupId) -> bool
        ensures { result ≡ has_tasks self.now.tasks group.0 }
    {
        match self.by_group.get(group.0 as usize) {
            Some(count) => *count > 0,
            None => false,
        }
    }

    /// Reserves the memory for another group. `AllocError` if memory runs out. The tasks and their
    /// mappings do not change in either case.
    pub fn reserve_group(&mut self) -> Result<(), AllocError>
        ensures room { OnOk result (0 < self.new.room) }
        ensures same { self.new ≡ record self.old { room = self.new.room } }
    {
        self.by_group.reserve(1)
    }

    /// Adds a group without tasks. [`Spaces::reserve_group`] reserved its memory.
    pub fn add_group(&mut self)
        requires { 0 < self.old.room }
        ensures { self.new ≡ record self.old { groups = self.old.groups + 1; room = self.new.room } }
    {
        self.by_group.push_reserved(0);
    }

    /// A bound for loops over the tasks: every task's number is below it.
    pub fn slots(&self) -> usize
        ensures slots { result ≡ length self.now.tasks }
        ensures within { result ≤ 65536 }
    {
        self.tasks.len()
    }

    /// Starts a task of the group, with a page table of its own (kernel: `copy_process`, `mm_alloc`). If
    /// memory runs out, nothing changes.
    pub fn spawn(&mut self, task: TaskId, group: GroupId) -> Result<(), AllocError>
        requires number { number_refusal self.old.tasks task.0 ≡ None }
        requires group { group.0 < self.old.groups }
        ensures starts { OnOk result (SetsTask self.old.tasks task.0 group.0 Life.Live self.new.tasks) }
        ensures shown { OnOk result (ShowsNothing self.old.page_tables self.new.page_tables task.0) }
        ensures same { OnOk result ((u v : ℕ) → mapped_at self.new.page_tables u v ≡ mapped_at self.old.page_tables u v) }
        ensures numbers { OnOk result (self.new.numbers ≡ self.old.numbers) }
        ensures groups { OnOk result (self.new.groups ≡ self.old.groups) }
        ensures room { OnOk result (self.new.room ≡ self.old.room) }
        ensures err { OnErr result (self.new ≡ self.old) }
    {
        let index = task.0 as usize;
        let alloc = *self.tables.allocator();
        let table = PageTable::new(alloc)?;
        reserve_number(&mut self.tasks, index)?;
        reserve_number(&mut self.tables, index)?;
        let life = Life::Live;
        put_task(&mut self.tasks, index, Task { group, life });
        put_table(&mut self.tables, index, table, alloc);
        self.live += 1;
        self.by_group[group.0 as usize] += 1;
        Ok(())
    }

    /// Starts a task in the group of a live one, with a page table that maps the same pages (kernel:
    /// `copy_process`, `dup_mmap`). If memory runs out, nothing changes.
    pub fn fork(&mut self, parent: TaskId, child: TaskId) -> Result<(), AllocError>
        requires alive { lives self.old.tasks parent.0 ≡ true }
        requires number { number_refusal self.old.tasks child.0 ≡ None }
        ensures starts { OnOk result (SetsTask self.old.tasks child.0 (group_of_task self.old.tasks parent.0) Life.Live self.new.tasks) }
        ensures shown { OnOk result (Copies self.old.page_tables self.new.page_tables parent.0 child.0) }
        ensures numbers { OnOk result (self.new.numbers ≡ self.old.numbers) }
        ensures groups { OnOk result (self.new.groups ≡ self.old.groups) }
        ensures room { OnOk result (self.new.room ≡ self.old.room) }
        ensures err { OnErr result (self.new ≡ self.old) }
    {
        self.owners();
        let group = group_of(self.task(parent));
        let bound = self.bound(parent);
        self.spawn(child, group)?;
        for at in 0..bound {
            if let Some(page) = self.page(parent, at) {
                self.map(child, at, page);
            }
        }
        Ok(())
    }

    /// Moves a live task to another group (kernel: `cgroup_attach_task`).
    pub fn attach(&mut self, task: TaskId, group: GroupId)
        requires there { lives self.old.tasks task.0 ≡ true }
        requires group { group.0 < self.old.groups }
        ensures moves { SetsTask self.old.tasks task.0 group.0 Life.Live self.new.tasks }
        ensures tables { self.new.page_tables ≡ self.old.page_tables }
        ensures numbers { self.new.numbers ≡ self.old.numbers }
        ensures groups { self.new.groups ≡ self.old.groups }
        ensures room { self.new.room ≡ self.old.room }
    {
        let from = group_of(self.task(task));
        let life = Life::Live;
        self.tasks[task.0 as usize] = Some(Task { group, life });
        self.by_group[from.0 as usize] -= 1;
        self.by_group[group.0 as usize] += 1;
    }

    /// The page that a virtual page of the task maps (kernel: a walk of the page table).
    pub fn page(&self, task: TaskId, at: u32) -> Option<PageId>
        ensures { option_map (λ page. page.0) result ≡ mapped_at self.now.page_tables task.0 at }
    {
        match self.tables.get(task.0 as usize) {
            Some(table) => table.page(at),
            None => None,
        }
    }

    /// A number that is above those of all virtual pages of the task that map a page. It is at most 1,024.
    pub fn bound(&self, task: TaskId) -> u32
        ensures within { result ≤ task_pages }
        ensures above { (at : ℕ) → result ≤ at → mapped_at self.now.page_tables task.0 at ≡ None }
    {
        match self.tables.get(task.0 as usize) {
            Some(table) => table.bound(),
            None => 0,
        }
    }

    /// How many virtual pages map the page (kernel: `folio_mapcount`).
    pub fn mappers(&self, page: PageId) -> u32
        ensures { result ≡ mappers self.now.page_tables page.0 }
    {
        match self.mappers.get(page.0 as usize) {
            Some(count) => *count,
            None => 0,
        }
    }

    /// How many virtual pages of the task map a page, in a frame or in swap (kernel: what `oom_badness`
    /// counts, in pages).
    pub fn size(&self, task: TaskId) -> usize
        ensures { result ≡ size_of self.now.page_tables task.0 }
    {
        match self.tables.get(task.0 as usize) {
            Some(table) => table.size() as usize,
            None => 0,
        }
    }

    /// Maps the page at a virtual page of a live task that maps nothing (kernel: `set_pte_at`, and
    /// `folio_add_anon_rmap_ptes`).
    pub fn map(&mut self, task: TaskId, at: u32, page: PageId)
        requires alive { lives self.old.tasks task.0 ≡ true }
        requires within { at < task_pages }
        requires unmapped { mapped_at self.old.page_tables task.0 at ≡ None }
        requires number { page.0 < self.old.numbers }
        ensures shown { Shows self.old.page_tables self.new.page_tables task.0 at (Some page.0) }
        ensures tasks { self.new.tasks ≡ self.old.tasks }
        ensures numbers { self.new.numbers ≡ self.old.numbers }
        ensures groups { self.new.groups ≡ self.old.groups }
        ensures room { self.new.room ≡ self.old.room }
    {
        self.tables[task.0 as usize].map(at, page);
        self.mappers[page.0 as usize] += 1;
    }

    /// Unmaps a virtual page of the task. Returns the page that it mapped, if any (kernel:
    /// `ptep_get_and_clear`, and `folio_remove_rmap_ptes`).
    pub fn unmap(&mut self, task: TaskId, at: u32) -> Option<PageId>
        ensures page { option_map (λ page. page.0) result ≡ mapped_at self.old.page_tables task.0 at }
        ensures shown { Shows self.old.page_tables self.new.page_tables task.0 at None }
        ensures tasks { self.new.tasks ≡ self.old.tasks }
        ensures numbers { self.new.numbers ≡ self.old.numbers }
        ensures groups { self.new.groups ≡ self.old.groups }
        ensures room { self.new.room ≡ self.old.room }
    {
        let page = self.page(task, at)?;
        self.tables[task.0 as usize].unmap(at);
        self.mappers[page.0 as usize] -= 1;
        Some(page)
    }

    /// Ends the live task as `life` says, and frees its page table (kernel: `do_exit`, `mmput`). The
    /// caller has unmapped its pages.
    pub fn exit(&mut self, task: TaskId, life: Life)
        requires there { lives self.old.tasks task.0 ≡ true }
        requires ended { is_live_life life ≡ false }
        requires empty { (v : ℕ) → mapped_at self.old.page_tables task.0 v ≡ None }
        ensures ends { SetsTask self.old.tasks task.0 (group_of_task self.old.tasks task.0) life self.new.tasks }
        ensures same { (u v : ℕ) → mapped_at self.new.page_tables u v ≡ mapped_at self.old.page_tables u v }
        ensures numbers { self.new.numbers ≡ self.old.numbers }
        ensures groups { self.new.groups ≡ self.old.groups }
        ensures room { self.new.room ≡ self.old.room }
    {
        let group = group_of(self.task(task));
        let alloc = *self.tables.allocator();
        end_task(&mut self.tasks, task, life);
        self.tables[task.0 as usize] = PageTable::none(alloc);
        self.live -= 1;
        self.by_group[group.0 as usize] -= 1;
    }

    /// Does nothing. The contract states what always holds. A virtual page that maps a page belongs to a
    /// live task, and its number is below 1,024. The page's number exists, and so does the number of a
    /// live task's group.
    pub fn owners(&self)
        ensures alive { (t v p : ℕ) → mapped_at self.now.page_tables t v ≡ Some p → lives self.now.tasks t ≡ true }
        ensures within { (t v p : ℕ) → mapped_at self.now.page_tables t v ≡ Some p → v < task_pages }
        ensures number { (t v p : ℕ) → mapped_at self.now.page_tables t v ≡ Some p → p < self.now.numbers }
        ensures group { (t : ℕ) → lives self.now.tasks t ≡ true → group_of_task self.now.tasks t < self.now.groups }
    {
        let _ = &self.tasks;
    }
}

/// The group of an existing task.
fn group_of(slot: Option<Task>) -> GroupId
    ensures { result.0 ≡ group_of slot }
{
    match slot {
        Some(task) => task.group,
        None => GroupId::ROOT,
    }
}

/// Reserves the memory for the items at the numbers up to this one.
fn reserve_number<T>(items: &mut Vec<T>, index: usize) -> Result<(), AllocError>
    requires { index ≤ 65535 }
    ensures room { OnOk result (index < vec_capacity items.new) }
    ensures items { items.new.items ≡ items.old.items }
    ensures len { vec_len items.new ≡ vec_len items.old }
{
    items.reserve((index + 1).saturating_sub(items.len()))
}

/// Stores the task at its number. Any new numbers before it get no task.
fn put_task(tasks: &mut Vec<Option<Task>>, index: usize, task: Task)
    requires { index < vec_capacity tasks.old }
    ensures put { Changes tasks.old.items tasks.new.items index (Some task) }
    ensures len { vec_len tasks.new ≡ max (vec_len tasks.old) (index + 1) }
{
    while tasks.len() <= index {
        tasks.push_reserved(None);
    }
    tasks[index] = Some(task);
}

/// Stores the page table at its number. Any new numbers before it get tables without a place.
fn put_table(tables: &mut Vec<PageTable>, index: usize, table: PageTable, alloc: Global)
    requires { index < vec_capacity tables.old }
    ensures put { table_of tables.new.items index ≡ table }
    ensures others { (t : ℕ) → t ≢ index → table_of tables.new.items t ≡ table_of tables.old.items t }
    ensures len { vec_len tables.new ≡ max (vec_len tables.old) (index + 1) }
{
    while tables.len() <= index {
        tables.push_reserved(PageTable::none(alloc));
    }
    tables[index] = table;
}

/// Ends an existing task as `life` says.
fn end_task(tasks: &mut Vec<Option<Task>>, task: TaskId, life: Life)
    requires { lives tasks.old.items task.0 ≡ true }
    ensures ends { SetsTask tasks.old.items task.0 (group_of_task tasks.old.items task.0) life tasks.new.items }
    ensures len { vec_len tasks.new ≡ vec_len tasks.old }
{
    let index = task.0 as usize;
    if let Some(known) = tasks[index] {
        tasks[index] = Some(Task { life, ..known });
    }
}
