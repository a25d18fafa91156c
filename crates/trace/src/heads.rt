//! What is known of the bytes of each page at the end of the trace.

ghost use Rattle.std.specs.Prelude.{◌≡◌, ℕ, ◌==◌, ◌&&◌, ◌<◌, if◌then◌else◌, IfOk};
ghost use Rattle.machine.specs.declared.event.Op.{Op};
ghost use Rattle.trace.specs.declared.page.Page.{Page as PageOf};
ghost use Rattle.trace.specs.Rows.{at_row};
ghost use Rattle.trace.specs.Heads.{MayBe, link_in, known_in, link_after, is_page};

use crate::effect::{is_done, is_ok};
use crate::link::Link;
use crate::page::{Page, page_of};
use crate::row::Row;
use machine::entry::Entry;
use machine::event::{Event, Op, Place};
use machine::id::{GroupId, TaskId};
use machine::limit::TASK_PAGES;
use machine::reply::Reply;
use std::alloc::{AllocError, Global};
use std::mem;

/// By page: what is known of its bytes after the newest entry.
#[derive(Drop)]
pub struct Heads {
    pub alloc: Global,
    /// By task's number: its virtual pages. A number without memory has a row without room.
    pub tasks: Vec<Row>,
    /// By file's number: its pages.
    pub files: Vec<Row>,
}

/// What is known at this place of a table.
pub fn link_in(rows: &[Row], row: u32, page: u32) -> Link
    ensures { result ≡ link_in rows.now row page }
{
    let row = row as usize;
    if row < rows.len() {
        return rows[row].get(page as usize);
    }
    Link::Unknown
}

/// Writes one place of a table, if the table has it.
pub fn set_link(rows: &mut [Row], row: u32, page: u32, link: Link)
    ensures { (r c : ℕ) → MayBe (link_in rows.new r c) (if ((row == r) && (page == c)) then link else link_in rows.old r c) }
{
    let row = row as usize;
    if row < rows.len() {
        rows[row].set(page as usize, link);
    }
}

/// Fills a row of a table, if the table has it.
fn fill_row(rows: &mut [Row], row: u32, link: Link)
    ensures { (r c : ℕ) → MayBe (link_in rows.new r c) (if row == r then link else link_in rows.old r c) }
{
    let row = row as usize;
    if row < rows.len() {
        rows[row].fill(link);
    }
}

/// Fills a row with a copy of one in a table. If the table does not have that one, nothing is known.
fn row_by(rows: &[Row], from: usize, row: Row) -> Row
    ensures { (c : ℕ) → MayBe (at_row result c) (link_in rows.now from c) }
{
    let mut row = row;
    if from < rows.len() {
        row.copy(&rows[from]);
        return row;
    }
    row.fill(Link::Unknown);
    row
}

/// Copies one row of a table to another, if the table has the other.
fn copy_row(alloc: Global, rows: &mut [Row], from: u32, to: u32)
    ensures { (r c : ℕ) → MayBe (link_in rows.new r c) (if to == r then link_in rows.old from c else link_in rows.old r c) }
{
    let to = to as usize;
    if to >= rows.len() {
        return;
    }
    let row = mem::replace(&mut rows[to], Row::empty(alloc));
    let copied = row_by(rows, from as usize, row);
    rows[to] = copied;
}

/// A row for each file, with room for its pages.
pub fn rows_of(alloc: Global, files: &[u32]) -> Result<Vec<Row>, AllocError>
    ensures { IfOk result (λ rows. (r c : ℕ) → MayBe (link_in rows.items r c) Link.First) }
{
    let mut rows = Vec::new(alloc);
    for pages in files {
        rows.push(Row::with_room(alloc, *pages as usize, Link::First)?)?;
    }
    Ok(rows)
}

/// Replaces a row by another, which knows nothing more.
fn put_row(rows: &mut [Row], row: u32, now: Row)
    requires { (c : ℕ) → MayBe (at_row now c) Link.Unknown }
    ensures { (r c : ℕ) → MayBe (link_in rows.new r c) (link_in rows.old r c) }
{
    let row = row as usize;
    if row < rows.len() {
        rows[row] = now;
    }
}

/// Adds rows without room, up to this number.
fn extend(rows: &mut Vec<Row>, alloc: Global, count: usize) -> Result<(), AllocError>
    ensures { (r c : ℕ) → MayBe (link_in rows.new.items r c) (link_in rows.old.items r c) }
{
    for _ in rows.len()..count {
        rows.push(Row::empty(alloc))?;
    }
    Ok(())
}

impl Heads {
    /// No entry: each page of these files is known to have its first bytes. No task has memory.
    pub fn open(alloc: Global, files: &[u32]) -> Result<Heads, AllocError>
        ensures { IfOk result (λ heads. (p : PageOf) → MayBe (known_in heads p) Link.First) }
    {
        Ok(Heads {
            alloc,
            tasks: Vec::new(alloc),
            files: rows_of(alloc, files)?,
        })
    }

    /// Allocates memory for a task's pages. Nothing is known of them.
    pub fn reserve(&mut self, task: TaskId) -> Result<(), AllocError>
        ensures { (p : PageOf) → MayBe (known_in self.new p) (known_in self.old p) }
    {
        let row = Row::with_room(self.alloc, TASK_PAGES as usize, Link::Unknown)?;
        extend(&mut self.tasks, self.alloc, task.0 as usize + 1)?;
        put_row(&mut self.tasks, task.0, row);
        Ok(())
    }

    /// Frees the memory of a task's pages.
    pub fn ended(&mut self, task: TaskId)
        ensures { (p : PageOf) → MayBe (known_in self.new p) (known_in self.old p) }
    {
        put_row(&mut self.tasks, task.0, Row::empty(self.alloc));
    }

    fn killed(&mut self, reply: &Reply)
        ensures { (p : PageOf) → MayBe (known_in self.new p) (known_in self.old p) }
    {
        if let Reply::KilledTask(task) = reply {
            self.ended(*task);
        }
    }

    /// What is known of a page.
    pub fn known(&self, page: Page) -> Link
        ensures { result ≡ known_in self.now page }
    {
        match page {
            Page::Memory { task, page } => link_in(&self.tasks, task.0, page),
            Page::File { file, page } => link_in(&self.files, file, page),
        }
    }

    fn set(&mut self, page: Page, link: Link)
        ensures { (p : PageOf) → MayBe (known_in self.new p) (if is_page page p then link else known_in self.old p) }
    {
        match page {
            Page::Memory { task, page } => set_link(&mut self.tasks, task.0, page, link),
            Page::File { file, page } => set_link(&mut self.files, file, page, link),
        }
    }

    fn written(&mut self, reply: &Reply, task: TaskId, place: Place, byte: u8, at: u32)
        ensures { (p : PageOf) → MayBe (known_in self.new p) (link_after (Event.Access task place (Op.Write byte)) reply.now at (known_in self.old) p) }
    {
        if is_done(reply) {
            self.set(page_of(task, place), Link::After(at));
        }
    }

    fn spawned(&mut self, reply: &Reply, task: TaskId, group: GroupId, at: u32)
        ensures { (p : PageOf) → MayBe (known_in self.new p) (link_after (Event.Spawn task group) reply.now at (known_in self.old) p) }
    {
        if is_ok(reply) {
            fill_row(&mut self.tasks, task.0, Link::First);
        }
    }

    fn forked(&mut self, reply: &Reply, task: TaskId, child: TaskId, at: u32)
        ensures { (p : PageOf) → MayBe (known_in self.new p) (link_after (Event.Fork task child) reply.now at (known_in self.old) p) }
    {
        if is_ok(reply) {
            copy_row(self.alloc, &mut self.tasks, task.0, child.0);
        }
    }

    fn freed(&mut self, reply: &Reply, task: TaskId, page: u32, at: u32)
        ensures { (p : PageOf) → MayBe (known_in self.new p) (link_after (Event.Free task page) reply.now at (known_in self.old) p) }
    {
        if is_ok(reply) {
            set_link(&mut self.tasks, task.0, page, Link::First);
        }
    }

    /// Updates what is known, for an entry at this place of the trace.
    pub fn note(&mut self, entry: &Entry, at: u32)
        ensures { (p : PageOf) → MayBe (known_in self.new p) (link_after entry.now.event entry.now.reply at (known_in self.old) p) }
    {
        match &entry.event {
            Event::Access {
                task,
                place,
                op: Op::Write(byte),
            } => self.written(&entry.reply, *task, *place, *byte, at),
            Event::Spawn { task, group } => self.spawned(&entry.reply, *task, *group, at),
            Event::Fork { task, child } => self.forked(&entry.reply, *task, *child, at),
            Event::Free { task, page } => self.freed(&entry.reply, *task, *page, at),
            Event::Exit(task) => self.ended(*task),
            Event::Relieve(_) => self.killed(&entry.reply),
            _ => {}
        }
    }
}
