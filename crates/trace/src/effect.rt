//! What one entry determines of a page.

ghost use Rattle.std.specs.Prelude.{◌≡◌, ℕ, ◌&&◌, ◌==◌};
ghost use Rattle.machine.specs.History.{says};
ghost use Rattle.trace.specs.Walks.{spot_in, said, is_done, is_ok, is_place_of, is_memory_of, is_page_of_task, page_in};

use crate::page::{Page, offset_of};
use machine::entry::Entry;
use machine::event::{Event, Op, Place};
use machine::id::{GroupId, TaskId};
use machine::reply::Reply;

/// What an entry determines of a page.
#[derive(Clone, Copy)]
pub enum Effect {
    /// One byte was written.
    Byte { offset: u32, byte: u8 },
    /// All its bytes are zeros from then on.
    Zeros,
    /// It gets the bytes of another page.
    As(Page),
    Nothing,
}

pub fn is_done(reply: &Reply) -> bool
    ensures { result ≡ is_done reply.now }
{
    matches!(reply, Reply::Done { .. })
}

pub fn is_ok(reply: &Reply) -> bool
    ensures { result ≡ is_ok reply.now }
{
    matches!(reply, Reply::Ok)
}

/// Whether a task's access of the place is in the page.
fn is_place_of(page: Page, task: TaskId, place: Place) -> bool
    ensures { result ≡ is_place_of page task.0 place }
{
    match page {
        Page::Memory { task: owner, page } => match place {
            Place::Virtual { page: other, .. } => task == owner && other == page,
            Place::File { .. } => false,
        },
        Page::File { file, page } => match place {
            Place::Virtual { .. } => false,
            Place::File {
                file: other_file,
                page: other,
                ..
            } => other_file == file && other == page,
        },
    }
}

/// Whether the page is one of the task's memory.
fn is_memory_of(page: Page, task: TaskId) -> bool
    ensures { result ≡ is_memory_of page task.0 }
{
    match page {
        Page::Memory {
            task: owner,
            page: _,
        } => task == owner,
        Page::File { .. } => false,
    }
}

/// Whether the page is the task's virtual page with this number.
fn is_page_of_task(page: Page, task: TaskId, number: u32) -> bool
    ensures { result ≡ is_page_of_task page task.0 number }
{
    match page {
        Page::Memory { task: owner, page } => task == owner && number == page,
        Page::File { .. } => false,
    }
}

/// The page with the same number in another task's memory.
fn page_in(page: Page, task: TaskId) -> Page
    ensures { result ≡ page_in page task }
{
    match page {
        Page::Memory { task: _, page } => Page::Memory { task, page },
        Page::File { .. } => page,
    }
}

fn written(reply: &Reply, page: Page, task: TaskId, place: Place, byte: u8) -> Effect
    ensures { (o : ℕ) → says (Event.Access task place (Op.Write byte)) reply.now (spot_in page o) ≡ said result o }
{
    if is_done(reply) && is_place_of(page, task, place) {
        return Effect::Byte {
            offset: offset_of(place),
            byte,
        };
    }
    Effect::Nothing
}

fn spawned(reply: &Reply, page: Page, task: TaskId, group: GroupId) -> Effect
    ensures { (o : ℕ) → says (Event.Spawn task group) reply.now (spot_in page o) ≡ said result o }
{
    if is_ok(reply) && is_memory_of(page, task) {
        return Effect::Zeros;
    }
    Effect::Nothing
}

fn forked(reply: &Reply, page: Page, parent: TaskId, child: TaskId) -> Effect
    ensures { (o : ℕ) → says (Event.Fork parent child) reply.now (spot_in page o) ≡ said result o }
{
    if is_ok(reply) && is_memory_of(page, child) {
        return Effect::As(page_in(page, parent));
    }
    Effect::Nothing
}

fn freed(reply: &Reply, page: Page, task: TaskId, number: u32) -> Effect
    ensures { (o : ℕ) → says (Event.Free task number) reply.now (spot_in page o) ≡ said result o }
{
    if is_ok(reply) && is_page_of_task(page, task, number) {
        return Effect::Zeros;
    }
    Effect::Nothing
}

/// What the entry determines of the page. A write determines its byte, for all readers of a file's page.
/// A task begins with zeros, and a child with its parent's bytes. A freed page is zeros.
pub fn effect_of(entry: &Entry, page: Page) -> Effect
    ensures { (o : ℕ) → says entry.now.event entry.now.reply (spot_in page o) ≡ said result o }
{
    match &entry.event {
        Event::Access { task, place, op } => match op {
            Op::Read => Effect::Nothing,
            Op::Write(byte) => written(&entry.reply, page, *task, *place, *byte),
        },
        Event::Spawn { task, group } => spawned(&entry.reply, page, *task, *group),
        Event::Fork { task, child } => forked(&entry.reply, page, *task, *child),
        Event::Free { task, page: number } => freed(&entry.reply, page, *task, *number),
        _ => Effect::Nothing,
    }
}
