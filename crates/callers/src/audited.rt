//! An audit of what a book did over a device that does not keep its promise.

ghost use Rattle.std.specs.Prelude.{◌≡◌, ◌<◌};
ghost use Rattle.turns.specs.Tickets.{IsSpendableReply};

use book::{Book, Event, InTicket, OutTicket, Pass, Reply};
use machine::bytes::PAGE_BYTES;
use machine::config::{Config, File, FileList, Placement, Watermarks};
use machine::entry::Entry;
use machine::event::{Op, Place};
use machine::id::{GroupId, TaskId};
use machine::page_size::PageSize;
use machine::text::Text;
use std::alloc::{AllocError, Global};
use std::process::Abort;
use trace::{First, audit};

/// What a device does to a byte that it was asked for.
#[derive(Clone, Copy, PartialEq, Eq)]
enum Lie {
    None,
    /// Each byte is one more at each read.
    OneMore,
    /// The first byte of a block changes when the block is written.
    Spoiled,
    /// The first byte changes at the second read.
    AtTheSecondRead,
}

/// A device of four blocks.
#[derive(Drop)]
struct Disk {
    blocks: [[u8; PAGE_BYTES]; 4],
    reads: u8,
    lie: Lie,
}

impl Disk {
    fn new(lie: Lie) -> Self {
        Disk {
            blocks: [[7; PAGE_BYTES]; 4],
            reads: 0,
            lie,
        }
    }

    fn read(&mut self, block: u32) -> [u8; PAGE_BYTES] {
        self.reads = self.reads.saturating_add(1);
        let mut bytes = match self.blocks.get(block as usize) {
            Some(bytes) => *bytes,
            None => [0; PAGE_BYTES],
        };
        match self.lie {
            Lie::OneMore => {
                for byte in bytes.iter_mut() {
                    *byte = byte.wrapping_add(1);
                }
            }
            Lie::AtTheSecondRead => {
                if self.reads == 2 {
                    bytes[0] = bytes[0].wrapping_add(1);
                }
            }
            Lie::None | Lie::Spoiled => {}
        }
        bytes
    }

    fn write(&mut self, block: u32, bytes: &[u8; PAGE_BYTES]) {
        if let Some(place) = self.blocks.get_mut(block as usize) {
            *place = *bytes;
            if self.lie == Lie::Spoiled {
                place[0] = place[0].wrapping_add(1);
            }
        }
    }
}

/// Spends a reply. A ticket in it was handed back.
fn spend(reply: Reply)
    requires { IsSpendableReply reply }
{
    match reply {
        Reply::Fetch(ticket) | Reply::StrangeIn(ticket) => ticket.discard(),
        Reply::Out(ticket) | Reply::StrangeOut(ticket) => ticket.discard(),
        Reply::Done { byte: _, hit: _ } | Reply::Over(_) | Reply::NoFrame | Reply::Busy => {}
        Reply::Killed | Reply::Ok | Reply::Room | Reply::Dropped | Reply::Wait => {}
        Reply::Nothing | Reply::KilledTask(_) | Reply::NoVictim | Reply::Shown(_) => {}
        Reply::KilledAll {
            victim: _,
            group: _,
            tasks: _,
        } => {}
        Reply::Refused(_) => {}
    }
}

/// Ends a read-in with what the device gave.
fn fetch(book: &mut Book, pass: &mut Pass, disk: &mut Disk, ticket: InTicket)
    requires room { 0 < pass.old.room }
    requires own { ticket.worker ≡ pass.old.caller.worker }
{
    let mut ticket = ticket;
    let bytes = disk.read(ticket.block());
    ticket.fill(&bytes);
    match book.call(pass, Event::Arrived(ticket)) {
        Reply::StrangeIn(ticket) => ticket.discard(),
        other => spend(other),
    }
}

/// Ends a write-out.
fn leave(book: &mut Book, pass: &mut Pass, disk: &mut Disk, ticket: OutTicket)
    requires room { 0 < pass.old.room }
    requires own { ticket.worker ≡ pass.old.caller.worker }
{
    disk.write(ticket.block(), ticket.bytes());
    match book.call(pass, Event::Left(ticket)) {
        Reply::StrangeOut(ticket) => ticket.discard(),
        other => spend(other),
    }
}

/// One access of task 1. If a page has to be read in, only that is done.
fn touch(book: &mut Book, pass: &mut Pass, disk: &mut Disk, place: Place, op: Op) {
    if pass.reserve(2).is_err() {
        return;
    }
    match book.call(
        pass,
        Event::Access {
            task: TaskId(1),
            place,
            op,
        },
    ) {
        Reply::Fetch(ticket) => fetch(book, pass, disk, ticket),
        other => spend(other),
    }
}

/// Evicts one page.
fn evict(book: &mut Book, pass: &mut Pass, disk: &mut Disk) {
    if pass.reserve(2).is_err() {
        return;
    }
    match book.call(pass, Event::ReclaimOne(GroupId::ROOT)) {
        Reply::Out(ticket) => leave(book, pass, disk, ticket),
        other => spend(other),
    }
}

/// Makes group `/a`, and task 1 in it.
fn begin(book: &mut Book, pass: &mut Pass, path: Text) {
    if pass.reserve(2).is_err() {
        return;
    }
    spend(book.call(pass, Event::Mkdir(path)));
    spend(book.call(
        pass,
        Event::Spawn {
            task: TaskId(1),
            group: GroupId(1),
        },
    ));
}

/// Two frames, this swap, and these files.
fn machine(swap: u32, files: FileList) -> Config {
    Config {
        frames: 2,
        swap,
        files,
        watermarks: Watermarks { low: 0, high: 0 },
        trace: 100,
        turns: 1000,
        recursive: false,
        placement: Placement::Own,
        page_size: PageSize::of_4k(),
    }
}

/// One file, of one page.
fn one_file(alloc: Global) -> Result<FileList, AllocError> {
    let mut files = FileList::new(alloc);
    let name = Text::new(String::from_str(alloc, "f")?);
    files.push(File { name, pages: 1 })?;
    Ok(files)
}

fn open<R: Abort + AllocGlobal>(rt: &R, config: Config) -> Book {
    let Ok(book) = Book::open(rt.alloc(), config) else {
        panic!(rt; "no book")
    };
    book
}

fn pass_of<R: Abort>(rt: &R, book: &mut Book) -> Pass {
    let Ok(pass) = book.pass() else {
        panic!(rt; "no pass")
    };
    pass
}

fn path<R: Abort + AllocGlobal>(rt: &R, path: &str) -> Text {
    Text::new(String::from_str(rt.alloc(), path).expect(rt, "no memory"))
}

/// A page is accessed so, once or twice, evicted, and read twice. Returns what an audit finds, and how many entries there
/// were.
fn after<R: Abort + AllocGlobal>(
    rt: &R,
    config: Config,
    place: Place,
    first: &[Op],
    lie: Lie,
) -> (Result<(), First>, usize) {
    let path = path(rt, "/a");
    let mut disk = Disk::new(lie);
    let mut book = open(rt, config);
    let mut pass = pass_of(rt, &mut book);
    begin(&mut book, &mut pass, path);
    for op in first {
        touch(&mut book, &mut pass, &mut disk, place, *op);
    }
    evict(&mut book, &mut pass, &mut disk);
    touch(&mut book, &mut pass, &mut disk, place, Op::Read);
    touch(&mut book, &mut pass, &mut disk, place, Op::Read);
    let trace = book.close();
    (audit(&trace), trace.len())
}

/// A page is written, evicted, read in and read.
fn after_swap<R: Abort + AllocGlobal>(rt: &R, lie: Lie) -> (Result<(), First>, usize) {
    let config = machine(1, FileList::new(rt.alloc()));
    let place = Place::Virtual { page: 0, offset: 0 };
    after(rt, config, place, &[Op::Write(5)], lie)
}

/// The same for a page of a file that is read, dropped, and read again.
fn after_a_second_read<R: Abort + AllocGlobal>(rt: &R, lie: Lie) -> (Result<(), First>, usize) {
    let config = machine(0, one_file(rt.alloc()).expect(rt, "no memory"));
    let place = Place::File {
        file: 0,
        page: 0,
        offset: 0,
    };
    after(rt, config, place, &[Op::Read, Op::Read], lie)
}

#[test]
fn an_honest_device_passes(rt: HostRuntime) {
    let found = [
        after_swap(&rt, Lie::None),
        after_a_second_read(&rt, Lie::None),
    ];
    assert_eq!(rt; found, [(Ok(()), 8), (Ok(()), 9)]);
}

#[test]
fn a_wrong_arrival_is_named(rt: HostRuntime) {
    let arrival = Err(First { entry: 7 });
    let found = [after_swap(&rt, Lie::OneMore), after_swap(&rt, Lie::Spoiled)];
    assert_eq!(rt; found, [(arrival, 8), (arrival, 8)]);
}

#[test]
fn a_files_first_arrival_is_what_it_had(rt: HostRuntime) {
    let found = [
        after_a_second_read(&rt, Lie::OneMore),
        after_a_second_read(&rt, Lie::AtTheSecondRead),
    ];
    assert_eq!(rt; found, [(Ok(()), 9), (Err(First { entry: 8 }), 9)]);
}

/// Frees a virtual page of the task. This requires nothing but the task.
fn free(book: &mut Book, pass: &mut Pass, task: TaskId) {
    if pass.reserve(1).is_ok() {
        spend(book.call(pass, Event::Free { task, page: 0 }));
    }
}

fn look_up(book: &mut Book, pass: &mut Pass, path: Text) {
    if pass.reserve(1).is_ok() {
        let _ = book.find(pass, path);
    }
}

/// Whether the entries are counted from 1 on.
fn are_counted(entries: &[Entry]) -> bool {
    for (at, entry) in entries.iter().enumerate() {
        if entry.count != at as u64 + 1 {
            return false;
        }
    }
    true
}

// Two events, a refused one, a path that is looked up, and another event.
#[test]
fn what_is_refused_is_kept_and_leaves_no_entry(rt: HostRuntime) {
    let (made, sought) = (path(&rt, "/a"), path(&rt, "/b"));
    let mut book = open(&rt, machine(0, FileList::new(rt.alloc())));
    let mut pass = pass_of(&rt, &mut book);
    begin(&mut book, &mut pass, made);
    free(&mut book, &mut pass, TaskId(9));
    look_up(&mut book, &mut pass, sought);
    free(&mut book, &mut pass, TaskId(1));
    let trace = book.close();
    assert_eq!(rt; (pass.kept().len(), pass.count(), trace.len()), (5, 3, 3));
    assert!(rt; are_counted(trace.entries()));
}
