//! Small traces, and what is wrong in them.

use machine::bytes::{PAGE_BYTES, PageBytes};
use machine::entry::Entry;
use machine::event::{Cause, Event, Op, Place};
use machine::id::{GroupId, TaskId, TicketId, WorkerId};
use machine::reply::Reply;
use std::alloc::{AllocError, Global};
use std::test::Fail;
use std::time::{Clock, Instant};
use trace::{First, Trace, audit};

const FIRST: Place = Place::Virtual { page: 0, offset: 0 };

const SECOND: Place = Place::Virtual { page: 0, offset: 1 };

const OF_A_FILE: Place = Place::File {
    file: 0,
    page: 3,
    offset: 0,
};

/// The first byte of a page of the task's memory.
fn page_of_a_task(page: u32) -> Place {
    Place::Virtual { page, offset: 0 }
}

/// A trace for this number of entries, of a machine with one file of eight pages and memory for tasks 1 and 2.
fn opened(alloc: Global, limit: usize) -> Result<Trace, AllocError> {
    if limit > 1_048_576 {
        return Err(AllocError);
    }
    let files = [8];
    let mut trace = Trace::open(alloc, limit, &files)?;
    trace.reserve(TaskId(1))?;
    trace.reserve(TaskId(2))?;
    Ok(trace)
}

/// Adds the entry at the end, if there is room.
fn add(trace: &mut Trace, entry: Entry) {
    if trace.len() < trace.limit() {
        trace.push(entry);
    }
}

fn entry(event: Event, reply: Reply) -> Entry {
    Entry {
        worker: WorkerId(0),
        count: 1,
        event,
        reply,
    }
}

fn spawned(task: u32) -> Entry {
    let group = GroupId::ROOT;
    entry(
        Event::Spawn {
            task: TaskId(task),
            group,
        },
        Reply::Ok,
    )
}

fn forked(task: u32, child: u32) -> Entry {
    entry(
        Event::Fork {
            task: TaskId(task),
            child: TaskId(child),
        },
        Reply::Ok,
    )
}

fn freed(task: u32, page: u32) -> Entry {
    entry(
        Event::Free {
            task: TaskId(task),
            page,
        },
        Reply::Ok,
    )
}

fn access(task: u32, place: Place, op: Op, reply: Reply) -> Entry {
    entry(
        Event::Access {
            task: TaskId(task),
            place,
            op,
        },
        reply,
    )
}

fn written(task: u32, place: Place, byte: u8) -> Entry {
    access(
        task,
        place,
        Op::Write(byte),
        Reply::Done { byte, hit: None },
    )
}

fn read(task: u32, place: Place, byte: u8) -> Entry {
    access(task, place, Op::Read, Reply::Done { byte, hit: None })
}

fn fetched(task: u32, place: Place, ticket: u32) -> Entry {
    access(task, place, Op::Read, Reply::Fetch(TicketId(ticket)))
}

/// A page whose byte at the offset is this one, and whose others are zeros.
fn arrived(alloc: Global, ticket: u32, offset: usize, byte: u8) -> Result<Entry, AllocError> {
    let mut page = [0; PAGE_BYTES];
    if offset < PAGE_BYTES {
        page[offset] = byte;
    }
    let bytes = PageBytes::new(Box::new(alloc, page)?);
    Ok(entry(
        Event::Arrived {
            ticket: TicketId(ticket),
            bytes,
        },
        Reply::Ok,
    ))
}

// The example of the README.
#[test]
fn the_first_wrong_read_is_named(rt: HostRuntime) -> Result<(), Fail> {
    let files = [];
    let mut trace = Trace::open(rt.alloc(), 4, &files)?;
    trace.reserve(TaskId(1))?;
    for entry in [spawned(1), written(1, FIRST, 5), read(1, FIRST, 5)] {
        add(&mut trace, entry);
    }
    assert_eq!(rt; audit(&trace), Ok(()));
    add(&mut trace, read(1, FIRST, 6));
    assert_eq!(rt; audit(&trace), Err(First { entry: 4 }));
    Ok(())
}

/// What is done with a trace.
#[derive(Clone, Copy)]
enum Made {
    Spawn(u32),
    /// A task forks a child.
    Fork(u32, u32),
    Exit(u32),
    Kill(u32),
    /// A task frees a page.
    Free(u32, u32),
    Write(u32, Place, u8),
    Read(u32, Place, u8),
    /// A page begins to be written out, with this ticket.
    Out(u32),
    /// It was written out.
    Left(u32),
    /// A task's read has to wait until its page comes, with this ticket.
    Fetch(u32, Place, u32),
    /// The page comes, with this byte at this offset and zeros at the others.
    Arrive(u32, usize, u8),
    /// Memory is taken for a task's links.
    Reserve(u32),
    /// An audit finds nothing wrong.
    Sound,
    /// An audit names this entry, counted from 1.
    Wrong(usize),
}

/// The entry that is made, if it is one.
fn entry_of(alloc: Global, made: Made) -> Result<Option<Entry>, AllocError> {
    Ok(Some(match made {
        Made::Spawn(task) => spawned(task),
        Made::Fork(task, child) => forked(task, child),
        Made::Exit(task) => entry(Event::Exit(TaskId(task)), Reply::Ok),
        Made::Kill(task) => entry(
            Event::Relieve(Cause::Frame),
            Reply::KilledTask(TaskId(task)),
        ),
        Made::Free(task, page) => freed(task, page),
        Made::Write(task, place, byte) => written(task, place, byte),
        Made::Read(task, place, byte) => read(task, place, byte),
        Made::Out(ticket) => entry(Event::Relieve(Cause::Frame), Reply::Out(TicketId(ticket))),
        Made::Left(ticket) => entry(Event::Left(TicketId(ticket)), Reply::Ok),
        Made::Fetch(task, place, ticket) => fetched(task, place, ticket),
        Made::Arrive(ticket, offset, byte) => arrived(alloc, ticket, offset, byte)?,
        Made::Reserve(_) | Made::Sound | Made::Wrong(_) => return Ok(None),
    }))
}

/// What an audit has to find.
fn wanted(made: Made) -> Option<Result<(), First>> {
    match made {
        Made::Sound => Some(Ok(())),
        Made::Wrong(entry) => Some(Err(First { entry })),
        _ => None,
    }
}

/// Does it, and audits the trace if that is to be done. Returns whether the audit finds what it has to find.
fn is_right(alloc: Global, trace: &mut Trace, made: Made) -> Result<bool, AllocError> {
    if let Some(entry) = entry_of(alloc, made)? {
        add(trace, entry);
    }
    if let Made::Reserve(task) = made {
        trace.reserve(TaskId(task))?;
    }
    match wanted(made) {
        Some(found) => Ok(audit(trace) == found),
        None => Ok(true),
    }
}

/// How many of these are done until an audit finds something else. All of them, if none does.
fn right_until(alloc: Global, room: usize, made: &[Made]) -> Result<usize, AllocError> {
    let mut trace = opened(alloc, room)?;
    for (at, one) in made.iter().enumerate() {
        if !is_right(alloc, &mut trace, *one)? {
            return Ok(at);
        }
    }
    Ok(made.len())
}

/// What traces show, how many entries they have room for, and what is done.
const TRACES: &[(&str, usize, &[Made])] = &[
    (
        "only the first of three wrong reads is named",
        8,
        &[
            Made::Spawn(1),
            Made::Read(1, FIRST, 0),
            Made::Read(1, FIRST, 1),
            Made::Read(1, FIRST, 0),
            Made::Read(1, SECOND, 2),
            Made::Wrong(3),
        ],
    ),
    (
        "a device that keeps its bytes passes",
        8,
        &[
            Made::Spawn(1),
            Made::Write(1, FIRST, 5),
            Made::Out(0),
            Made::Left(0),
            Made::Fetch(1, FIRST, 1),
            Made::Arrive(1, 0, 5),
            Made::Read(1, FIRST, 5),
            Made::Sound,
        ],
    ),
    // The read after it, of the same byte, gave what was written.
    (
        "a device that adds one is found at the arrival",
        8,
        &[
            Made::Spawn(1),
            Made::Write(1, FIRST, 5),
            Made::Out(0),
            Made::Left(0),
            Made::Fetch(1, FIRST, 1),
            Made::Arrive(1, 0, 6),
            Made::Read(1, FIRST, 5),
            Made::Wrong(6),
        ],
    ),
    (
        "the last byte of a page counts",
        8,
        &[
            Made::Spawn(1),
            Made::Write(1, FIRST, 5),
            Made::Out(0),
            Made::Left(0),
            Made::Fetch(1, FIRST, 1),
            Made::Arrive(1, 4095, 1),
            Made::Read(1, FIRST, 5),
            Made::Wrong(6),
        ],
    ),
    // No entry asked for it.
    (
        "an arrival without a read-in is wrong",
        4,
        &[Made::Spawn(1), Made::Arrive(7, 0, 0), Made::Wrong(2)],
    ),
    (
        "a child reads what its parent wrote before",
        8,
        &[
            Made::Spawn(1),
            Made::Write(1, FIRST, 5),
            Made::Fork(1, 2),
            Made::Write(1, FIRST, 6),
            Made::Read(2, FIRST, 5),
            Made::Read(1, FIRST, 6),
            Made::Sound,
            Made::Read(2, FIRST, 6),
            Made::Wrong(7),
        ],
    ),
    (
        "a child writes for itself",
        8,
        &[
            Made::Spawn(1),
            Made::Write(1, SECOND, 5),
            Made::Fork(1, 2),
            Made::Write(2, FIRST, 6),
            Made::Read(2, SECOND, 5),
            Made::Read(1, FIRST, 0),
            Made::Sound,
            Made::Read(1, FIRST, 6),
            Made::Wrong(7),
        ],
    ),
    (
        "a freed page reads zeros",
        8,
        &[
            Made::Spawn(1),
            Made::Write(1, FIRST, 5),
            Made::Free(1, 0),
            Made::Read(1, FIRST, 0),
            Made::Sound,
            Made::Read(1, FIRST, 5),
            Made::Wrong(5),
        ],
    ),
    (
        "a new task with the number of one that ended reads zeros",
        8,
        &[
            Made::Spawn(1),
            Made::Write(1, FIRST, 5),
            Made::Exit(1),
            Made::Reserve(1),
            Made::Spawn(1),
            Made::Read(1, FIRST, 0),
            Made::Sound,
            Made::Read(1, FIRST, 5),
            Made::Wrong(6),
        ],
    ),
    // The file had what arrived first. Another page of it, of which nothing arrived, had zeros.
    (
        "a file begins as it first arrived",
        8,
        &[
            Made::Spawn(1),
            Made::Fetch(1, OF_A_FILE, 0),
            Made::Arrive(0, 0, 9),
            Made::Read(1, OF_A_FILE, 9),
            Made::Read(
                1,
                Place::File {
                    file: 0,
                    page: 2,
                    offset: 0,
                },
                0,
            ),
            Made::Sound,
        ],
    ),
    (
        "a file that arrives otherwise the second time is named",
        8,
        &[
            Made::Spawn(1),
            Made::Fetch(1, OF_A_FILE, 0),
            Made::Arrive(0, 0, 9),
            Made::Fetch(1, OF_A_FILE, 1),
            Made::Arrive(1, 0, 9),
            Made::Sound,
            Made::Fetch(1, OF_A_FILE, 2),
            Made::Arrive(2, 0, 8),
            Made::Wrong(7),
        ],
    ),
    // What one task writes to a file, another reads. The device has to bring it.
    (
        "a file is the same for all tasks",
        9,
        &[
            Made::Spawn(1),
            Made::Spawn(2),
            Made::Fetch(1, OF_A_FILE, 0),
            Made::Arrive(0, 0, 9),
            Made::Write(1, OF_A_FILE, 4),
            Made::Read(2, OF_A_FILE, 4),
            Made::Fetch(2, OF_A_FILE, 1),
            Made::Arrive(1, 0, 4),
            Made::Sound,
            Made::Read(2, OF_A_FILE, 9),
            Made::Wrong(9),
        ],
    ),
    (
        "behind two honest arrivals, one that has a byte of the first is named",
        16,
        &[
            Made::Spawn(1),
            Made::Write(1, FIRST, 0),
            Made::Fetch(1, FIRST, 0),
            Made::Arrive(0, 0, 0),
            Made::Write(1, FIRST, 1),
            Made::Fetch(1, FIRST, 1),
            Made::Arrive(1, 0, 1),
            Made::Sound,
            Made::Fetch(1, FIRST, 2),
            Made::Arrive(2, 0, 0),
            Made::Wrong(9),
        ],
    ),
    (
        "and one that lacks the byte that was written before its read-in",
        16,
        &[
            Made::Spawn(1),
            Made::Write(1, FIRST, 0),
            Made::Fetch(1, FIRST, 0),
            Made::Arrive(0, 0, 0),
            Made::Write(1, FIRST, 1),
            Made::Fetch(1, FIRST, 1),
            Made::Arrive(1, 0, 1),
            Made::Write(1, SECOND, 5),
            Made::Fetch(1, FIRST, 2),
            Made::Arrive(2, 0, 1),
            Made::Wrong(10),
        ],
    ),
    (
        "and a read of what was never written, behind an honest one",
        16,
        &[
            Made::Spawn(1),
            Made::Write(1, FIRST, 0),
            Made::Fetch(1, FIRST, 0),
            Made::Arrive(0, 0, 0),
            Made::Write(1, FIRST, 1),
            Made::Fetch(1, FIRST, 1),
            Made::Arrive(1, 0, 1),
            Made::Fetch(1, FIRST, 2),
            Made::Arrive(2, 0, 1),
            Made::Read(1, FIRST, 1),
            Made::Read(1, SECOND, 0),
            Made::Sound,
            Made::Read(1, SECOND, 1),
            Made::Wrong(12),
        ],
    ),
    // It begins with zeros. No memory was asked for its links.
    (
        "a number of a task that exited or was killed is audited",
        11,
        &[
            Made::Spawn(1),
            Made::Spawn(2),
            Made::Write(1, FIRST, 7),
            Made::Exit(1),
            Made::Kill(2),
            Made::Spawn(1),
            Made::Spawn(2),
            Made::Read(1, FIRST, 0),
            Made::Write(2, FIRST, 6),
            Made::Read(2, FIRST, 6),
            Made::Sound,
            Made::Read(1, FIRST, 7),
            Made::Wrong(11),
        ],
    ),
    // Task 3 has none, so no link is known, and the audit says the same.
    (
        "a task without memory for its links is audited",
        8,
        &[
            Made::Spawn(1),
            Made::Write(1, FIRST, 5),
            Made::Fork(1, 3),
            Made::Write(3, SECOND, 6),
            Made::Read(3, FIRST, 5),
            Made::Sound,
            Made::Read(3, SECOND, 5),
            Made::Wrong(6),
        ],
    ),
];

#[test]
fn the_audit_names_the_first_wrong_entry(rt: HostRuntime) {
    for (name, room, made) in TRACES {
        assert_eq!(rt;
            right_until(rt.alloc(), *room, made),
            Ok(made.len()),
            "{name}"
        );
    }
}

/// Eight pages are written, and then read in round-robin order.
fn hit_often(trace: &mut Trace) {
    add(trace, spawned(1));
    for turn in 0..300u32 {
        let page = (turn % 8) as u8;
        let place = Place::Virtual {
            page: u32::from(page),
            offset: 4,
        };
        add(
            trace,
            if turn < 8 {
                written(1, place, page + 1)
            } else {
                read(1, place, page + 1)
            },
        );
    }
}

#[test]
fn many_hits(rt: HostRuntime) {
    let mut trace = opened(rt.alloc(), 302).expect(&rt, "no memory");
    hit_often(&mut trace);
    let (entries, sound) = (trace.len(), audit(&trace));
    add(&mut trace, read(1, FIRST, 1));
    assert_eq!(rt;
        (entries, sound, audit(&trace)),
        (301, Ok(()), Err(First { entry: 302 }))
    );
}

/// Six hundred reads of one place by a task. Before these, the parent wrote two bytes of one page and one byte of each
/// of two others, and freed one of these. Then it forked the child, and wrote a byte of the file.
fn reads(
    alloc: Global,
    [parent, child]: [u32; 2],
    task: u32,
    place: Place,
    byte: u8,
) -> Result<Trace, AllocError> {
    let mut trace = opened(alloc, 608)?;
    add(&mut trace, spawned(parent));
    add(&mut trace, written(parent, FIRST, 5));
    add(&mut trace, written(parent, SECOND, 6));
    add(&mut trace, written(parent, page_of_a_task(5), 9));
    add(&mut trace, written(parent, page_of_a_task(6), 9));
    add(&mut trace, freed(parent, 6));
    add(&mut trace, forked(parent, child));
    add(&mut trace, written(parent, OF_A_FILE, 4));
    for _ in 0..600 {
        add(&mut trace, read(task, place, byte));
    }
    Ok(trace)
}

/// How many nanoseconds an audit takes.
fn time_of(clock: &impl Clock, trace: &Trace) -> Result<u128, Fail> {
    let start = Instant::now(clock)?;
    audit(trace)?;
    Ok(start.elapsed(clock)?.as_nanos())
}

/// Whether so many audits of the one trace take less time than so many of the other. Other programs can make an audit
/// slow, but not quick. Therefore the quickest of five counts, and if that is too slow, the quickest of up to 60.
fn is_quicker(
    clock: &impl Clock,
    (few, one): (u128, &Trace),
    (many, other): (u128, &Trace),
) -> Result<bool, Fail> {
    let (mut least, mut other_least) = (u128::MAX, u128::MAX);
    for round in 0..60 {
        least = least.min(time_of(clock, one)?);
        other_least = other_least.min(time_of(clock, other)?);
        if round >= 4 && least.saturating_mul(few) < other_least.saturating_mul(many) {
            return Ok(true);
        }
    }
    Ok(false)
}

/// Reads whose links are known: the task, the place and the byte.
const LINKED: &[(u32, Place, u8)] = &[
    (1, FIRST, 5),
    (1, Place::Virtual { page: 6, offset: 0 }, 0),
    (2, FIRST, 5),
    (2, Place::Virtual { page: 2, offset: 0 }, 0),
    (2, Place::Virtual { page: 5, offset: 0 }, 9),
    (2, Place::Virtual { page: 6, offset: 0 }, 0),
    (2, Place::Virtual { page: 7, offset: 0 }, 0),
    (2, OF_A_FILE, 4),
];

// No contract says that a link is known. With memory for the tasks, the link of each read is known, and the audit is
// quick. If it isn't known, the walk goes back through all reads. This is so for the tasks 3 and 4, which have no
// memory.
#[test]
fn links_make_audits_quick(rt: HostRuntime) -> Result<(), Fail> {
    let slow = reads(rt.alloc(), [3, 4], 3, FIRST, 5)?;
    for (task, place, byte) in LINKED {
        let trace = reads(rt.alloc(), [1, 2], *task, *place, *byte)?;
        assert!(rt; is_quicker(&rt, (8, &trace), (1, &slow))?);
    }
    Ok(())
}

/// A page is written to, written out and read in, this many times. Each time another byte is written. If `frees`, it is
/// freed after each, and so a new page each time.
fn swapped(alloc: Global, rounds: u32, frees: bool) -> Result<Trace, AllocError> {
    let mut trace = opened(alloc, 40_000)?;
    add(&mut trace, spawned(1));
    for round in 0..rounds {
        add(&mut trace, written(1, FIRST, (round % 256) as u8));
        add(&mut trace, fetched(1, FIRST, round));
        add(&mut trace, arrived(alloc, round, 0, (round % 256) as u8)?);
        if frees {
            add(&mut trace, freed(1, 0));
        }
    }
    Ok(trace)
}

// A walk back from an arrival ends at the arrival before it. So it is as short as the walk in a page that is new each
// time.
#[test]
fn arrivals_make_audits_quick(rt: HostRuntime) -> Result<(), Fail> {
    let again = swapped(rt.alloc(), 8000, false)?;
    let new = swapped(rt.alloc(), 8000, true)?;
    assert!(rt; is_quicker(&rt, (1, &again), (4, &new))?);
    Ok(())
}

#[test]
fn entries_come_back(rt: HostRuntime) {
    let mut trace = opened(rt.alloc(), 3).expect(&rt, "no memory");
    add(&mut trace, spawned(1));
    add(&mut trace, written(1, FIRST, 5));
    let (limit, lent) = (trace.limit(), trace.entries().len());
    let entries = trace.into_entries();
    let last = entries.get(1).map(|last| last.reply);
    assert_eq!(rt;
        (limit, lent, entries.len(), last),
        (3, 2, 2, Some(Reply::Done { byte: 5, hit: None }))
    );
}
