//! A caller of `book` that merges marks by frame.

ghost use Rattle.std.specs.Prelude.{◌≡◌, ◌<◌};

use book::{Book, Event, Pass, Reply};
use machine::config::{Config, FileList, Placement, Watermarks};
use machine::event::{Op, Place};
use machine::id::{GroupId, TaskId};
use machine::page_size::PageSize;
use std::process::Abort;
use turns::automaton::spend;

/// Three frames, four swap blocks, and room for this number of entries. Task 1 is in the root.
fn open<R: Abort + AllocGlobal>(rt: &R, trace: u32) -> Book {
    let config = Config {
        frames: 3,
        swap: 4,
        files: FileList::new(rt.alloc()),
        watermarks: Watermarks { low: 0, high: 0 },
        trace,
        turns: 1000,
        recursive: false,
        placement: Placement::Own,
        page_size: PageSize::of_4k(),
    };
    let Ok(book) = Book::open(rt.alloc(), config) else {
        panic!(rt; "no book")
    };
    book
}

fn pass_of<R: Abort>(rt: &R, book: &mut Book) -> Pass {
    let Ok(pass) = book.pass() else {
        panic!(rt; "no pass")
    };
    pass
}

fn spawn(book: &mut Book, pass: &mut Pass) {
    if pass.reserve(1).is_ok() {
        spend(book.call(
            pass,
            Event::Spawn {
                task: TaskId(1),
                group: GroupId::ROOT,
            },
        ));
    }
}

/// Accesses a page of task 1. Returns the byte, and the frame that was hit. `None` if the page is not there, or if
/// the access is refused.
fn access(book: &mut Book, pass: &mut Pass, page: u32, op: Op) -> Option<(u8, Option<u32>)> {
    pass.reserve(2).ok()?;
    let place = Place::Virtual { page, offset: 0 };
    let asked = Event::Access {
        task: TaskId(1),
        place,
        op,
    };
    match book.call(pass, asked) {
        Reply::Done { byte, hit } => Some((byte, hit.map(|frame| frame.0))),
        Reply::Fetch(ticket) => {
            match book.call(pass, Event::FetchFailed(ticket)) {
                Reply::StrangeIn(ticket) => ticket.discard(),
                other => spend(other),
            }
            None
        }
        other => {
            spend(other);
            None
        }
    }
}

fn read(book: &mut Book, pass: &mut Pass, page: u32) -> Option<(u8, Option<u32>)> {
    access(book, pass, page, Op::Read)
}

fn write(book: &mut Book, pass: &mut Pass, page: u32, byte: u8) -> Option<(u8, Option<u32>)> {
    access(book, pass, page, Op::Write(byte))
}

/// Marks the frame. Returns whether the answer was Ok.
fn merge(book: &mut Book, pass: &mut Pass, frame: u32) -> bool {
    if pass.reserve(1).is_err() {
        return false;
    }
    let merged = Event::MergeMarks {
        word: frame / 64,
        bits: 1 << (frame % 64),
    };
    match book.call(pass, merged) {
        Reply::Ok => true,
        other => {
            spend(other);
            false
        }
    }
}

/// Writes out one page.
fn evict(book: &mut Book, pass: &mut Pass) {
    if pass.reserve(2).is_err() {
        return;
    }
    match book.call(pass, Event::ReclaimOne(GroupId::ROOT)) {
        Reply::Out(ticket) => match book.call(pass, Event::Left(ticket)) {
            Reply::StrangeOut(ticket) => ticket.discard(),
            other => spend(other),
        },
        other => spend(other),
    }
}

/// Which of the pages 0 to 2 are in frames.
fn held(book: &mut Book, pass: &mut Pass) -> [bool; 3] {
    [
        read(book, pass, 0).is_some(),
        read(book, pass, 1).is_some(),
        read(book, pass, 2).is_some(),
    ]
}

/// Makes pages 0 to 2 with the bytes 10 to 12. Returns the frame of page 0.
fn fill(book: &mut Book, pass: &mut Pass) -> Option<u32> {
    spawn(book, pass);
    write(book, pass, 0, 10);
    write(book, pass, 1, 11);
    write(book, pass, 2, 12);
    let first = read(book, pass, 0)?;
    read(book, pass, 1);
    read(book, pass, 2);
    first.1
}

/// Which pages stay if nothing is merged.
fn unmerged(book: &mut Book, pass: &mut Pass) -> [bool; 3] {
    fill(book, pass);
    evict(book, pass);
    held(book, pass)
}

#[test]
fn a_hit_marks_nothing_by_itself(rt: HostRuntime) {
    let mut book = open(&rt, 1000);
    let mut pass = pass_of(&rt, &mut book);
    let found = unmerged(&mut book, &mut pass);
    let _ = book.close();
    assert_eq!(rt; found, [false, true, true]);
}

/// Returns which pages stay if page 0 is marked. Also returns how many more requests the pass keeps for that, and
/// how many more entries the trace has.
fn merged(book: &mut Book, pass: &mut Pass) -> ([bool; 3], usize, usize) {
    let first = fill(book, pass);
    let kept = pass.kept().len();
    let entries = book.trace().len();
    if let Some(frame) = first {
        merge(book, pass, frame);
    }
    let more = pass.kept().len().wrapping_sub(kept);
    let longer = book.trace().len().wrapping_sub(entries);
    evict(book, pass);
    (held(book, pass), more, longer)
}

#[test]
fn a_merge_marks_the_page_of_its_frame(rt: HostRuntime) {
    let mut book = open(&rt, 1000);
    let mut pass = pass_of(&rt, &mut book);
    let found = merged(&mut book, &mut pass);
    let _ = book.close();
    assert_eq!(rt; found, ([true, false, true], 0, 0));
}

/// Page 3 is in the frame that page 0 had, when that frame is marked. Then two pages are evicted. Returns whether
/// page 3 was there, and what is read after that.
fn given_again(book: &mut Book, pass: &mut Pass) -> (bool, [Option<u8>; 3]) {
    let first = fill(book, pass);
    if pass.reserve(1).is_ok() {
        spend(book.call(
            pass,
            Event::Free {
                task: TaskId(1),
                page: 0,
            },
        ));
    }
    write(book, pass, 3, 13);
    let again = read(book, pass, 3) == Some((13, first));
    if let Some(frame) = first {
        merge(book, pass, frame);
    }
    evict(book, pass);
    evict(book, pass);
    let bytes = [
        byte(book, pass, 1),
        byte(book, pass, 2),
        byte(book, pass, 3),
    ];
    (again, bytes)
}

fn byte(book: &mut Book, pass: &mut Pass, page: u32) -> Option<u8> {
    read(book, pass, page).map(|found| found.0)
}

#[test]
fn a_frame_that_is_given_out_again_marks_its_new_page(rt: HostRuntime) {
    let mut book = open(&rt, 1000);
    let mut pass = pass_of(&rt, &mut book);
    let found = given_again(&mut book, &mut pass);
    let _ = book.close();
    assert_eq!(rt; found, (true, [None, None, Some(13)]));
}

/// The trace is full. Returns the answers to a read, and to merges of a frame and of no frame.
fn full(book: &mut Book, pass: &mut Pass) -> (bool, [bool; 2], usize) {
    fill(book, pass);
    let refused = read(book, pass, 0).is_none();
    let merges = [merge(book, pass, 0), merge(book, pass, u32::MAX)];
    (refused, merges, book.trace().len())
}

#[test]
fn a_merge_is_answered_where_the_trace_is_full(rt: HostRuntime) {
    let mut book = open(&rt, 7);
    let mut pass = pass_of(&rt, &mut book);
    let found = full(&mut book, &mut pass);
    let _ = book.close();
    assert_eq!(rt; found, (true, [true, true], 7));
}
