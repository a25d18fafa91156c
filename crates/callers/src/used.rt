//! Which pages stay if workers set marks without a lock, and merge them before a page is evicted.

use crate::crowd::answers;
use crate::gate::Manner;
use std::alloc::{AllocError, Global};
use std::fmt::Write;
use std::process::Abort;
use std::sync::Wait;
use std::thread::Threads;

/// Three pages. There is room for them, but not for a fourth.
const THREE: &str =
    "group /a\nset /a memory.max 12288\ntask 1 /a\n1 write 0 0 10\n1 write 1 0 11\n1 write 2 0 12\n";

/// A read of a page that is still held counts no `max`, and a read of an evicted page counts one.
const LOOKS: &str = "1 read 0 0\ncat /a memory.events\n";

/// The lines that make the three pages. `others` pages are made before them, and page 0 may be used after that.
fn made(alloc: Global, others: u32, uses: &str) -> Result<String, AllocError> {
    let mut before = String::new(alloc);
    writeln!(before, "frames 200\nswap 8\ngroup /b\ntask 2 /b")?;
    for page in 0..others {
        writeln!(before, "2 write {page} 0 1")?;
    }
    before.push_str(THREE)?;
    before.push_str(uses)?;
    Ok(before)
}

/// The three pages are made, and then a fourth, for which one is evicted. The lines before, or the worker, may use page 0.
/// Then `max` was counted so often. Both that use it and the worker are answered so.
fn fourth<R: Abort + AllocGlobal + Threads + Wait + Sync>(
    rt: &R,
    others: u32,
    (uses, used): (&str, &str),
    (row, answered): (&str, &str),
    max: u32,
) {
    let before = made(rt.alloc(), others, uses).expect(rt, "no memory");
    let wanted = format!(in rt.alloc();
        "{used}--\n{answered}--\n1 10\nlow 0\nhigh 0\nmax {max}\noom 0\noom_kill 0\noom_group_kill 0\n"
    ).expect(rt, "no memory");
    answers(
        rt,
        Manner::Plain,
        &before,
        &[row],
        LOOKS,
        &[wanted.as_str()],
    );
}

/// Page 0 is read.
const USE: (&str, &str) = ("1 read 0 0\n", "1 10\n");

const NO_USE: (&str, &str) = ("", "");

/// The fourth page.
const FOURTH: (&str, &str) = ("1 write 3 0 13\n", "");

#[test]
fn the_first_that_came_leaves(rt: HostRuntime) {
    fourth(&rt, 0, NO_USE, FOURTH, 2);
}

#[test]
fn a_page_that_the_worker_used_stays(rt: HostRuntime) {
    fourth(
        &rt,
        0,
        NO_USE,
        ("1 read 0 0\n1 write 3 0 13\n", "1 10\n"),
        1,
    );
}

#[test]
fn a_page_that_another_used_stays(rt: HostRuntime) {
    fourth(&rt, 0, USE, FOURTH, 1);
}

#[test]
fn a_used_page_stays_in_any_word(rt: HostRuntime) {
    for others in [61, 62, 63, 64, 126, 190].iter() {
        fourth(&rt, *others, USE, FOURTH, 1);
    }
}

#[test]
fn the_daemon_merges_first(rt: HostRuntime) {
    // Three of four frames are used, and the daemon continues up to three free ones. It evicts two pages, and not
    // the one that was used: that one would come back with another byte.
    let before =
        "frames 4\nswap 4\nwatermarks 2 3\ngroup /a\ntask 1 /a\n1 write 0 0 10\n1 write 1 0 11\n1 write 2 0 12\n1 read 0 0\n";
    let behind = "cat /a memory.current\n1 read 0 0\n";
    answers(
        &rt,
        Manner::AddsOne,
        before,
        &[],
        behind,
        &["1 10\n--\n4096\n1 10\n"],
    );
}
