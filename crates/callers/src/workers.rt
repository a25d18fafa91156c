//! What workers are answered if their transfers overlap, fail or bring other bytes.

use crate::crowd::{answers, crowd, is_fine};
use crate::gate::Manner;
use std::alloc::Global;
use std::test::Fail;
use trace::First;

const SWAPPED: &str =
    "swap 2\ngroup /a\ntask 1 /a\ntask 2 /a\n1 write 0 0 5\n2 write 0 0 6\nset / memory.reclaim 8192\n";

/// Each task reads its page.
const READS: &[&str] = &["1 read 0 0\n", "2 read 0 0\n"];

#[test]
fn reads_overlap(rt: HostRuntime) {
    // The device holds the first read until the second has begun. If a lock were held during the call, the first
    // read would end in EIO.
    let wanted = ["--\n1 5\n--\n2 6\n--\n"];
    answers(&rt, Manner::HoldsReads, SWAPPED, READS, "", &wanted);
}

const TWO_GROUPS: &str =
    "swap 2\ngroup /a\ngroup /b\ntask 1 /a\ntask 2 /b\n1 write 0 0 5\n2 write 0 0 6\n";

/// A page of each group is evicted.
const EVICTIONS: &[&str] = &[
    "set /a memory.reclaim 4096\n",
    "set /b memory.reclaim 4096\n",
];

#[test]
fn writes_overlap(rt: HostRuntime) {
    let behind = "cat /a memory.current\ncat /b memory.current\n1 read 0 0\n2 read 0 0\n";
    let wanted = ["--\n--\n--\n0\n0\n1 5\n2 6\n"];
    answers(
        &rt,
        Manner::HoldsWrites,
        TWO_GROUPS,
        EVICTIONS,
        behind,
        &wanted,
    );
}

#[test]
fn one_of_two_reads_fails(rt: HostRuntime) {
    // The held read fails after the other has begun. If a lock were held during the call, it would succeed. Either
    // task's read may be the held one. After that, a third task has all frames and blocks, and no more.
    let before =
        "frames 2\nswap 2\ngroup /a\ntask 1 /a\ntask 2 /a\n1 write 0 0 5\n2 write 0 0 6\nset / memory.reclaim 8192\n";
    let behind =
        "cat /a memory.current\n1 read 0 0\n2 read 0 0\ncat /a memory.current\n1 exit\n2 exit\ntask 3 /a\n3 write 0 0 1\n3 write 1 0 1\n3 write 2 0 1\n3 write 3 0 1\ncat /a memory.current\n3 write 4 0 1\n";
    let wanted = [
        "--\n1 EIO\n--\n2 6\n--\n4096\n1 5\n2 6\n8192\n8192\nkilled 3\n3 killed\n",
        "--\n1 5\n--\n2 EIO\n--\n4096\n1 5\n2 6\n8192\n8192\nkilled 3\n3 killed\n",
    ];
    answers(&rt, Manner::FailsHeldRead, before, READS, behind, &wanted);
}

#[test]
fn one_of_two_writes_fails(rt: HostRuntime) {
    // The page whose write failed stays in its frame, and is evicted by the next request.
    let behind =
        "set / memory.reclaim 4096\ncat /a memory.current\ncat /b memory.current\n1 read 0 0\n2 read 0 0\n";
    let wanted = [
        "--\nerror EIO\n--\n--\n0\n0\n1 5\n2 6\n",
        "--\n--\nerror EIO\n--\n0\n0\n1 5\n2 6\n",
    ];
    answers(
        &rt,
        Manner::FailsHeldWrite,
        TWO_GROUPS,
        EVICTIONS,
        behind,
        &wanted,
    );
}

/// Both tasks map one page, which is swapped out.
const SHARED: &str =
    "swap 1\ngroup /a\ntask 1 /a\n1 write 0 0 7\n1 fork 2\nset / memory.reclaim 4096\n";

#[test]
fn a_page_that_is_shared_comes_once(rt: HostRuntime) {
    // The second task finds the page in transfer, and waits.
    let wanted = ["--\n1 7\n--\n2 7\n--\n"];
    answers(&rt, Manner::Plain, SHARED, READS, "", &wanted);
}

#[test]
fn who_waits_for_a_page_goes_on_where_its_read_fails(rt: HostRuntime) {
    // The first task gets the failure of its read. The other, which waited for it, reads the page in.
    let behind = "1 read 0 0\n2 read 0 0\n";
    let wanted = [
        "--\n1 EIO\n--\n2 7\n--\n1 7\n2 7\n",
        "--\n1 7\n--\n2 EIO\n--\n1 7\n2 7\n",
    ];
    for _round in 0..10 {
        answers(&rt, Manner::FailsReadLate, SHARED, READS, behind, &wanted);
    }
}

#[test]
fn who_waits_for_room_goes_on_where_the_write_fails(rt: HostRuntime) {
    // There is one page in /a, and no room for another. The worker that evicts it first gets the failure of its
    // write. The other waited for that, and then evicts the page. The other is the shell, or task 2, which then
    // makes its own page.
    let before = "swap 2\ngroup /a\nset /a memory.max 4096\ntask 1 /a\ntask 2 /a\n1 write 0 0 7\n";
    let rows = ["2 write 0 0 8\n", "set /a memory.reclaim 4096\n"];
    let behind = "1 read 0 0\n2 read 0 0\n";
    let wanted = [
        "--\n2 EIO\n--\n--\n1 7\n2 0\n",
        "--\n--\nerror EIO\n--\n1 7\n2 8\n",
    ];
    for _round in 0..10 {
        answers(&rt, Manner::FailsWriteLate, before, &rows, behind, &wanted);
    }
}

#[test]
fn a_changed_byte_is_the_devices(rt: HostRuntime) -> Result<(), Fail> {
    let before =
        "swap 1\ngroup /a\ntask 1 /a\n1 write 0 0 5\nset / memory.reclaim 4096\n1 read 0 0\n";
    let ended = crowd(&rt, rt.alloc(), Manner::AddsOne, before, &[], "").ok_or("no run")?;
    // The arrival. Before it are a group, a task, a write, an evicted page, the end of that transfer, and the
    // access that begins the read.
    assert_eq!(rt;
        (ended.before.as_str(), ended.audit, ended.replies_match),
        ("1 6\n", Err(First { entry: 7 }), true)
    );
    Ok(())
}

#[test]
fn a_device_that_fails_is_told(rt: HostRuntime) {
    let before =
        "swap 2\ngroup /a\ntask 1 /a\n1 write 0 0 5\nset /a memory.reclaim 4096\ncat /a memory.current\n1 read 0 0\n";
    let wanted = ["error EIO\n4096\n1 5\n--\n"];
    answers(&rt, Manner::FailsAll, before, &[], "", &wanted);
}

#[test]
fn each_call_fails_once(rt: HostRuntime) {
    let before =
        "swap 2\ngroup /a\ntask 1 /a\n1 write 0 0 5\nset /a memory.reclaim 4096\nset /a memory.reclaim 4096\n1 read 0 0\n1 read 0 0\n";
    let wanted = ["error EIO\n1 EIO\n1 5\n--\n"];
    answers(&rt, Manner::FailsEachOnce, before, &[], "", &wanted);
}

#[test]
fn the_daemon_takes_pages_at_the_end(rt: HostRuntime) {
    // Three of four frames are used. The daemon begins below two free ones, and continues up to three.
    let before =
        "frames 4\nswap 4\nwatermarks 2 3\ngroup /a\ntask 1 /a\n1 write 0 0 1\n1 write 1 0 1\n1 write 2 0 1\n";
    let behind = "cat /a memory.current\n";
    answers(&rt, Manner::Plain, before, &[], behind, &["--\n4096\n"]);
}

#[test]
fn a_killed_task_is_told(rt: HostRuntime) {
    // Task 1 has three pages and nothing can be written out, so a lower max kills it.
    let before =
        "group /a\ntask 1 /a\ntask 2 /a\n1 write 0 0 1\n1 write 1 0 1\n1 write 2 0 1\n2 write 0 0 2\n";
    let rows = ["set /a memory.max 4096\n", "2 read 0 0\n"];
    let behind = "1 read 0 0\ncat /a memory.current\n";
    let wanted = ["--\nkilled 1\n--\n2 2\n--\n1 killed\n4096\n"];
    answers(&rt, Manner::Plain, before, &rows, behind, &wanted);
}

/// Task 1 has two pages that are charged to /b, and one on swap, which will be charged to /a. Swap is full, so /b
/// cannot swap out its pages. Pages of files can be written out.
const MOVED: &str =
    "swap 1\nfile f 2\ngroup /a\ngroup /b\ngroup /c\ntask 1 /b\ntask 2 /c\n1 write 1 0 1\n1 write 2 0 1\nattach 1 /a\n1 write 0 0 5\n2 fwrite f 0 0 9\n2 fwrite f 1 0 9\nset /a memory.reclaim 4096\n";

/// Task 1 reads its page in. The shell's first write to the device is held until that read has begun. The read is
/// held until the shell writes again. So task 1 is moved to /b and killed there while its page is being read in for
/// /a.
const KILLED: [&str; 2] = [
    "1 read 0 0\n",
    "set /c memory.reclaim 4096\nattach 1 /b\nset /b memory.max 4096\nset /c memory.reclaim 4096\n",
];

/// Nothing is charged any more.
const GONE: &str =
    "cat /a memory.current\ncat /b memory.current\ncat /c memory.current\n1 read 0 0\n";

#[test]
fn a_task_is_killed_in_a_transfer(rt: HostRuntime) {
    let wanted = ["--\n1 killed\n--\nkilled 1\n--\n0\n0\n0\n1 killed\n"];
    answers(&rt, Manner::HoldsAcross, MOVED, &KILLED, GONE, &wanted);
}

#[test]
fn a_task_that_is_killed_is_told_that_its_read_failed(rt: HostRuntime) {
    let wanted = ["--\n1 EIO\n--\nkilled 1\n--\n0\n0\n0\n1 killed\n"];
    answers(&rt, Manner::FailsAcross, MOVED, &KILLED, GONE, &wanted);
}

#[test]
fn a_pass_that_is_missing_is_told(rt: HostRuntime) {
    // `answers` demands that five were given out: one for the lines before and behind, one for the daemon, and one for
    // each of the three rows.
    let rows = ["1 read 0 0\n", "2 read 0 0\n", "cat /a memory.max\n"];
    let wanted = ["--\n1 5\n--\n2 6\n--\nmax\n--\n"];
    answers(&rt, Manner::Plain, SWAPPED, &rows, "", &wanted);
}

/// The lines of a task, and their answers. The group has no room for the pages of all its tasks.
fn restless(alloc: Global, task: u32) -> Result<(String, String), Fail> {
    let mut lines = String::new(alloc);
    let mut answers = String::new(alloc);
    for page in 0..4u32 {
        writeln!(lines, "{task} write {page} 0 {}", task.wrapping_add(page))?;
    }
    for page in 0..4u32 {
        writeln!(lines, "{task} read {page} 0")?;
        writeln!(answers, "{task} {}", task.wrapping_add(page))?;
    }
    Ok((lines, answers))
}

/// This number of tasks in one group, which has room for a few of their pages: the lines before, those of each task, and all
/// answers.
fn many(alloc: Global, tasks: u32) -> Result<(String, Vec<String>, String), Fail> {
    let mut before = String::new(alloc);
    before.push_str("frames 32\nswap 1024\ntrace 200000\ngroup /a\nset /a memory.max 64K\n")?;
    let mut rows = Vec::new(alloc);
    let mut wanted = String::new(alloc);
    for task in 1..=tasks {
        writeln!(before, "task {task} /a")?;
        let (lines, answers) = restless(alloc, task)?;
        rows.push(lines)?;
        write!(wanted, "--\n{answers}")?;
    }
    wanted.push_str("--\n")?;
    Ok((before, rows, wanted))
}

#[test]
fn many_workers_share_a_limit(rt: HostRuntime) -> Result<(), Fail> {
    let (before, lines, wanted) = many(rt.alloc(), 64)?;
    let mut rows = Vec::new(rt.alloc());
    for row in &lines {
        rows.push(row.as_str())?;
    }
    answers(&rt, Manner::Plain, &before, &rows, "", &[wanted.as_str()]);
    Ok(())
}

#[test]
fn no_wake_up_is_lost(rt: HostRuntime) -> Result<(), Fail> {
    // Both tasks map one page. It is written out again and again, so each task meets it in transfer.
    let rows = [
        "1 read 0 0\n1 read 0 0\n1 read 0 0\n1 read 0 0\n",
        "2 read 0 0\n2 read 0 0\n2 read 0 0\n2 read 0 0\n",
        "set / memory.reclaim 4096\nset / memory.reclaim 4096\nset / memory.reclaim 4096\n",
    ];
    let before =
        "swap 4\ngroup /a\ntask 1 /a\n1 write 0 0 7\n1 fork 2\nset / memory.reclaim 4096\n";
    // What the shell is answered depends on when it asks.
    let wanted = "--\n1 7\n1 7\n1 7\n1 7\n--\n2 7\n2 7\n2 7\n2 7\n--\n";
    for _round in 0..300 {
        let ended = crowd(&rt, rt.alloc(), Manner::Plain, before, &rows, "").ok_or("no run")?;
        let text = ended.told(rt.alloc())?;
        assert!(rt; text.starts_with(wanted) && is_fine(&ended), "{text}");
    }
    Ok(())
}
