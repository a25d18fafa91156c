//! A caller of `thread_runs`: what a run on threads shows of groups at its end.

use std::alloc::{AllocError, Global};
use std::process::Abort;
use std::str;
use std::sync::Wait;
use std::thread::Threads;
use subcommands::Options;
use thread_runs::{Notes, Shows, Verdict, run_script_showing};

/// What a run of the script prints to `out`, if it ends well, and what it did.
fn shown<R: Threads + Wait + Sync>(
    rt: &R,
    alloc: Global,
    shows: Shows<'_>,
    script: &str,
) -> Option<(Vec<u8>, Notes)> {
    let mut out = Vec::new(alloc);
    let mut notes = Notes::new(alloc, false);
    let options = Options::default();
    let bytes = script.as_bytes();
    match run_script_showing(rt, alloc, options, shows, "", bytes, &mut notes, &mut out) {
        Ok(Verdict::Fine) => Some((out, notes)),
        _ => None,
    }
}

/// A group with two groups below it, a group alone, and one that the shell removes while the tasks run.
const FOUR_GROUPS: &str =
    "frames 16\nfile data 2\ngroup /a\ngroup /a/e\ngroup /a/b\ngroup /c\ngroup /d\ntask 1 /a/e\ntask 2 /a/b\ntask 3 /c\ngo\n1 write 0 0 1\n1 write 1 0 1\n2 write 0 0 2\n2 fread data 0 0\n3 write 0 0 3\n3 write 1 0 3\n3 write 2 0 3\nrmdir /d\n";

/// No event was counted.
const NO_EVENTS: &str = "low 0\nhigh 0\nmax 0\noom 0\noom_kill 0\noom_group_kill 0\n";

/// A group's path, its `memory.current`, the two lines of its `memory.stat`, and its `memory.events`. No group has a path
/// without these.
type Files<'a> = (&'a str, Option<(u64, u64, u64, &'a str)>);

/// The answers, the files of these groups, and the verdict.
fn all_of(alloc: Global, answers: &str, groups: &[Files<'_>]) -> Result<String, AllocError> {
    let mut text = String::from_str(alloc, answers)?;
    for (path, files) in groups {
        match files {
            Some((current, anon, file, events)) => {
                writeln!(text, "{path}/memory.current\n{current}")?;
                writeln!(text, "{path}/memory.stat\nanon {anon}\nfile {file}")?;
                write!(text, "{path}/memory.events\n{events}")?;
            }
            None => {
                writeln!(text, "{path}/memory.current\nerror ENOENT")?;
                writeln!(text, "{path}/memory.stat\nerror ENOENT")?;
                writeln!(text, "{path}/memory.events\nerror ENOENT")?;
            }
        }
    }
    text.push_str("audit ok\n")?;
    Ok(text)
}

/// A run of the script prints these answers, and the files of these groups.
fn prints<R: Abort + AllocGlobal + Threads + Wait + Sync>(
    rt: &R,
    shows: Shows<'_>,
    script: &str,
    answers: &str,
    groups: &[Files<'_>],
) {
    let Some((out, _)) = shown(rt, rt.alloc(), shows, script) else {
        panic!(rt; "a fault")
    };
    let wanted = all_of(rt.alloc(), answers, groups).expect(rt, "no memory");
    assert_eq!(rt; str::from_utf8(&out), Ok(wanted.as_str()));
}

/// A run of the script has this summary.
fn sums_up<R: Abort + AllocGlobal + Threads + Wait + Sync>(rt: &R, script: &str, summary: &str) {
    let Some((_, notes)) = shown(rt, rt.alloc(), Shows::These(&[]), script) else {
        panic!(rt; "a fault")
    };
    let mut said = Vec::new(rt.alloc());
    let is_written = notes.summary().write(&mut said).is_ok();
    assert_eq!(rt; (is_written, str::from_utf8(&said)), (true, Ok(summary)));
}

#[test]
fn all_groups_that_are_left_are_shown(rt: HostRuntime) {
    // Task 1 has two pages, task 2 one and the file's, and task 3 three.
    let groups = [
        ("/a", Some((16384, 12288, 4096, NO_EVENTS))),
        ("/a/e", Some((8192, 8192, 0, NO_EVENTS))),
        ("/a/b", Some((8192, 4096, 4096, NO_EVENTS))),
        ("/c", Some((12288, 12288, 0, NO_EVENTS))),
    ];
    prints(&rt, Shows::All, FOUR_GROUPS, "2 0\n", &groups);
}

#[test]
fn paths_are_shown_in_the_order_asked_for(rt: HostRuntime) {
    let groups = [
        ("/c", Some((12288, 12288, 0, NO_EVENTS))),
        ("/d", None),
        ("/", None),
        ("/a/b", Some((8192, 4096, 4096, NO_EVENTS))),
    ];
    let shows = Shows::These(&["/c", "/d", "/", "/a/b"]);
    prints(&rt, shows, FOUR_GROUPS, "2 0\n", &groups);
}

/// A third page is over the limit. Task 1 has the most pages, and its two are freed.
const KILLS: &str =
    "group /p\ngroup /p/a\ngroup /p/b\nset /p/a memory.max 8192\ntask 1 /p/a\ntask 2 /p/a\n1 write 0 0 5\n1 write 1 0 5\ncat /p/a memory.current\ngo\n2 write 0 0 6\n2 read 0 0\n";

#[test]
fn events_are_those_of_the_end(rt: HostRuntime) {
    let events = "low 0\nhigh 0\nmax 1\noom 1\noom_kill 1\noom_group_kill 0\n";
    let groups = [
        ("/p/a", Some((4096, 4096, 0, events))),
        ("/p", Some((4096, 4096, 0, events))),
        ("/p/b", Some((0, 0, 0, NO_EVENTS))),
    ];
    let shows = Shows::These(&["/p/a", "/p", "/p/b"]);
    prints(&rt, shows, KILLS, "8192\nkilled 1\n2 6\n", &groups);
    let summary =
        "kills: 1\nrefused: 0\npages read in: 0\npages written out: 0\npages dropped: 0\n";
    sums_up(&rt, KILLS, summary);
}

#[test]
fn a_summary_counts_what_is_refused_and_moved(rt: HostRuntime) {
    let script =
        "swap 2\ntrace 11\ngroup /a\ntask 1 /a\n1 write 0 0 5\nset /a memory.reclaim 4096\n1 read 0 0\nrmdir /a\ngo\n1 read 0 0\n1 read 0 0\n1 read 0 0\n";
    // 7 entries: a group, a task, a write, a page out and its end, a page in and its end. The rmdir is refused, and
    // each read takes one of the four entries that are left.
    let summary =
        "kills: 0\nrefused: 1\nrefused with EBUSY: 1\npages read in: 1\npages written out: 1\npages dropped: 0\n";
    sums_up(&rt, script, summary);
}
