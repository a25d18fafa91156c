//! A caller of `thread_runs`: what a run on threads says besides its answers.

use std::alloc::Global;
use std::process::Abort;
use std::str;
use std::sync::Wait;
use std::thread::Threads;
use subcommands::Options;
use thread_runs::{Shows, Verdict, run_script_told};

/// What a run of the script writes to `out` and to `err`, if it ends well.
fn told<R: Threads + Wait + Sync>(
    rt: &R,
    alloc: Global,
    options: Options,
    script: &str,
) -> Option<(Vec<u8>, Vec<u8>)> {
    let mut out = Vec::new(alloc);
    let mut err = Vec::new(alloc);
    let shows = Shows::These(&[]);
    let bytes = script.as_bytes();
    match run_script_told(rt, alloc, options, shows, "f", bytes, &mut out, &mut err) {
        Ok(Verdict::Fine) => Some((out, err)),
        _ => None,
    }
}

/// A run of the script writes this to `out`, and this to `err`.
fn tells<R: Abort + AllocGlobal + Threads + Wait + Sync>(
    rt: &R,
    options: Options,
    script: &str,
    out: &str,
    err: &str,
) {
    let Some((printed, said)) = told(rt, rt.alloc(), options, script) else {
        panic!(rt; "a fault")
    };
    assert_eq!(rt;
        (str::from_utf8(&printed), str::from_utf8(&said)),
        (Ok(out), Ok(err))
    );
}

/// In the setup, a line is refused and one is answered. On threads, a task is killed, and a line of a task that was never
/// started is refused.
const SCRIPT: &str =
    "group /p\ngroup /p\nset /p memory.max 8192\ntask 1 /p\ntask 2 /p\n1 write 0 0 5\n1 write 1 0 5\ncat /p memory.stat\ngo\n2 write 0 0 6\n2 read 0 0\n3 read 0 0\n";

#[test]
fn labels_name_the_line_of_each_answer(rt: HostRuntime) {
    let options = Options {
        labels: true,
        ..Options::default()
    };
    let out =
        "2: group /p: error EEXIST\n8: cat /p memory.stat: anon 8192\n8: cat /p memory.stat: file 0\n10: 2 write 0 0 6: killed 1\n11: 2 read 0 0: 2 6\n12: 3 read 0 0: 3 ESRCH\naudit ok\n";
    tells(&rt, options, SCRIPT, out, "");
}

#[test]
fn numbers_stand_before_answers(rt: HostRuntime) {
    let options = Options {
        lines: true,
        ..Options::default()
    };
    let out =
        "2: error EEXIST\n8: anon 8192\n8: file 0\n10: killed 1\n11: 2 6\n12: 3 ESRCH\naudit ok\n";
    tells(&rt, options, SCRIPT, out, "");
}

#[test]
fn refusals_and_kills_are_explained(rt: HostRuntime) {
    let options = Options {
        explain: true,
        ..Options::default()
    };
    let out = "error EEXIST\nanon 8192\nfile 0\nkilled 1\n2 6\n3 ESRCH\naudit ok\n";
    let err =
        "f:2: group /p: EEXIST, the group /p already exists\nf:10: 2 write 0 0 6: killed 1: nothing can be reclaimed, and no task that may be killed has more pages\nf:12: 3 read 0 0: ESRCH, task 3 was never started, or has exited\n";
    tells(&rt, options, SCRIPT, out, err);
}

#[test]
fn a_full_trace_is_explained_once(rt: HostRuntime) {
    let options = Options {
        explain: true,
        labels: true,
        ..Options::default()
    };
    // The trace has room for the group, the task and one write.
    let script = "trace 3\ngroup /a\ntask 1 /a\ngo\n1 write 0 0 5\n1 write 1 0 5\n1 write 2 0 5\n";
    let Some((out, err)) = told(&rt, rt.alloc(), options, script) else {
        panic!(rt; "a fault")
    };
    let wanted = "6: 1 write 1 0 5: 1 TraceFull\n7: 1 write 2 0 5: 1 TraceFull\naudit ok\n";
    let lines = err.split(|byte| *byte == b'\n').count();
    assert_eq!(rt;
        (
            str::from_utf8(&out),
            lines,
            err.starts_with(b"f:6: 1 write 1 0 5: TraceFull, ")
        ),
        (Ok(wanted), 2, true)
    );
}
