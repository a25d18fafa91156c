//! A caller of `thread_runs`: scripts on threads.

use std::alloc::Global;
use std::str;
use std::sync::Wait;
use std::thread::Threads;
use thread_runs::run;

/// What a run of the script prints to `out` and to `err`, and its status.
fn printed<R: Threads + Wait + Sync>(
    rt: &R,
    alloc: Global,
    script: &str,
) -> (Vec<u8>, Vec<u8>, u8) {
    let mut out = Vec::new(alloc);
    let mut err = Vec::new(alloc);
    let mut bytes = script.as_bytes();
    let status = run(rt, alloc, &mut bytes, &mut out, &mut err);
    (out, err, status)
}

#[test]
fn rows_are_printed_one_behind_the_other(rt: HostRuntime) {
    let script =
        "group /a\ngroup /b\ntask 1 /a\ntask 2 /b\n1 write 0 0 5\ngo\n2 write 0 0 6\n1 read 0 0\n2 read 0 0\n";
    let (out, err, status) = printed(&rt, rt.alloc(), script);
    assert_eq!(rt;
        (str::from_utf8(&out), err.len(), status),
        (Ok("1 5\n2 6\naudit ok\n"), 0, 0)
    );
}
