//! What is written during a run, in addition to its answers.

use std::alloc::{AllocError, Global};
use std::io::{Error, ErrorKind, Write};
use std::process::Abort;
use std::{io, str};
use subcommands::{Options, run_script, status_of};

const OVER_LIMIT: &str = "\
group /a
set /a memory.max 4096
task 1 /a
1 write 0 0 1
1 write 1 0 1
cat /a memory.max
rmdir /b
task 2 /a
begin 2 read 0 0
";

const PRINTED: &str = "\
killed 1
1 killed
4096
error ENOENT
";

// Keeps this number of writes, and fails at the next.
struct Limited {
    kept: Vec<u8>,
    writes: usize,
}

impl Write for Limited {
    fn write(&mut self, buf: &[u8]) -> io::Result<usize> {
        let Some(left) = self.writes.checked_sub(1) else {
            return Err(Error::from(ErrorKind::StorageFull));
        };
        self.writes = left;
        self.kept.write(buf)
    }

    fn flush(&mut self) -> io::Result<()> {
        Ok(())
    }
}

/// What is printed within this number of writes.
const BEGINNINGS: &[&str] = &[
    "",
    "killed 1\n",
    "killed 1\n1 killed\n",
    "killed 1\n1 killed\n4096\n",
    PRINTED,
];

/// Runs the script `a.memcg`, and returns its status.
fn status<O: Write, E: Write>(
    alloc: Global,
    options: Options,
    script: &str,
    out: &mut O,
    err: &mut E,
) -> u8 {
    let ran = run_script(alloc, options, "a.memcg", script.as_bytes(), out, err);
    status_of(ran, err)
}

// Each answer is written in a write of its own. The answers before one that can't be written are therefore out.
#[test]
fn answers_are_written_as_they_come(rt: HostRuntime) {
    for (writes, printed) in BEGINNINGS.iter().enumerate() {
        let mut out = Limited {
            kept: Vec::new(rt.alloc()),
            writes,
        };
        let mut err = Vec::new(rt.alloc());
        let found = status(
            rt.alloc(),
            Options::default(),
            OVER_LIMIT,
            &mut out,
            &mut err,
        );
        let Limited { kept, writes: _ } = out;
        let wanted = if writes == 4 { 0 } else { 1 };
        assert_eq!(rt;
            (found, str::from_utf8(&kept)),
            (wanted, Ok(*printed)),
            "{writes} writes"
        );
    }
}

// The script ends with this status, and writes this to standard output and this to standard error.
fn ends<R: Abort + AllocGlobal>(
    rt: &R,
    options: Options,
    script: &str,
    out: &str,
    err: &str,
    wanted: u8,
) {
    let mut printed = Vec::new(rt.alloc());
    let mut said = Vec::new(rt.alloc());
    let found = status(rt.alloc(), options, script, &mut printed, &mut said);
    assert_eq!(rt;
        (str::from_utf8(&said), str::from_utf8(&printed), found),
        (Ok(err), Ok(out), wanted)
    );
}

// The script ends with status 0, and writes this to standard output and this to standard error.
fn writes<R: Abort + AllocGlobal>(rt: &R, options: Options, script: &str, out: &str, err: &str) {
    ends(rt, options, script, out, err, 0);
}

#[test]
fn nothing_is_said_that_was_not_asked_for(rt: HostRuntime) {
    writes(&rt, Options::default(), OVER_LIMIT, PRINTED, "");
}

#[test]
fn each_answer_stands_behind_its_line(rt: HostRuntime) {
    let options = Options {
        lines: true,
        ..Options::default()
    };
    let out = "\
5: killed 1
5: 1 killed
6: 4096
7: error ENOENT
";
    writes(&rt, options, OVER_LIMIT, out, "");
}

// Lines that ask for nothing are counted too. A text of several lines has the number before each of them.
#[test]
fn each_line_of_a_text_stands_behind_its_line(rt: HostRuntime) {
    let options = Options {
        lines: true,
        ..Options::default()
    };
    let script = "# two groups\n\nframes 8\ngroup /a\ncat /a memory.stat\ncat /a memory.current\n";
    let out = "5: anon 0\n5: file 0\n6: 0\n";
    writes(&rt, options, script, out, "");
}

// The result of an audit comes after all answers, whatever else is asked for.
#[test]
fn an_audit_has_the_last_line(rt: HostRuntime) {
    let options = Options {
        audit: true,
        ..Options::default()
    };
    writes(&rt, options, "", "audit ok\n", "");
    let script = "group /a\ntask 1 /a\n1 write 0 0 5\n1 read 0 0\ncat /a memory.current\n";
    writes(&rt, options, script, "1 5\n4096\naudit ok\n", "");
    let options = Options {
        audit: true,
        lines: true,
        summary: true,
        ..Options::default()
    };
    let out = "4: 1 5\n5: 4096\naudit ok\n";
    let err =
        "lines: 5\nkills: 0\nrefused: 0\nunfinished: 0\npages read in: 0\npages written to swap: 0\npages dropped: 0\npages written home: 0\nagings: 0\ngreatest memory.current of /a: 4096\n";
    writes(&rt, options, script, out, err);
}

const SUMMARY: &str = "\
lines: 9
kills: 1
refused: 1
refused with ENOENT: 1
unfinished: 1
pages read in: 0
pages written to swap: 0
pages dropped: 0
pages written home: 0
agings: 0
greatest memory.current of /a: 4096
1 of 9 lines failed: ENOENT 1; --strict stops at the first
";

// Other counts are in options.cases of `cases`.
#[test]
fn a_summary_counts_what_was_done(rt: HostRuntime) {
    let options = Options {
        summary: true,
        ..Options::default()
    };
    writes(&rt, options, OVER_LIMIT, PRINTED, SUMMARY);
}

// Keeps what it takes until it has to pass it on. After this number of writes it takes no more.
struct KeepsBack {
    kept: Vec<u8>,
    writes: usize,
    passed_on: bool,
}

impl Write for KeepsBack {
    fn write(&mut self, buf: &[u8]) -> io::Result<usize> {
        let Some(left) = self.writes.checked_sub(1) else {
            return Err(Error::from(ErrorKind::StorageFull));
        };
        self.writes = left;
        self.passed_on = false;
        self.kept.write(buf)
    }

    fn flush(&mut self) -> io::Result<()> {
        self.passed_on = true;
        Ok(())
    }
}

// All that was written is passed on before a fault is reported, also if the run is cut short.
#[test]
fn all_answers_are_passed_on_at_the_end(rt: HostRuntime) {
    let alloc = rt.alloc();
    for writes in 0..=4 {
        let mut out = KeepsBack {
            kept: Vec::new(alloc),
            writes,
            passed_on: false,
        };
        let mut err = Vec::new(alloc);
        let script = OVER_LIMIT.as_bytes();
        let options = Options::default();
        let ran = run_script(alloc, options, "a.memcg", script, &mut out, &mut err);
        let KeepsBack {
            kept,
            writes: _,
            passed_on,
        } = out;
        let lines = kept.iter().filter(|byte| **byte == b'\n').count();
        assert_eq!(rt;
            (ran.is_ok(), err.len(), passed_on, lines),
            (writes == 4, 0, true, writes),
            "{writes} writes"
        );
    }
}

#[test]
fn a_terminal_sees_how_many_lines_are_done(rt: HostRuntime) {
    let options = Options {
        progress: true,
        ..Options::default()
    };
    let err = "reading the script\r\u{1b}[K\r1 of 2 lines\r2 of 2 lines\r\u{1b}[K";
    writes(&rt, options, "group /a\ntask 1 /a\n", "", err);
    // It is erased before an answer, and not written again for less than a hundredth of the lines.
    let err = "reading the script\r\u{1b}[K\r1 of 2 lines\r\u{1b}[K\r2 of 2 lines\r\u{1b}[K";
    writes(
        &rt,
        options,
        "group /a\ncat /a memory.current\n",
        "0\n",
        err,
    );
    writes(&rt, options, "", "", "reading the script\r\u{1b}[K");
}

/// A script of 25,001 lines, of which line 10,000 prints.
fn long(alloc: Global) -> Result<String, AllocError> {
    let mut script = String::new(alloc);
    script.push_str("group /a\n")?;
    for number in 2..25_000 {
        script.push_str(if number == 10_000 {
            "cat /a memory.current\n"
        } else {
            "#\n"
        })?;
    }
    script.push_str("group /b\ngroup /c\n")?;
    Ok(script)
}

// Elsewhere a line says so at the first answer after each 10,000 lines.
#[test]
fn lines_say_how_many_lines_are_done(rt: HostRuntime) {
    let options = Options {
        progress_lines: true,
        ..Options::default()
    };
    let script = long(rt.alloc()).expect(&rt, "no memory");
    let err = "progress: line 10000 of 25001\nprogress: line 25000 of 25001\n";
    writes(&rt, options, &script, "0\n", err);
    writes(&rt, options, "group /a\ncat /a memory.current\n", "0\n", "");
}

// If a run is cut short, it stays as a line of its own, and so does what is said of it.
#[test]
fn a_terminal_sees_how_many_lines_were_done(rt: HostRuntime) {
    let options = Options {
        progress: true,
        strict: true,
        ..Options::default()
    };
    let script = "group /a\nrmdir /b\ngroup /c\n";
    let err =
        "reading the script\r\u{1b}[K\r1 of 3 lines\r\u{1b}[K2 of 3 lines\na.memcg:2: rmdir /b: ENOENT, there is no group /b\n";
    ends(&rt, options, script, "error ENOENT\n", err, 1);
    // A script with a fault is not run.
    let err = "reading the script\r\u{1b}[Ka.memcg:1: unknown word\n";
    ends(&rt, options, "foo\n", "", err, 1);
}

#[test]
fn a_run_that_is_cut_short_says_how_far_it_came(rt: HostRuntime) {
    let options = Options {
        summary: true,
        ..Options::default()
    };
    let mut out = Limited {
        kept: Vec::new(rt.alloc()),
        writes: 2,
    };
    let mut err = Vec::new(rt.alloc());
    let found = status(rt.alloc(), options, OVER_LIMIT, &mut out, &mut err);
    let Limited { kept, writes: _ } = out;
    let wanted =
        "lines: 6\nkills: 1\nrefused: 0\nunfinished: 0\nagings: 0\ngreatest memory.current of /a: 4096\nthe answers can't be written: no storage space\n";
    assert_eq!(rt;
        (found, str::from_utf8(&kept), str::from_utf8(&err)),
        (1, Ok("killed 1\n1 killed\n"), Ok(wanted))
    );
}

// Notes the order in which it and another are written to. It passes on at once what it takes.
struct Noted<'a> {
    all: &'a mut Vec<u8>,
    kept: Vec<u8>,
}

impl Write for Noted<'_> {
    fn write(&mut self, buf: &[u8]) -> io::Result<usize> {
        self.kept.write(buf)
    }

    fn flush(&mut self) -> io::Result<()> {
        self.all.write_all(self.kept.as_slice())?;
        self.kept.clear();
        Ok(())
    }
}

// All answers are passed on before the reason why a line was refused is written.
#[test]
fn why_a_line_is_refused_is_told_behind_its_answer(rt: HostRuntime) {
    let alloc = rt.alloc();
    let options = Options {
        explain: true,
        ..Options::default()
    };
    let mut passed_on = Vec::new(alloc);
    let mut out = Noted {
        all: &mut passed_on,
        kept: Vec::new(alloc),
    };
    let mut err = Limited {
        kept: Vec::new(alloc),
        writes: 0,
    };
    // If the reason can't be written, the run continues.
    let script = "group /a\ncat /a memory.max\nrmdir /b\ncat /a memory.min\n";
    let found = status(alloc, options, script, &mut out, &mut err);
    let Limited { kept, writes: _ } = err;
    let Noted { all: _, kept: _ } = out;
    assert_eq!(rt;
        (found, kept.len(), str::from_utf8(&passed_on)),
        (0, 0, Ok("max\nerror ENOENT\n0\n"))
    );
}
