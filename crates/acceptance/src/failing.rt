//! Readers and writers that fail, that give and take little at a time, or that never end.

use std::alloc::Global;
use std::io::{Error, ErrorKind, Read, Write};
use std::{io, str};
use subcommands::{Options, SCRIPT_BYTES, read_and_check, schedule};

const OVER_LIMIT: &str = "\
group /a
set /a memory.max 4096
task 1 /a
1 write 0 0 1
1 write 1 0 1
cat /a memory.max
";

const PRINTED: &str = "\
killed 1
1 killed
4096
";

// Fails after its bytes.
struct Torn<'a> {
    bytes: &'a [u8],
}

impl Read for Torn<'_> {
    fn read(&mut self, buf: &mut [u8]) -> io::Result<usize> {
        if self.bytes.is_empty() {
            return Err(Error::from(ErrorKind::BrokenPipe));
        }
        self.bytes.read(buf)
    }
}

// Gives one byte at a time.
struct Trickle<'a> {
    bytes: &'a [u8],
}

impl Read for Trickle<'_> {
    fn read(&mut self, buf: &mut [u8]) -> io::Result<usize> {
        let Some((first, rest)) = self.bytes.split_first() else {
            return Ok(0);
        };
        let Some(place) = buf.first_mut() else {
            return Ok(0);
        };
        *place = *first;
        self.bytes = rest;
        Ok(1)
    }
}

// Takes some bytes and then fails.
struct Full {
    room: usize,
}

impl Write for Full {
    fn write(&mut self, buf: &[u8]) -> io::Result<usize> {
        if self.room == 0 {
            return Err(Error::from(ErrorKind::StorageFull));
        }
        let taken = buf.len().min(self.room);
        self.room -= taken;
        Ok(taken)
    }

    fn flush(&mut self) -> io::Result<()> {
        Ok(())
    }
}

// Takes all, and fails to pass it on.
struct Stuck;

impl Write for Stuck {
    fn write(&mut self, buf: &[u8]) -> io::Result<usize> {
        Ok(buf.len())
    }

    fn flush(&mut self) -> io::Result<()> {
        Err(Error::from(ErrorKind::StorageFull))
    }
}

fn is_one_line(text: &[u8]) -> bool {
    let line_feeds = text.iter().filter(|byte| **byte == b'\n').count();
    line_feeds == 1 && text.last() == Some(&b'\n')
}

#[test]
fn a_read_that_fails_runs_nothing(rt: HostRuntime) {
    let alloc = rt.alloc();
    for text in ["", "foo\n", OVER_LIMIT].iter() {
        let mut out = Vec::new(alloc);
        let mut err = Vec::new(alloc);
        let mut script = Torn {
            bytes: text.as_bytes(),
        };
        let status = schedule(alloc, &mut script, &mut out, &mut err);
        let Torn { bytes: _ } = script;
        assert_eq!(rt;
            (status, out.len(), str::from_utf8(&err)),
            (1, 0, Ok("the script can't be read: broken pipe\n")),
            "after {text}"
        );
    }
}

#[test]
fn a_script_may_come_in_pieces(rt: HostRuntime) {
    let alloc = rt.alloc();
    let mut out = Vec::new(alloc);
    let mut err = Vec::new(alloc);
    let mut script = Trickle {
        bytes: OVER_LIMIT.as_bytes(),
    };
    let status = schedule(alloc, &mut script, &mut out, &mut err);
    let Trickle { bytes: _ } = script;
    assert_eq!(rt;
        (status, str::from_utf8(&out), err.len()),
        (0, Ok(PRINTED), 0)
    );
}

const TOO_LONG: &str = "the script has more than 64 MiB\n";

const LENGTHS: &[(u64, &str)] = &[
    (SCRIPT_BYTES, "line 1: unknown word\n"),
    (SCRIPT_BYTES + 1, TOO_LONG),
    (u64::MAX, TOO_LONG),
];

// The fault of the first line is found before the rest is read as a script, so that this is fast.
#[test]
fn a_script_has_at_most_64_mebibytes(rt: HostRuntime) {
    let alloc = rt.alloc();
    for (bytes, line) in LENGTHS {
        let mut out = Vec::new(alloc);
        let mut err = Vec::new(alloc);
        let endless = "foo\n".as_bytes().chain(io::repeat(b'#'));
        let mut script = endless.take(*bytes);
        let status = schedule(alloc, &mut script, &mut out, &mut err);
        assert_eq!(rt;
            (status, out.len(), str::from_utf8(&err)),
            (1, 0, Ok(*line)),
            "{bytes} bytes"
        );
    }
}

#[test]
fn a_write_that_fails_ends_with_status_1(rt: HostRuntime) {
    let alloc = rt.alloc();
    for room in 0..=PRINTED.len() {
        let mut out = Full { room };
        let mut err = Vec::new(alloc);
        let mut script = OVER_LIMIT.as_bytes();
        let fits = room == PRINTED.len();
        let status = schedule(alloc, &mut script, &mut out, &mut err);
        let Full { room: _ } = out;
        let wanted = if fits { (0, false) } else { (1, true) };
        assert_eq!(rt; (status, is_one_line(&err)), wanted, "room for {room}");
    }
}

// Like a pipe whose reader has ended.
struct Closed;

impl Write for Closed {
    fn write(&mut self, _buf: &[u8]) -> io::Result<usize> {
        Err(Error::from(ErrorKind::BrokenPipe))
    }

    fn flush(&mut self) -> io::Result<()> {
        Ok(())
    }
}

#[test]
fn nothing_is_said_where_nobody_reads_any_more(rt: HostRuntime) {
    let alloc = rt.alloc();
    let mut out = Closed;
    let mut err = Vec::new(alloc);
    let mut script = OVER_LIMIT.as_bytes();
    let status = schedule(alloc, &mut script, &mut out, &mut err);
    let Closed = out;
    assert_eq!(rt; (status, err.len()), (1, 0));
}

#[test]
fn a_flush_that_fails_ends_with_status_1(rt: HostRuntime) {
    let alloc = rt.alloc();
    let mut out = Stuck;
    let mut err = Vec::new(alloc);
    let mut script = OVER_LIMIT.as_bytes();
    let status = schedule(alloc, &mut script, &mut out, &mut err);
    let Stuck = out;
    assert_eq!(rt; (status, is_one_line(&err)), (1, true));
}

#[test]
fn the_status_holds_where_its_line_cannot_be_written(rt: HostRuntime) {
    let alloc = rt.alloc();
    let mut out = Vec::new(alloc);
    let mut err = Full { room: 3 };
    let mut script = "foo\n".as_bytes();
    let status = schedule(alloc, &mut script, &mut out, &mut err);
    let Full { room: _ } = err;
    assert_eq!(rt; (status, out.len()), (1, 0));
}

/// A check of a script whose line goes to a writer: the status, and what is said.
fn checked<O: Write>(alloc: Global, out: &mut O) -> (u8, Vec<u8>) {
    let mut err = Vec::new(alloc);
    let mut script = "group /a\n".as_bytes();
    let options = Options::default();
    let status = read_and_check(alloc, options, "script", &mut script, out, &mut err);
    (status, err)
}

// A check has one line to write. If no reader takes it, nothing is reported.
#[test]
fn a_check_whose_line_cannot_be_written_ends_with_status_1(rt: HostRuntime) {
    let line = "script: ok, 0 answers\n";
    for room in 0..=line.len() {
        let mut out = Full { room };
        let fits = room == line.len();
        let (status, err) = checked(rt.alloc(), &mut out);
        let Full { room: _ } = out;
        let is_told = err.starts_with(b"script: the answers can't be written: ");
        assert_eq!(rt;
            (status, is_one_line(&err), is_told),
            if fits {
                (0, false, false)
            } else {
                (1, true, true)
            },
            "room for {room}"
        );
    }
    let mut out = Closed;
    let (status, err) = checked(rt.alloc(), &mut out);
    let Closed = out;
    assert_eq!(rt; (status, err.len()), (1, 0));
}
