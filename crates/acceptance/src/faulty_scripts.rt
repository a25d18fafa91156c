//! Scripts that are not run because of their first line with a fault: those with bytes that no line of a file of cases
//! has.

use crate::case::{faults, faults_in_bytes, prints};
use std::alloc::{AllocError, Global};
use std::process::Abort;
use std::test::Fail;

#[test]
fn lines_are_counted_however_they_end_and_other_characters_are_of_their_word(rt: HostRuntime) {
    faults(
        &rt,
        "skipped lines are counted",
        "# a comment\n\n \t\n\r\nfoo\n",
        "line 5: unknown word\n",
    );
    faults(
        &rt,
        "the last line too, without a line feed",
        "group /a\nfoo",
        "line 2: unknown word\n",
    );
    faults(
        &rt,
        "a header twice, with the same size",
        "frames 64\r\nframes 64\r\n",
        "line 2: header twice\n",
    );
    let word = "line 1: unknown word\n";
    let number = "line 1: bad number\n";
    let name = "line 1: bad name\n";
    faults(&rt, "a byte order mark", "\u{feff}group /a", word);
    faults(&rt, "a carriage return alone", "\r", word);
    faults(
        &rt,
        "two carriage returns before the line feed",
        "\r\r\n",
        word,
    );
    faults(
        &rt,
        "a vertical tab sets no words apart",
        "group\u{b}/a",
        word,
    );
    faults(
        &rt,
        "two carriage returns behind a number",
        "frames 4\r\r\n",
        number,
    );
    faults(
        &rt,
        "a carriage return without a line feed, behind a number",
        "frames 4\r",
        number,
    );
    faults(
        &rt,
        "a carriage return without a line feed, behind a name",
        "group /a\r",
        name,
    );
}

#[test]
fn not_text(rt: HostRuntime) {
    let first = "line 1: not text\n";
    faults_in_bytes(
        &rt,
        "a byte that no character has",
        b"group /a\n\xff\n",
        "line 2: not text\n",
    );
    faults_in_bytes(&rt, "in a comment", b"# \xc3\x28\n", first);
    faults_in_bytes(
        &rt,
        "a character that is cut off by the line's end",
        b"# \xe4\xb8\n\xad\n",
        first,
    );
    faults_in_bytes(&rt, "before the unknown word", b"foo \xff\n", first);
    faults_in_bytes(
        &rt,
        "in a word",
        b"\n\nfoo\xff frames\n",
        "line 3: not text\n",
    );
    faults_in_bytes(&rt, "a character of two lines", b"\xc3\n\xa9", first);
    faults_in_bytes(
        &rt,
        "not for a later line, where an earlier one has an unknown word",
        b"foo\n\xff\n",
        "line 1: unknown word\n",
    );
    faults_in_bytes(
        &rt,
        "nor where it has a bad name",
        b"group a\n\xff",
        "line 1: bad name\n",
    );
    faults_in_bytes(
        &rt,
        "nor are watermarks compared with frames behind such a line",
        b"watermarks 64 65\nswap \xff\nframes 65\n",
        "line 1: bad number\n",
    );
}

// The fault for which the script of this byte alone is refused. A line feed, a space and a tab make no word, and a `#`
// begins a comment.
fn fault_of_byte(byte: u8) -> Option<&'static str> {
    match byte {
        b'\n' | b' ' | b'\t' | b'#' => None,
        b'0'..=b'9' => Some("line 1: missing argument\n"),
        0x80..=0xff => Some("line 1: not text\n"),
        _ => Some("line 1: unknown word\n"),
    }
}

fn runs_byte<R: Abort + AllocGlobal>(rt: &R, byte: u8) -> Result<(), AllocError> {
    let name = format!(in rt.alloc(); "the byte {byte}")?;
    match fault_of_byte(byte) {
        Some(line) => faults_in_bytes(rt, &name, &[byte], line),
        None => prints(rt, &name, std::str::from_utf8(&[byte]).unwrap_or("foo"), ""),
    }
    Ok(())
}

#[test]
fn each_byte_alone_is_a_script(rt: HostRuntime) -> Result<(), Fail> {
    for byte in 0..=255u8 {
        runs_byte(&rt, byte)?;
    }
    Ok(())
}

// Lines of each kind, and the fault of the script of them all if this one is not text.
const LINES: [(&str, &str); 6] = [
    ("frames 4", "line 1: not text\n"),
    ("group /a", "line 2: not text\n"),
    ("task 1 /a", "line 3: not text\n"),
    ("# a comment", "line 4: not text\n"),
    ("1 write 0 0 7", "line 5: not text\n"),
    ("1 read 0 0", "line 6: not text\n"),
];

fn put_byte(bytes: &mut [u8], at: usize, byte: u8) {
    if let Some(place) = bytes.get_mut(at) {
        *place = byte;
    }
}

// The script of the lines, with another byte at this place of this line.
fn with_byte(alloc: Global, changed: &str, at: usize, byte: u8) -> Result<Vec<u8>, AllocError> {
    let mut script = Vec::new(alloc);
    for (line, _) in LINES.iter() {
        let mut bytes = line.as_bytes().to_vec(alloc)?;
        if *line == changed {
            put_byte(&mut bytes, at, byte);
        }
        script.extend_from_slice(&bytes)?;
        script.push(b'\n')?;
    }
    Ok(script)
}

// A byte that only continues a character, one that only begins one, and one that no character has.
fn replaces_each_byte<R: Abort + AllocGlobal>(
    rt: &R,
    line: &str,
    fault: &str,
) -> Result<(), AllocError> {
    for byte in [0x80, 0xc3, 0xff] {
        for at in 0..line.len() {
            let name = format!(in rt.alloc(); "the byte {byte} at {at} of `{line}`")?;
            let script = with_byte(rt.alloc(), line, at, byte)?;
            faults_in_bytes(rt, &name, &script, fault);
        }
    }
    Ok(())
}

#[test]
fn each_byte_of_a_line_is_of_its_text(rt: HostRuntime) -> Result<(), Fail> {
    for (line, fault) in LINES.iter() {
        replaces_each_byte(&rt, line, fault)?;
    }
    Ok(())
}
