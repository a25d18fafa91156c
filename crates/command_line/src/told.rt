//! The lines of standard error about the words of the command line. Each line names the word, in quotes and with its
//! control characters written out.

use scenario_reports::values::{MOST_VALUES, ValuesFault};
use std::alloc::{AllocError, Global};
use std::env::FillError;
use std::io::{ErrorKind, Write};
use std::rt::Env;
use std::{io, str};

/// At most this many bytes of a word that is not UTF-8 are shown.
const WORD_BYTES: usize = 4096;

/// The name of a file as the lines about its script begin with it: as it is, or in quotes if it has control characters.
pub fn plain_name(alloc: Global, name: &str) -> Result<String, AllocError> {
    if name.chars().any(|found| found.is_control()) {
        return format!(in alloc; "{name:?}");
    }
    String::from_str(alloc, name)
}

/// Reports that the program got no memory before a script was run.
pub fn tell_no_memory<E: Write>(err: &mut E) {
    // The status reports the failure even if its line can't be written.
    let _ = writeln!(err, "memcgrun: out of memory");
}

/// Reports a text that is no setting.
pub fn tell_no_setting<E: Write>(err: &mut E, text: &str) {
    let _ = writeln!(err, "memcgrun: --set {text:?}: expected NAME=WORD");
}

/// Reports a text of `--vary` that gives no values.
pub fn tell_no_values<E: Write>(err: &mut E, text: &str, fault: ValuesFault<'_>) {
    // The status reports the failure even if its line can't be written.
    let _ = match fault {
        ValuesFault::Memory => writeln!(err, "memcgrun: out of memory"),
        ValuesFault::Form => writeln!(
            err,
            "memcgrun: --vary {text:?}: expected NAME=FROM..TO/STEP or NAME=A,B,C"
        ),
        ValuesFault::Word(word) => {
            writeln!(err, "memcgrun: --vary {text:?}: {word:?} is not a word")
        }
        ValuesFault::Amount(word) => writeln!(
            err,
            "memcgrun: --vary {text:?}: {word:?} is neither a size, as 1.5G or 7p, nor a whole number"
        ),
        ValuesFault::Units => writeln!(
            err,
            "memcgrun: --vary {text:?}: give FROM, TO and STEP all in pages, or none"
        ),
        ValuesFault::Order => writeln!(err, "memcgrun: --vary {text:?}: FROM is above TO"),
        ValuesFault::NoStep => writeln!(err, "memcgrun: --vary {text:?}: STEP is 0"),
        ValuesFault::TooMany => writeln!(
            err,
            "memcgrun: --vary {text:?}: more than {MOST_VALUES} values; take a larger STEP"
        ),
    };
}

/// Reports a name that has a word of its own and values too.
pub fn tell_set_and_varied<E: Write>(err: &mut E, name: &str) {
    let _ = writeln!(err, "memcgrun: {name:?} has both --set and --vary");
}

/// Reports that the file of a script has a scenario.
pub fn tell_scenario<E: Write>(err: &mut E, name: &str) {
    // The status reports the failure even if its line can't be written.
    let _ = writeln!(
        err,
        "memcgrun: {name:?} looks like a scenario: use \"memcgrun simulate\""
    );
}

/// Reports a file that gives no script.
pub fn tell_no_script<E: Write>(err: &mut E, name: &str, error: &io::Error) {
    // The status reports the failure even if its line can't be written.
    let _ = match error.kind() {
        ErrorKind::NotFound if name.is_empty() => {
            writeln!(err, "memcgrun: the file name is empty")
        }
        ErrorKind::NotFound => writeln!(err, "memcgrun: there is no file {name:?}"),
        ErrorKind::IsADirectory => writeln!(err, "memcgrun: {name:?} is a directory"),
        _ => writeln!(err, "memcgrun: cannot open {name:?}: {error}"),
    };
}

/// The first word of the command line that is not UTF-8, if there is one that is not longer than the buffer. The result
/// is its place, without counting the program's own name, and how many of the buffer's bytes it has.
fn first_no_text<R: Env>(rt: &R, buffer: &mut [u8]) -> Option<(usize, usize)> {
    for at in 0..usize::MAX {
        match rt.arg(at, buffer) {
            Ok(length) => {
                let word = buffer.get(..length)?;
                if str::from_utf8(word).is_err() {
                    return Some((at, length));
                }
            }
            Err(FillError::TooLong) => {}
            Err(FillError::NotPresent) => return None,
        }
    }
    None
}

/// Reports a word of the command line that is not UTF-8.
pub fn tell_no_text<R: Env, E: Write>(rt: &R, err: &mut E) {
    let mut buffer = [0; WORD_BYTES];
    let found = first_no_text(rt, &mut buffer);
    let _ = match found.and_then(|(at, length)| Some((at, buffer.get(..length)?))) {
        Some((at, word)) => writeln!(
            err,
            "memcgrun: argument {at}, \"{}\", is not UTF-8",
            word.escape_ascii()
        ),
        None => writeln!(err, "memcgrun: an argument is not UTF-8"),
    };
}
