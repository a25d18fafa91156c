//! What is said of words of the command line that name no file, are no values, or are no text.

use command_line::{plain_name, tell_no_script, tell_no_text, tell_no_values};
use scenario_reports::values::ValuesFault;
use std::env::FillError;
use std::io::ErrorKind;
use std::rt::Env;
use std::{io, str};

const NAMES: &[(&str, ErrorKind, &str)] = &[
    (
        "",
        ErrorKind::NotFound,
        "memcgrun: the file name is empty\n",
    ),
    (
        "a b",
        ErrorKind::NotFound,
        "memcgrun: there is no file \"a b\"\n",
    ),
    (
        "a\nb",
        ErrorKind::NotFound,
        "memcgrun: there is no file \"a\\nb\"\n",
    ),
    (
        "a\u{1b}[1m",
        ErrorKind::NotFound,
        "memcgrun: there is no file \"a\\u{1b}[1m\"\n",
    ),
    (
        "a",
        ErrorKind::IsADirectory,
        "memcgrun: \"a\" is a directory\n",
    ),
    (
        "a",
        ErrorKind::PermissionDenied,
        "memcgrun: cannot open \"a\": permission denied\n",
    ),
];

#[test]
fn a_name_stands_in_quotes(rt: HostRuntime) {
    for (name, kind, line) in NAMES {
        let mut err = Vec::new(rt.alloc());
        tell_no_script(&mut err, name, &io::Error::from(*kind));
        assert_eq!(rt; str::from_utf8(&err), Ok(*line));
    }
}

const SHOWN: &[(&str, &str)] = &[
    ("a.memcg", "a.memcg"),
    ("x/a b", "x/a b"),
    ("a\nb", "\"a\\nb\""),
];

#[test]
fn a_name_stands_as_it_is_before_a_line(rt: HostRuntime) {
    for (name, shown) in SHOWN {
        let found = plain_name(rt.alloc(), name).expect(&rt, "no memory");
        assert_eq!(rt; found.as_str(), *shown);
    }
}

const VALUES: &[(ValuesFault<'static>, &str)] = &[
    (
        ValuesFault::Form,
        "memcgrun: --vary \"a=x\": expected NAME=FROM..TO/STEP or NAME=A,B,C\n",
    ),
    (
        ValuesFault::Amount("5Q"),
        "memcgrun: --vary \"a=x\": \"5Q\" is neither a size, as 1.5G or 7p, nor a whole number\n",
    ),
    (
        ValuesFault::TooMany,
        "memcgrun: --vary \"a=x\": more than 10000 values; take a larger STEP\n",
    ),
];

#[test]
fn a_text_without_values_is_told(rt: HostRuntime) {
    for (fault, line) in VALUES {
        let mut err = Vec::new(rt.alloc());
        tell_no_values(&mut err, "a=x", *fault);
        assert_eq!(rt; str::from_utf8(&err), Ok(*line));
    }
}

// A command line.
struct Line {
    words: [&'static [u8]; 3],
}

impl Env for Line {
    fn arg(&self, i: usize, buf: &mut [u8]) -> Result<usize, FillError> {
        let word = self.words.get(i).ok_or(FillError::NotPresent)?;
        let room = buf.get_mut(..word.len()).ok_or(FillError::TooLong)?;
        room.copy_from_slice(word);
        Ok(word.len())
    }

    fn var(&self, _name: &str, _buf: &mut [u8]) -> Result<usize, FillError> {
        Err(FillError::NotPresent)
    }

    fn var_at(&self, _i: usize, _buf: &mut [u8]) -> Result<usize, FillError> {
        Err(FillError::NotPresent)
    }
}

const NO_TEXT: &[([&[u8]; 3], &str)] = &[
    (
        [b"memcgrun", b"schedule", b"a\xff\n"],
        "memcgrun: argument 2, \"a\\xff\\n\", is not UTF-8\n",
    ),
    (
        [b"memcgrun", b"schedule", b"a"],
        "memcgrun: an argument is not UTF-8\n",
    ),
];

#[test]
fn a_word_that_is_no_text_is_named(rt: HostRuntime) {
    for (words, line) in NO_TEXT {
        let given = Line { words: *words };
        let mut err = Vec::new(rt.alloc());
        tell_no_text(&given, &mut err);
        assert_eq!(rt; str::from_utf8(&err), Ok(*line));
        let Line { words: _ } = given;
    }
}
