//! The words of the language that are allowed at a place.

use crate::near::near_word;
use scenario_words::paths::is_path;
use scenario_words::word::{Filled, is_at, is_language};
use std::alloc::{AllocError, Global};

/// What may be written at a place.
#[derive(Clone, Copy)]
struct Expected {
    /// All of it, as it is said.
    all: &'static str,
    /// The words of the language among it.
    words: &'static [&'static str],
}

fn one(all: &'static str, words: &'static [&'static str]) -> Option<Expected> {
    Some(Expected { all, words })
}

/// What may follow `expect`.
fn of_expect(words: &[Filled], place: usize) -> Option<Expected> {
    if place == 1 {
        return one(
            "a path, in, out, dropped, killed, alive, nobody or refused",
            &[
                "in", "out", "dropped", "killed", "alive", "nobody", "refused",
            ],
        );
    }
    if is_at(words, 1, "nobody") {
        return one("\"killed\" here", &["killed"]);
    }
    one(
        "current, anon, file or events.low, .max, .oom, .oom_kill, .oom_group_kill",
        &[
            "current",
            "anon",
            "file",
            "events.low",
            "events.max",
            "events.oom",
            "events.oom_kill",
            "events.oom_group_kill",
        ],
    )
}

/// A key, or the value of `oom.group`.
fn of_key(place: usize) -> Option<Expected> {
    if place % 2 == 0 {
        one(
            "max, min, low or oom.group",
            &["max", "min", "low", "oom.group"],
        )
    } else {
        one("0 or 1", &[])
    }
}

/// What may follow a word of the shell's or of the header.
fn of_command(words: &[Filled], first: &str, place: usize) -> Option<Expected> {
    match first {
        "group" | "set" => of_key(place),
        "task" => one("\"in\" here, as in: task NAME in /GROUP", &["in"]),
        "expect" => of_expect(words, place),
        "fault" => one("read or write", &["read", "write"]),
        "protection" => one("recursive or plain", &["recursive", "plain"]),
        "placement" => one("linux or plain", &["linux", "plain"]),
        _ => None,
    }
}

fn is_path_at(words: &[Filled], place: usize) -> bool {
    match words.get(place) {
        None => false,
        Some(word) => is_path(word),
    }
}

/// What may follow `until` or `random`, if the place is right after it or one word later.
fn of_until(words: &[Filled], place: usize) -> Option<Expected> {
    let before = place.saturating_sub(1);
    let second = place.saturating_sub(2);
    if is_at(words, before, "until") {
        return one("killed or a path", &["killed"]);
    }
    if is_at(words, second, "until") && is_path_at(words, before) {
        return one("\"current\" here", &["current"]);
    }
    if is_at(words, second, "random") {
        return one("\"seed\" here", &["seed"]);
    }
    None
}

/// What may be written at this place.
fn expected_at(words: &[Filled], place: usize) -> Option<Expected> {
    if place >= 2 {
        if let Some(expected) = of_until(words, place) {
            return Some(expected);
        }
    }
    let first = words.first()?;
    if !first.is_quoted() && is_language(first.text()) {
        return of_command(words, first.text(), place);
    }
    one(
        "write, read, free, fork, exit, fread or fwrite",
        &["write", "read", "free", "fork", "exit", "fread", "fwrite"],
    )
}

/// Adds what may be written instead of a word, and which of it is perhaps meant.
pub fn add_expected(
    alloc: Global,
    text: &mut String,
    words: &[Filled],
    place: usize,
    word: &Filled,
) -> Result<(), AllocError> {
    let Some(expected) = expected_at(words, place) else {
        return text.push_str("not expected here");
    };
    let Expected { all, words: known } = expected;
    write!(text, "expected {all}")?;
    if known.len() < 2 {
        return Ok(());
    }
    if known.iter().any(|other| *other == word.text()) {
        return write!(text, "; write {} without quotes", word.text());
    }
    match near_word(alloc, word.text(), known)? {
        None => Ok(()),
        Some(near) => write!(text, "; did you mean {near}?"),
    }
}
