//! What `memcgrun check` does.

ghost use Rattle.std.specs.Prelude.{◌≤◌};

use crate::{FAILED, STANDARD_INPUT, is_scenario, open, shown_name};
use simulation::{Prints, simulate};
use std::alloc::Global;
use std::io::{Read, Write};
use std::rt::Files;
use std::thread;
use std::thread::{Threads, available_parallelism};
use subcommands::{Fault, Options, read_and_check, read_script};

/// How many files are checked at a time if the number of processors is unknown.
const SOME_PROCESSORS: usize = 4;

/// The text of a file, or the line that says why it can't be read.
#[derive(Drop)]
struct Text<'f> {
    file: &'f str,
    bytes: Option<Vec<u8>>,
    err: Vec<u8>,
}

/// What the check of a file wrote, and its status.
#[derive(Drop)]
struct Checked {
    out: Vec<u8>,
    err: Vec<u8>,
    status: u8,
}

/// Checks the script or scenario of a file, or of standard input if the file is `-`.
fn check_one<R: Files + AllocGlobal, I: Read, O: Write, E: Write>(
    rt: &R,
    options: Options,
    file: &str,
    input: &mut I,
    out: &mut O,
    err: &mut E,
) -> u8
    ensures success_or_failure { result ≤ 1 }
{
    let alloc = rt.alloc();
    if file == STANDARD_INPUT {
        return check_text(alloc, options, shown_name(file), input, out, err);
    }
    match open(rt, file, err) {
        Some(mut text) => check_text(alloc, options, file, &mut text, out, err),
        None => FAILED,
    }
}

/// All bytes of a text. If it can't be read, a line says why.
fn read_text<I: Read, E: Write>(
    alloc: Global,
    name: &str,
    text: &mut I,
    err: &mut E,
) -> Option<Vec<u8>> {
    match read_script(alloc, text) {
        Ok(bytes) => Some(bytes),
        Err(fault) => {
            tell_fault(name, &fault, err);
            None
        }
    }
}

/// Checks a text, which is a script or a scenario.
fn check_text<I: Read, O: Write, E: Write>(
    alloc: Global,
    options: Options,
    name: &str,
    text: &mut I,
    out: &mut O,
    err: &mut E,
) -> u8
    ensures success_or_failure { result ≤ 1 }
{
    match read_text(alloc, name, text, err) {
        Some(bytes) => check_bytes(alloc, options, name, &bytes, out, err),
        None => FAILED,
    }
}

/// Checks the bytes of a text.
fn check_bytes<O: Write, E: Write>(
    alloc: Global,
    options: Options,
    name: &str,
    bytes: &[u8],
    out: &mut O,
    err: &mut E,
) -> u8
    ensures success_or_failure { result ≤ 1 }
{
    if is_scenario(bytes) {
        return check_scenario(alloc, name, bytes, out, err);
    }
    let mut script = bytes;
    read_and_check(alloc, options, name, &mut script, out, err)
}

/// Checks a scenario: it is run, and what is not as expected is printed.
fn check_scenario<O: Write, E: Write>(
    alloc: Global,
    name: &str,
    bytes: &[u8],
    out: &mut O,
    err: &mut E,
) -> u8
    ensures success_or_failure { result ≤ 1 }
{
    let asked = simulation::Asked {
        name,
        settings: &[],
        go_on: false,
        prints: Prints::Unmet,
        every: 1,
        groups: &[],
        depth: None,
    };
    simulate(alloc, &asked, bytes, out, err)
}

/// The text of a file.
fn text_of<'f, R: Files + AllocGlobal>(rt: &R, file: &'f str) -> Text<'f> {
    let alloc = rt.alloc();
    let mut err = Vec::new(alloc);
    let bytes = match open(rt, file, &mut err) {
        Some(mut text) => read_text(alloc, file, &mut text, &mut err),
        None => None,
    };
    Text { file, bytes, err }
}

/// Checks a text, and keeps what that writes.
fn check_apart(alloc: Global, options: Options, text: &Text<'_>) -> Checked {
    let mut out = Vec::new(alloc);
    let mut err = Vec::new(alloc);
    let status = match &text.bytes {
        Some(bytes) => check_bytes(alloc, options, text.file, bytes, &mut out, &mut err),
        None => FAILED,
    };
    Checked { out, err, status }
}

/// Writes why a file was not checked, or why what its check wrote could not be written.
fn tell_fault<E: Write>(name: &str, fault: &Fault, err: &mut E) {
    if !fault.is_silent() {
        // The status reports the failure even if its line can't be written.
        let _ = write!(err, "{name}: ");
        let _ = fault.report(err);
    }
}

/// Writes what the check of a file wrote. The result says whether the check succeeded, and all of that was written.
fn hand_on<O: Write, E: Write>(
    text: &Text<'_>,
    checked: &Checked,
    out: &mut O,
    err: &mut E,
) -> bool {
    if let Err(error) = out.write_all(&checked.out) {
        tell_fault(text.file, &Fault::Unwritable(error), err);
        return false;
    }
    if err.write_all(&text.err).is_err() || err.write_all(&checked.err).is_err() {
        return false;
    }
    checked.status == 0
}

/// Checks files one after another. The result says whether each check succeeded.
fn check_in_turn<R: Files + AllocGlobal, I: Read, O: Write, E: Write>(
    rt: &R,
    options: Options,
    files: &[&str],
    input: &mut I,
    out: &mut O,
    err: &mut E,
) -> bool {
    let mut all_met = true;
    for file in files {
        let status = check_one(rt, options, file, input, out, err);
        all_met = all_met && status == 0;
    }
    all_met
}

/// Reads files and checks them at the same time, each in a thread of its own. Writes what the checks wrote in the order of
/// the files. The result says whether each check succeeded. It is `None` if memory for that ran out, and then nothing is
/// written.
fn check_together<R: Files + AllocGlobal + Threads + Sync, O: Write, E: Write>(
    rt: &R,
    options: Options,
    files: &[&str],
    out: &mut O,
    err: &mut E,
) -> Option<bool> {
    let alloc = rt.alloc();
    let mut texts = Vec::new(alloc);
    for file in files {
        texts.push(text_of(rt, *file)).ok()?;
    }
    let texts = texts.as_slice();
    let check = |at: usize| check_apart(alloc, options, &texts[at]);
    let checks = thread::map_indices(rt, alloc, texts.len(), &check).ok()?;
    let mut all_met = true;
    for (text, checked) in texts.iter().zip(checks.iter()) {
        let met = hand_on(text, checked, out, err);
        all_met = all_met && met;
    }
    Some(all_met)
}

/// Checks the scripts and scenarios of these files, whatever the results of the others. Each processor checks one at a time.
/// What is written comes in the order of the files.
pub fn check_all<R: Files + AllocGlobal + Threads + Sync, I: Read, O: Write, E: Write>(
    rt: &R,
    options: Options,
    files: &[&str],
    input: &mut I,
    out: &mut O,
    err: &mut E,
) -> u8
    ensures success_or_failure { result ≤ 1 }
{
    let at_a_time = match available_parallelism(rt) {
        Ok(count) => count.get(),
        Err(_) => SOME_PROCESSORS,
    };
    let mut all_met = true;
    for some in files.chunks(at_a_time) {
        // There is one standard input.
        let reads_input = some.iter().any(|file| *file == STANDARD_INPUT);
        let met = if reads_input || some.len() == 1 {
            None
        } else {
            check_together(rt, options, some, out, err)
        };
        let met = match met {
            Some(met) => met,
            None => check_in_turn(rt, options, some, input, out, err),
        };
        all_met = all_met && met;
    }
    if all_met { 0 } else { FAILED }
}
