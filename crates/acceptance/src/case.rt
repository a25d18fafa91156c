//! A case: a script, and what the program must write for it.

use std::alloc::{AllocError, Global};
use std::process::Abort;
use subcommands::{Options, run_script, status_of};

// The script's run ends with this status, and writes this and no more.
fn ends<R: Abort + AllocGlobal>(
    rt: &R,
    name: &str,
    options: Options,
    script: &[u8],
    out: &str,
    err: &str,
    status: u8,
) {
    let mut printed = Vec::new(rt.alloc());
    let mut said = Vec::new(rt.alloc());
    let ran = run_script(rt.alloc(), options, "case", script, &mut printed, &mut said);
    let given = status_of(ran, &mut said);
    let printed = std::str::from_utf8(&printed).unwrap_or("no text");
    let said = std::str::from_utf8(&said).unwrap_or("no text");
    assert_eq!(rt; (said, printed, given), (err, out, status), "{name}");
}

/// The script runs, and prints this.
pub fn prints<R: Abort + AllocGlobal>(rt: &R, name: &str, script: &str, out: &str) {
    ends(rt, name, Options::default(), script.as_bytes(), out, "", 0);
}

/// The script has a faulty line. Only this line is written to standard error, and nothing is run.
pub fn faults<R: Abort + AllocGlobal>(rt: &R, name: &str, script: &str, line: &str) {
    faults_in_bytes(rt, name, script.as_bytes(), line);
}

/// The same for a script that may not be text.
pub fn faults_in_bytes<R: Abort + AllocGlobal>(rt: &R, name: &str, script: &[u8], line: &str) {
    ends(rt, name, Options::default(), script, "", line, 1);
}

/// The script has a faulty line, and the caller asks for more about the fault. These lines are written to standard
/// error. They call the script's file `case`.
pub fn explains<R: Abort + AllocGlobal>(rt: &R, name: &str, script: &[u8], lines: &str) {
    let options = Options {
        explain: true,
        ..Options::default()
    };
    ends(rt, name, options, script, "", lines, 1);
}

/// The script runs and prints this, and the caller asks why lines are refused. These lines are written to standard
/// error.
pub fn explains_refusals<R: Abort + AllocGlobal>(
    rt: &R,
    name: &str,
    script: &str,
    out: &str,
    lines: &str,
) {
    let options = Options {
        explain: true,
        ..Options::default()
    };
    ends(rt, name, options, script.as_bytes(), out, lines, 0);
}

/// The pair of numbers of a text like `1-300`.
fn numbers_of(text: &str) -> Option<(u32, u32)> {
    let (first, last) = text.split_once('-')?;
    Some((first.parse().ok()?, last.parse().ok()?))
}

/// The numbers that a line is written for: those of its `{1-300}`, or else one.
fn range_of(line: &str) -> (u32, u32) {
    for part in line.split('{') {
        if let Some((name, _)) = part.split_once('}') {
            if let Some(numbers) = numbers_of(name) {
                return numbers;
            }
        }
    }
    (1, 1)
}

/// What a name in braces stands for in the line of a number.
fn add_named(text: &mut String, name: &str, number: u32) -> Result<(), AllocError> {
    if let Some((times, repeated)) = name.split_once('*') {
        for _ in 0..times.parse::<u32>().unwrap_or(0) {
            text.push_str(repeated)?;
        }
        return Ok(());
    }
    let number = if name == "n+1" {
        number.wrapping_add(1)
    } else {
        number
    };
    write!(text, "{number}")
}

fn add_line(text: &mut String, line: &str, number: u32) -> Result<(), AllocError> {
    for part in line.split('{') {
        match part.split_once('}') {
            Some((name, rest)) => {
                add_named(text, name, number)?;
                text.push_str(rest)?;
            }
            None => text.push_str(part)?,
        }
    }
    text.push('\n')
}

/// The text of many lines that a short one stands for. A line with `{1-300}` stands for 300 lines with these numbers. `{n}`
/// is the same number, and `{n+1}` the next one. Lines that are repeated together stand in one line, with `; ` between.
/// `{9*ab}` is `ab` nine times, and `9 * LINE` a line nine times.
fn expanded(alloc: Global, short: &str) -> Result<String, AllocError> {
    let mut text = String::new(alloc);
    for line in short.lines() {
        let (times, line) = line.split_once(" * ").unwrap_or(("", line));
        let (first, last) = match times.parse::<u32>() {
            Ok(times) => (1, times),
            Err(_) => range_of(line),
        };
        for number in first..=last {
            for one in line.split("; ") {
                add_line(&mut text, one, number)?;
            }
        }
    }
    Ok(text)
}

/// The script runs if a line takes at most this number of turns, and prints this. Both are written shortly.
pub fn prints_in_turns<R: Abort + AllocGlobal>(
    rt: &R,
    name: &str,
    turns: u32,
    script: &str,
    out: &str,
) {
    let options = Options {
        turns,
        ..Options::default()
    };
    let script = expanded(rt.alloc(), script).expect(rt, "no memory");
    let out = expanded(rt.alloc(), out).expect(rt, "no memory");
    ends(rt, name, options, script.as_bytes(), &out, "", 0);
}

/// The same if it takes at most as many as by default.
pub fn prints_all<R: Abort + AllocGlobal>(rt: &R, name: &str, script: &str, out: &str) {
    prints_in_turns(rt, name, Options::default().turns, script, out);
}

/// The script, which is written shortly, has a faulty line. Only this line is written to standard error.
pub fn faults_in_all<R: Abort + AllocGlobal>(rt: &R, name: &str, script: &str, line: &str) {
    let script = expanded(rt.alloc(), script).expect(rt, "no memory");
    faults(rt, name, &script, line);
}
