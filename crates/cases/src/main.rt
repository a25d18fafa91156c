//! Runs the cases of the files that its words name, and explores the races that they name. It prints each case and race
//! whose result is not what its files say. Of a file it prints the number of cases, and of a race those of its outcomes.
#![tactic(auto)]

mod case;
mod race;

use case::read_cases;
use race::explore_race;
use std::fs::File;
use std::io::{Read, Write};
use std::process::ExitCode;
use std::rt::{Env, Files};
use std::sync::Wait;
use std::thread::Threads;
use std::{env, io};

/// Runs the cases of a file. The result is their number.
fn run_file<R: Files + Threads + Wait + Sync + AllocGlobal, W: Write>(
    rt: &R,
    name: &str,
    out: &mut W,
) -> io::Result<usize> {
    let mut text = String::new(rt.alloc());
    File::open(rt, name)?.read_to_string(&mut text)?;
    let cases = read_cases(rt.alloc(), &text)?;
    for case in &cases {
        case.run(rt, rt.alloc(), name, out)?;
    }
    Ok(cases.len())
}

/// Runs the cases of all files, whose names end with `.cases`, and explores all races.
fn run_all<R: Env + Files + Threads + Wait + Sync + AllocGlobal, W: Write>(
    rt: &R,
    out: &mut W,
) -> io::Result<()> {
    let words: Vec<String> = env::args(rt)?.collect(rt.alloc())?;
    for name in words.iter().skip(1) {
        if name.ends_with(".cases") {
            let cases = run_file(rt, name, out)?;
            writeln!(out, "{name}: {cases}")?;
        } else {
            explore_race(rt, name, out)?;
        }
    }
    Ok(())
}

fn main(rt: HostRuntime) -> ExitCode {
    let Err(fault) = run_all(&rt, &mut rt.stdout()) else {
        return ExitCode::SUCCESS;
    };
    // The status reports the failure even if its line can't be written.
    let _ = writeln!(rt.stderr(), "{fault}");
    ExitCode::FAILURE
}
