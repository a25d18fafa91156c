//! Runs the scenarios of the files that its words name. It prints each one whose result is not what its file says, and
//! the number of scenarios.
#![tactic(auto)]

mod scene;

use scene::read_scenes;
use std::fs::File;
use std::io::{Read, Write};
use std::process::ExitCode;
use std::rt::{Env, Files};
use std::thread::Threads;
use std::{env, io};

/// Runs the scenarios of a file. The result is their number.
fn run_file<R: Files + AllocGlobal + Threads + Sync, W: Write>(
    rt: &R,
    name: &str,
    out: &mut W,
) -> io::Result<usize> {
    let mut text = String::new(rt.alloc());
    File::open(rt, name)?.read_to_string(&mut text)?;
    let scenes = read_scenes(rt.alloc(), &text)?;
    for scene in &scenes {
        scene.run(rt, rt.alloc(), name, out)?;
    }
    Ok(scenes.len())
}

/// Runs the scenarios of all files, and prints the number of each file.
fn run_all<R: Env + Files + AllocGlobal + Threads + Sync, W: Write>(
    rt: &R,
    out: &mut W,
) -> io::Result<()> {
    let words: Vec<String> = env::args(rt)?.collect(rt.alloc())?;
    for name in words.iter().skip(1) {
        let scenes = run_file(rt, name, out)?;
        writeln!(out, "{name}: {scenes}")?;
    }
    Ok(())
}

fn main(rt: HostRuntime) -> ExitCode {
    let Err(fault) = run_all(&rt, &mut rt.stdout()) else {
        return ExitCode::SUCCESS;
    };
    // The status reports the failure even if its line can't be written.
    let _ = writeln!(rt.stderr(), "{fault}");
    ExitCode::FAILURE
}
