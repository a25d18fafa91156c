//! Runs a script as `memcgrun` does, over a device in memory that sleeps before each call. `bench/live` measures
//! its time.
//!
//! `slow_device schedule MICROSECONDS FILE` and `slow_device run MICROSECONDS FILE`.
#![tactic(auto)]

ghost use Rattle.std.specs.Prelude.{◌≡◌, ◌≤◌, ℕ, true};
ghost use Rattle.std.specs.List.Sorted.{IsStrictlyIncreasing};
ghost use Rattle.machine.specs.State.{is_config};
ghost use Rattle.scripts.specs.Work.{numbers_of, shown_rows};

mod slow;

use block_store::{Locked, MemDevice};
use driver::{Steps, run_into};
use files::blocks_for;
use live::Unnamed;
use scripts::{Mode, Script, each_actor_has_its_row, read};
use slow::Slow;
use std::alloc::Global;
use std::fs::File;
use std::io::{ErrorKind, Write};
use std::marker::Brand;
use std::process::ExitCode;
use std::rt::{Env, Files};
use std::sync::Wait;
use std::thread::Threads;
use std::time::{Clock, Duration};
use std::{env, io};
use subcommands::{Fault, read_script, status_of};
use thread_runs::{Verdict, run_over, status_of_run};

fn out_of_memory() -> Fault {
    Fault::Unreadable(ErrorKind::OutOfMemory.into())
}

/// Runs a script one turn after another.
fn schedule<C: Clock, O: Write>(
    clock: &C,
    alloc: Global,
    call: Duration,
    script: &[u8],
    out: &mut O,
) -> Result<(), Fault> {
    let script = match read(alloc, script, Mode::Schedule) {
        Ok(script) => script,
        Err(fault) => return Err(Fault::Script(fault)),
    };
    let Script {
        config,
        schedule,
        ..
    } = script;
    let Some(blocks) = blocks_for(&config) else {
        return Err(out_of_memory());
    };
    let mut device = match MemDevice::new(alloc, blocks, &[], &[]) {
        Ok(device) => Slow::new(clock, call, device),
        Err(_) => return Err(out_of_memory()),
    };
    let mut answers = Vec::new(alloc);
    let steps = Steps::Lines(&schedule);
    match run_into(alloc, config, &mut device, steps, &mut answers) {
        Ok(_) => {
            let mut text = String::new(alloc);
            for answer in &answers {
                if answer.print(&mut text).is_err() {
                    return Err(out_of_memory());
                }
            }
            match out.write_all(text.as_bytes()) {
                Ok(()) => Ok(()),
                Err(error) => Err(Fault::Unwritable(error)),
            }
        }
        Err(_) => Err(out_of_memory()),
    }
}

/// Runs a script on threads.
fn run_new<R: Clock + Threads + Wait + Sync, O: Write>(
    rt: &R,
    alloc: Global,
    call: Duration,
    script: Script,
    out: &mut O,
) -> Result<Verdict, Fault>
    requires rows { IsStrictlyIncreasing (numbers_of (shown_rows script.work.items)) }
{
    let Some(blocks) = blocks_for(&script.config) else {
        return Err(out_of_memory());
    };
    let device = match MemDevice::new(alloc, blocks, &[], &[]) {
        Ok(device) => Locked::new(device),
        Err(_) => return Err(out_of_memory()),
    };
    let device = Slow::new(rt, call, device);
    let Ok(unnamed) = Unnamed::new(alloc) else {
        return Err(out_of_memory());
    };
    run_over::<Brand, Slow<'_, R, Locked<MemDevice>>, R, O>(rt, alloc, script, device, unnamed, out)
}

fn run<R: Clock + Threads + Wait + Sync, O: Write>(
    rt: &R,
    alloc: Global,
    call: Duration,
    script: &[u8],
    out: &mut O,
) -> Result<Verdict, Fault> {
    each_actor_has_its_row();
    match read(alloc, script, Mode::Run) {
        Ok(script) => run_new(rt, alloc, call, script, out),
        Err(fault) => Err(Fault::Script(fault)),
    }
}

/// Does what the arguments ask for.
fn serve<R: Clock + Env + Files + Threads + Wait + Sync + AllocGlobal, O: Write, E: Write>(
    rt: &R,
    out: &mut O,
    err: &mut E,
) -> io::Result<u8> {
    let alloc = rt.alloc();
    let words: Vec<String> = env::args(rt)?.collect(alloc)?;
    let [_program, subcommand, call, file] = words.as_slice() else {
        return Err(ErrorKind::InvalidInput.into());
    };
    let Ok(call) = call.parse::<u64>() else {
        return Err(ErrorKind::InvalidInput.into());
    };
    let call = Duration::from_micros(call);
    let script = match read_script(alloc, &mut File::open(rt, file)?) {
        Ok(script) => script,
        Err(fault) => return Ok(status_of(Err(fault), err)),
    };
    match subcommand.as_str() {
        "schedule" => {
            let ran = schedule(rt, alloc, call, &script, out);
            Ok(status_of(ran, err))
        }
        "run" => {
            let ran = run(rt, alloc, call, &script, out);
            Ok(status_of_run(ran, err))
        }
        _ => Err(ErrorKind::InvalidInput.into()),
    }
}

fn main(rt: HostRuntime) -> ExitCode {
    match serve(&rt, &mut rt.stdout(), &mut rt.stderr()) {
        Ok(status) => ExitCode::from(status),
        Err(error) => {
            // The status reports the failure even if its line can't be written.
            let _ = writeln!(rt.stderr(), "slow_device: {error}");
            ExitCode::FAILURE
        }
    }
}
