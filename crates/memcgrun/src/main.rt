//! `memcgrun schedule FILE` runs a script of memory control groups and prints its answers. `memcgrun run FILE` runs one
//! on threads. `memcgrun explore FILE` lists all its outcomes. `memcgrun chart FILE` draws what its groups are charged with. `memcgrun check FILE..` compares what
//! scripts print with what they expect.
#![tactic(auto)]

mod checking;
mod exploring;

ghost use Rattle.std.specs.Prelude.{◌≡◌, ◌≤◌};

use checking::check_all;
use command_line::{
    Asked, ChartForm, Exploration, Purpose, Refused, Request, Scenario, Subcommand, plain_name,
    read_words, tell_no_memory, tell_no_script, tell_no_setting, tell_no_text, tell_no_values,
    tell_scenario, tell_set_and_varied, text_about,
};
use exploring::explore_bytes;
use simulation::{Values, expand, is_setting, looks_like_scenario, read_values, simulate, vary};
use std::alloc::Global;
use std::fs::{File, OpenFile};
use std::io::{BufWriter, ErrorKind, IsTerminal, LineWriter, Read, Write};
use std::process::ExitCode;
use std::rt::{Env, Files};
use std::sync::Wait;
use std::thread::Threads;
use std::{env, io, str};
use subcommands::{Drawing, Options, chart, read_script, run_script, status_of};
use thread_runs::{Shows, run_script_told, status_of_run};

const FAILED: u8 = 1;

/// The file name that means standard input.
const STANDARD_INPUT: &str = "-";

const BAD_WORDS: u8 = 2;

/// The file of this name. If it does not exist, or is a directory, a line says so.
fn open<R: Files, E: Write>(rt: &R, name: &str, err: &mut E) -> Option<R::File> {
    match File::open(rt, name) {
        Ok(file) => match file.metadata() {
            Ok(data) if data.is_dir() => {
                tell_no_script(err, name, &io::Error::from(ErrorKind::IsADirectory));
                None
            }
            _ => Some(file),
        },
        Err(error) => {
            tell_no_script(err, name, &error);
            None
        }
    }
}

/// The name of a file in messages.
fn shown_name(file: &str) -> &str {
    if file == STANDARD_INPUT {
        "<stdin>"
    } else {
        file
    }
}

/// Which of the standard streams are terminals.
#[derive(Clone, Copy)]
struct Terminals {
    out: bool,
    err: bool,
}

fn drawing_of(form: ChartForm) -> Drawing {
    match form {
        ChartForm::Picture => Drawing::Picture,
        ChartForm::Table => Drawing::Table,
    }
}

/// Runs the script on threads, and shows the groups of these paths at the end. An empty path means all groups.
fn run_on_threads<R: Threads + Wait + Sync + AllocGlobal, O: Write, E: Write>(
    rt: &R,
    options: Options,
    shown: &[&str],
    name: &str,
    script: &[u8],
    out: &mut O,
    err: &mut E,
) -> u8
    ensures success_or_failure { result ≤ 1 }
{
    let shows = if shown.iter().any(|path| path.is_empty()) {
        Shows::All
    } else {
        Shows::These(shown)
    };
    let ran = run_script_told(rt, rt.alloc(), options, shows, name, script, out, err);
    status_of_run(ran, err)
}

/// Runs the script. If it is not run to its end, a line says why.
fn run<R: Threads + Wait + Sync + AllocGlobal, I: Read, O: Write, E: Write>(
    rt: &R,
    request: Request<'_>,
    shown: &[&str],
    script: &mut I,
    out: &mut O,
    err: &mut E,
) -> u8
    ensures success_or_failure { result ≤ 1 }
{
    let alloc = rt.alloc();
    let bytes = match read_script(alloc, script) {
        Ok(bytes) => bytes,
        Err(fault) => return status_of(Err(fault), err),
    };
    let name = match plain_name(alloc, shown_name(request.file)) {
        Ok(name) => name,
        Err(_) => {
            tell_no_memory(err);
            return FAILED;
        }
    };
    let status = match request.subcommand {
        Subcommand::Schedule => {
            let ran = run_script(alloc, request.options, &name, &bytes, out, err);
            status_of(ran, err)
        }
        Subcommand::Run => run_on_threads(rt, request.options, shown, &name, &bytes, out, err),
        Subcommand::Chart(form) => {
            let drawing = drawing_of(form);
            let ran = chart(alloc, request.options, drawing, &name, &bytes, out);
            status_of(ran, err)
        }
    };
    if status != 0 && is_scenario(&bytes) {
        tell_scenario(err, shown_name(request.file));
    }
    status
}

/// Runs the script of a file, or of standard input if the file is `-`.
fn serve<R: Files + AllocGlobal + Threads + Wait + Sync, I: Read, O: Write, E: Write>(
    rt: &R,
    request: Request<'_>,
    shown: &[&str],
    terminals: Terminals,
    input: &mut I,
    out: &mut O,
    err: &mut E,
) -> u8
    ensures success_or_failure { result ≤ 1 }
{
    if request.file == STANDARD_INPUT {
        return run_from(rt, request, shown, terminals, input, out, err);
    }
    match open(rt, request.file, err) {
        Some(mut script) => run_from(rt, request, shown, terminals, &mut script, out, err),
        None => FAILED,
    }
}

/// Progress is shown on a terminal in place, and elsewhere in a line each 10,000 lines. How many lines failed is said only
/// on a terminal. Answers are written in blocks, all of them before any message. On a terminal, or if progress is asked
/// for, each answer is written as it comes. Each line of a summary is written in one piece.
fn run_from<R: AllocGlobal + Threads + Wait + Sync, I: Read, O: Write, E: Write>(
    rt: &R,
    mut request: Request<'_>,
    shown: &[&str],
    terminals: Terminals,
    script: &mut I,
    out: &mut O,
    err: &mut E,
) -> u8
    ensures success_or_failure { result ≤ 1 }
{
    request.is_unbuffered = terminals.out || request.is_unbuffered || request.options.progress;
    request.options.progress_lines = request.options.progress && !terminals.err;
    request.options.progress = request.options.progress && terminals.err;
    request.options.refusals = terminals.err;
    // What a terminal shows in place ends no line.
    if !request.options.progress {
        // If there is no memory for a line, its parts are written as they come.
        if let Ok(mut lines) = LineWriter::new(rt.alloc(), &mut *err) {
            return run_into(rt, request, shown, script, out, &mut lines);
        }
    }
    run_into(rt, request, shown, script, out, err)
}

/// Runs the script, and writes its answers in blocks unless they are to be written as they come.
fn run_into<R: AllocGlobal + Threads + Wait + Sync, I: Read, O: Write, E: Write>(
    rt: &R,
    request: Request<'_>,
    shown: &[&str],
    script: &mut I,
    out: &mut O,
    err: &mut E,
) -> u8
    ensures success_or_failure { result ≤ 1 }
{
    if !request.is_unbuffered {
        // If there is no memory for a block, they are written as they come, too.
        if let Ok(mut blocks) = BufWriter::new(rt.alloc(), &mut *out) {
            return run(rt, request, shown, script, &mut blocks, err);
        }
    }
    run(rt, request, shown, script, out, err)
}

/// Explores the script of a file, or of standard input if the file is `-`.
fn serve_exploration<R: Files + AllocGlobal, I: Read, O: Write, E: Write>(
    rt: &R,
    exploration: &Exploration<'_>,
    input: &mut I,
    out: &mut O,
    err: &mut E,
) -> u8
    ensures success_or_failure { result ≤ 1 }
{
    if exploration.file == STANDARD_INPUT {
        return explore_from(rt.alloc(), exploration, input, out, err);
    }
    match open(rt, exploration.file, err) {
        Some(mut script) => explore_from(rt.alloc(), exploration, &mut script, out, err),
        None => FAILED,
    }
}

/// The same for a script that is to be read.
fn explore_from<I: Read, O: Write, E: Write>(
    alloc: Global,
    exploration: &Exploration<'_>,
    script: &mut I,
    out: &mut O,
    err: &mut E,
) -> u8
    ensures success_or_failure { result ≤ 1 }
{
    let bytes = match read_script(alloc, script) {
        Ok(bytes) => bytes,
        Err(fault) => return status_of(Err(fault), err),
    };
    let Ok(name) = plain_name(alloc, shown_name(exploration.file)) else {
        tell_no_memory(err);
        return FAILED;
    };
    let status = explore_bytes(alloc, exploration, &name, &bytes, out, err);
    if status != 0 && is_scenario(&bytes) {
        tell_scenario(err, shown_name(exploration.file));
    }
    status
}

/// Whether a text looks like a scenario.
fn is_scenario(bytes: &[u8]) -> bool {
    match str::from_utf8(bytes) {
        Ok(text) => looks_like_scenario(text),
        Err(_) => false,
    }
}

/// What is done with a scenario that is to be read.
#[derive(Clone, Copy)]
struct Job<'a> {
    scenario: &'a Scenario<'a>,
    /// The values of a name. The scenario is run once for each.
    values: Option<&'a Values<'a>>,
    terminals: Terminals,
}

impl<'a> Job<'a> {
    fn with_values(
        scenario: &'a Scenario<'a>,
        values: &'a Values<'a>,
        terminals: Terminals,
    ) -> Job<'a> {
        Job {
            scenario,
            values: Some(values),
            terminals,
        }
    }
}

/// Expands or simulates a scenario that was read.
fn work<R: AllocGlobal + Threads + Sync, O: Write, E: Write>(
    rt: &R,
    job: Job<'_>,
    text: &[u8],
    out: &mut O,
    err: &mut E,
) -> u8
    ensures success_or_failure { result ≤ 1 }
{
    let alloc = rt.alloc();
    let scenario = job.scenario;
    let Ok(name) = plain_name(alloc, shown_name(scenario.file)) else {
        tell_no_memory(err);
        return FAILED;
    };
    let settings = scenario.settings.as_slice();
    match &scenario.purpose {
        Purpose::Expand(lengths) => expand(
            alloc,
            &name,
            text,
            settings,
            lengths.as_slice(),
            out,
            err,
        ),
        Purpose::Simulate(wish) => {
            let asked = simulation::Asked {
                name: &name,
                settings,
                go_on: wish.go_on,
                prints: wish.prints,
                every: wish.every,
                groups: wish.groups.as_slice(),
                depth: wish.depth,
            };
            match job.values {
                None => simulate(alloc, &asked, text, out, err),
                Some(values) => vary(rt, alloc, &asked, values, text, out, err),
            }
        }
    }
}

/// The same for one that is to be read. What it prints is written in blocks, and on a terminal as it comes.
fn work_from<R: AllocGlobal + Threads + Sync, I: Read, O: Write, E: Write>(
    rt: &R,
    job: Job<'_>,
    input: &mut I,
    out: &mut O,
    err: &mut E,
) -> u8
    ensures success_or_failure { result ≤ 1 }
{
    let alloc = rt.alloc();
    let text = match read_script(alloc, input) {
        Ok(text) => text,
        Err(fault) => return status_of(Err(fault), err),
    };
    if !job.terminals.out {
        if let Ok(mut blocks) = BufWriter::new(alloc, &mut *out) {
            return work(rt, job, &text, &mut blocks, err);
        }
    }
    work(rt, job, &text, out, err)
}

/// The same for one of a file, or of standard input if the file is `-`.
fn work_on<R: Files + AllocGlobal + Threads + Sync, I: Read, O: Write, E: Write>(
    rt: &R,
    job: Job<'_>,
    input: &mut I,
    out: &mut O,
    err: &mut E,
) -> u8
    ensures success_or_failure { result ≤ 1 }
{
    if job.scenario.file == STANDARD_INPUT {
        return work_from(rt, job, input, out, err);
    }
    match open(rt, job.scenario.file, err) {
        Some(mut file) => work_from(rt, job, &mut file, out, err),
        None => FAILED,
    }
}

/// Whether each setting is one. Otherwise a line names the first that is not.
fn are_settings<E: Write>(settings: &[&str], err: &mut E) -> bool {
    for text in settings {
        if !is_setting(text) {
            tell_no_setting(err, text);
            return false;
        }
    }
    true
}

/// The values that a text of `--vary` gives. Otherwise a line says what is wrong.
fn values_in<'a, E: Write>(
    alloc: Global,
    text: &'a str,
    settings: &[&str],
    err: &mut E,
) -> Option<Values<'a>> {
    let values = match read_values(alloc, text) {
        Ok(values) => values,
        Err(fault) => {
            tell_no_values(err, text, fault);
            return None;
        }
    };
    for setting in settings {
        if let Some((name, _)) = setting.split_once('=') {
            if name == values.name {
                tell_set_and_varied(err, name);
                return None;
            }
        }
    }
    Some(values)
}

/// The text of `--vary`, if it is given.
fn varied<'a>(scenario: &Scenario<'a>) -> Option<&'a str> {
    match &scenario.purpose {
        Purpose::Expand(_) => None,
        Purpose::Simulate(wish) => wish.vary,
    }
}

/// Expands or simulates the scenario that is asked for, if the words of its options are right.
fn serve_scenario<R: Files + AllocGlobal + Threads + Sync, I: Read, O: Write, E: Write>(
    rt: &R,
    scenario: &Scenario<'_>,
    terminals: Terminals,
    input: &mut I,
    out: &mut O,
    err: &mut E,
) -> u8
    ensures a_known_status { result ≤ 2 }
{
    let settings = scenario.settings.as_slice();
    if !are_settings(settings, err) {
        return BAD_WORDS;
    }
    let Some(text) = varied(scenario) else {
        let job = Job {
            scenario: &*scenario,
            values: None,
            terminals,
        };
        return work_on(rt, job, input, out, err);
    };
    match values_in(rt.alloc(), text, settings, err) {
        None => BAD_WORDS,
        Some(values) => {
            let job = Job::with_values(&*scenario, &values, terminals);
            work_on(rt, job, input, out, err)
        }
    }
}

fn given_words<R: Env + AllocGlobal>(rt: &R) -> io::Result<Vec<String>> {
    Ok(env::args(rt)?.collect(rt.alloc())?)
}

/// Writes what was asked for. The status is 0, or 1 if it can't be written.
fn show<O: Write, E: Write>(out: &mut O, err: &mut E, text: &clap::Error) -> u8
    ensures success_or_failure { result ≤ 1 }
{
    let Err(error) = write!(out, "{text}") else {
        return 0;
    };
    if error.kind() != ErrorKind::BrokenPipe {
        let _ = writeln!(err, "memcgrun: the text can't be written: {error}");
    }
    FAILED
}

/// The status: 0 for a script that was run, for help and for the version; 1 for a script that wasn't run; 2 for a
/// command line that asks for nothing.
fn start<R: Env + Files + AllocGlobal + Threads + Wait + Sync, I: Read, O: Write, E: Write>(
    rt: &R,
    terminals: Terminals,
    input: &mut I,
    out: &mut O,
    err: &mut E,
) -> u8
    ensures a_known_status { result ≤ 2 }
{
    let words = match given_words(rt) {
        Ok(words) => words,
        Err(error) if error.kind() == ErrorKind::InvalidData => {
            tell_no_text(rt, err);
            return BAD_WORDS;
        }
        Err(error) => {
            let _ = writeln!(err, "memcgrun: {error}");
            return FAILED;
        }
    };
    match read_words(rt.alloc(), &words) {
        Ok(Asked::Script(request, shown)) => {
            serve(rt, request, &shown, terminals, input, out, err)
        }
        Ok(Asked::Check(options, files)) => check_all(rt, options, &files, input, out, err),
        Ok(Asked::Explore(exploration)) => { serve_exploration(rt, &exploration, input, out, err) }
        Ok(Asked::Scenario(scenario)) => {
            serve_scenario(rt, &scenario, terminals, input, out, err)
        }
        Err(Refused::Text(text)) if !text.use_stderr() => show(out, err, &text),
        Err(Refused::Text(error)) => {
            // The status reports the failure even if its text can't be written.
            let _ = match text_about(rt.alloc(), &error) {
                Ok(text) => write!(err, "{text}"),
                Err(_) => write!(err, "{error}"),
            };
            BAD_WORDS
        }
        Err(Refused::Memory) => {
            tell_no_memory(err);
            FAILED
        }
    }
}

fn main(rt: HostRuntime) -> ExitCode {
    let terminals = Terminals {
        out: rt.stdout().is_terminal(),
        err: rt.stderr().is_terminal(),
    };
    ExitCode::from(start(
        &rt,
        terminals,
        &mut rt.stdin(),
        &mut rt.stdout(),
        &mut rt.stderr(),
    ))
}
