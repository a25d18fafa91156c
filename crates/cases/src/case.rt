//! A case: a script, and what the program must write for it.
//!
//! Each case of a file has a line `== ` with its name, and then the script's lines. After these, a line `-- prints` is
//! followed by the lines that the script prints, or a line `-- faults ` has the line of standard error that it is
//! refused with. Blank lines and lines that begin with `#` belong to no case after that. Neither do lines before the
//! first case.
//!
//! Other lines may be among the script's:
//!
//! - `-- on threads`: a run on threads prints the same, each time of two thousand. After it comes the line of an audit
//!   that finds nothing wrong.
//! - `-- with `: the line names the options, as the command line does.
//! - `-- as linux too`: the same holds with `--as-linux`.
//! - `-- says `: the line has a line of standard error of a script that is run to its end.
//! - `-- faults `: the line has a line of standard error of a script that is not run to its end.
//! - `-- checked`: a line that begins with this says what a check prints after the file's name.
//!
//! There may be several `-- says ` and `-- faults `, in the order in which their lines come. There the script's file is
//! called `case`.

ghost use Rattle.std.specs.Prelude.{◌≡◌, ◌==◌, ◌&&◌, if◌then◌else◌};
ghost use Rattle.std.specs.Str.{bytes_eq};

use std::alloc::{AllocError, Global};
use std::io;
use std::io::Write;
use std::sync::Wait;
use std::thread::Threads;
use subcommands::{Amounts, Options, Placement, read_and_check, run_script, status_of};
use thread_runs::{run_script_on_threads, status_of_run};

/// What follows the answers of a run with an audit, and of one on threads.
const VERDICT: &[u8] = b"audit ok\n";

/// The name of the file of a case's script.
const FILE: &str = "case";

/// How often a case is run on threads.
const RUNS_ON_THREADS: u32 = 2000;

/// The part of a case that a line belongs to.
#[derive(Clone, Copy)]
enum Part {
    /// The script.
    Script,
    /// What the program prints.
    Printed,
}

/// A script, with what the program must write for it.
#[derive(Drop)]
pub struct Case {
    name: String,
    script: String,
    out: String,
    err: String,
    /// It is not run to its end.
    fails: bool,
    options: Options,
    /// What a check prints after the file's name, with its line feed; nothing if the script is not checked.
    checked: String,
    /// It is run on threads too.
    on_threads: bool,
    /// It is run with `--as-linux` too.
    as_linux_too: bool,
    /// The part to which the next line of the file belongs.
    next: Part,
}

impl Case {
    fn new(alloc: Global, name: &str) -> Result<Case, AllocError> {
        Ok(Case {
            name: String::from_str(alloc, name)?,
            script: String::new(alloc),
            out: String::new(alloc),
            err: String::new(alloc),
            fails: false,
            options: Options::default(),
            checked: String::new(alloc),
            on_threads: false,
            as_linux_too: false,
            next: Part::Script,
        })
    }

    /// Takes a line of the file.
    fn add(&mut self, line: &str) -> Result<(), AllocError> {
        if line == "-- prints" {
            self.next = Part::Printed;
            return Ok(());
        }
        if line == "-- on threads" {
            self.on_threads = true;
            return Ok(());
        }
        if line == "-- as linux too" {
            self.as_linux_too = true;
            return Ok(());
        }
        if let Some(checked) = line.strip_prefix("-- checked") {
            return add_line(&mut self.checked, checked);
        }
        if let Some(names) = line.strip_prefix("-- with ") {
            for name in names.split(' ') {
                ask_for(&mut self.options, name);
            }
            return Ok(());
        }
        if let Some(said) = line.strip_prefix("-- says ") {
            self.next = Part::Printed;
            return add_line(&mut self.err, said);
        }
        if let Some(fault) = line.strip_prefix("-- faults ") {
            self.next = Part::Printed;
            self.fails = true;
            return add_line(&mut self.err, fault);
        }
        if let Some(more) = line.strip_prefix("-- explained ") {
            self.options.explain = true;
            return add_line(&mut self.err, more);
        }
        match self.next {
            Part::Script => add_line(&mut self.script, line),
            Part::Printed if line.is_empty() || line.starts_with('#') => Ok(()),
            Part::Printed => add_line(&mut self.out, line),
        }
    }

    /// Whether the result of a run is what the file says: each byte that it wrote, and its exit status. The status is 1
    /// if a fault is named, and 0 otherwise.
    fn is_met(&self, status: u8, out: &[u8], err: &[u8]) -> bool
        ensures { result ≡ (status == (if self.now.fails then 1 else 0)
            && (bytes_eq out.now self.now.out.bytes.items && bytes_eq err.now self.now.err.bytes.items)) }
    {
        let wanted = if self.fails { 1 } else { 0 };
        status == wanted && out == self.out.as_bytes() && err == self.err.as_bytes()
    }

    /// Runs the script, and reports the result if it is not what it must be.
    pub fn run<R: Threads + Wait + Sync, W: Write>(
        &self,
        rt: &R,
        alloc: Global,
        file: &str,
        to: &mut W,
    ) -> io::Result<()> {
        self.run_with(rt, alloc, self.options, file, to)?;
        if self.as_linux_too {
            let mut options = self.options;
            options.placement = Placement::Linux;
            self.run_with(rt, alloc, options, file, to)?;
        }
        Ok(())
    }

    /// The same with these options.
    fn run_with<R: Threads + Wait + Sync, W: Write>(
        &self,
        rt: &R,
        alloc: Global,
        options: Options,
        file: &str,
        to: &mut W,
    ) -> io::Result<()> {
        if self.run_in_turns(alloc, options, file, to)? && self.err.is_empty() {
            self.run_audited(alloc, options, file, to)?;
        }
        if self.on_threads {
            self.run_often_on_threads(rt, alloc, options, file, to)?;
        }
        if !self.checked.is_empty() {
            self.check(alloc, options, file, to)?;
        }
        Ok(())
    }

    /// Whether the result is what the file says.
    fn run_in_turns<W: Write>(
        &self,
        alloc: Global,
        options: Options,
        file: &str,
        to: &mut W,
    ) -> io::Result<bool> {
        let mut out = Vec::new(alloc);
        let mut err = Vec::new(alloc);
        let script = self.script.as_bytes();
        let ran = run_script(alloc, options, FILE, script, &mut out, &mut err);
        let status = status_of(ran, &mut err);
        if self.is_met(status, &out, &err) {
            return Ok(true);
        }
        writeln!(to, "{file}: {}: status {status}", self.name)?;
        to.write_all(&out)?;
        to.write_all(&err)?;
        Ok(false)
    }

    /// The same with an audit, which finds nothing wrong.
    fn run_audited<W: Write>(
        &self,
        alloc: Global,
        options: Options,
        file: &str,
        to: &mut W,
    ) -> io::Result<()> {
        let mut options = options;
        options.audit = true;
        let mut out = Vec::new(alloc);
        let mut err = Vec::new(alloc);
        let script = self.script.as_bytes();
        let ran = run_script(alloc, options, FILE, script, &mut out, &mut err);
        let status = status_of(ran, &mut err);
        if self.is_audited(status, &out) {
            return Ok(());
        }
        writeln!(to, "{file}: {}: with an audit: status {status}", self.name)?;
        to.write_all(&out)
    }

    /// Whether it succeeded, with the verdict after what the file says.
    fn is_audited(&self, status: u8, out: &[u8]) -> bool {
        status == 0 && out.strip_suffix(VERDICT) == Some(self.out.as_bytes())
    }

    /// The same on threads, until a result is something else.
    fn run_often_on_threads<R: Threads + Wait + Sync, W: Write>(
        &self,
        rt: &R,
        alloc: Global,
        options: Options,
        file: &str,
        to: &mut W,
    ) -> io::Result<()> {
        for _run in 0..RUNS_ON_THREADS {
            if !self.run_on_threads(rt, alloc, options, file, to)? {
                break;
            }
        }
        Ok(())
    }

    /// Whether the result of a run on threads is what the file says.
    fn run_on_threads<R: Threads + Wait + Sync, W: Write>(
        &self,
        rt: &R,
        alloc: Global,
        options: Options,
        file: &str,
        to: &mut W,
    ) -> io::Result<bool> {
        let mut out = Vec::new(alloc);
        let mut err = Vec::new(alloc);
        let script = self.script.as_bytes();
        let options = Options {
            placement: options.placement,
            ..Options::default()
        };
        let ran = run_script_on_threads(rt, alloc, options, FILE, script, &mut out);
        let status = status_of_run(ran, &mut err);
        if self.is_audited(status, &out) {
            return Ok(true);
        }
        writeln!(to, "{file}: {}: on threads: status {status}", self.name)?;
        to.write_all(&out)?;
        to.write_all(&err)?;
        Ok(false)
    }

    /// Whether the result of a check is what the file says. Its status is 0 for a script that answers what it expects.
    fn is_checked(&self, status: u8, told: &[u8]) -> bool {
        let wanted = if self.checked.starts_with(": ok, ") {
            0
        } else {
            1
        };
        status == wanted && told.strip_prefix(FILE.as_bytes()) == Some(self.checked.as_bytes())
    }

    /// Checks the script.
    fn check<W: Write>(
        &self,
        alloc: Global,
        options: Options,
        file: &str,
        to: &mut W,
    ) -> io::Result<()> {
        let mut out = Vec::new(alloc);
        let mut err = Vec::new(alloc);
        let mut script = self.script.as_bytes();
        let status = read_and_check(alloc, options, FILE, &mut script, &mut out, &mut err);
        out.extend_from_slice(&err)?;
        if self.is_checked(status, &out) {
            return Ok(());
        }
        writeln!(to, "{file}: {}: checked: status {status}", self.name)?;
        to.write_all(&out)
    }
}

/// Sets what the option of this name asks for.
fn ask_for(options: &mut Options, name: &str) {
    match name {
        "--as-linux" => options.placement = Placement::Linux,
        "--audit" => options.audit = true,
        "--explain" => options.explain = true,
        "--human" => options.amounts = Amounts::Human,
        "--labels" => options.labels = true,
        "--lines" => options.lines = true,
        "--pages" => options.amounts = Amounts::Pages,
        "--progress" => options.progress = true,
        "--progress-lines" => options.progress_lines = true,
        "--quiet" => options.quiet = true,
        "--strict" => options.strict = true,
        "--summary" => options.summary = true,
        _ => {
            if let Some(turns) = name.strip_prefix("--turns=") {
                options.turns = turns.parse().unwrap_or(0);
            }
        }
    }
}

fn add_line(text: &mut String, line: &str) -> Result<(), AllocError> {
    text.push_str(line)?;
    text.push('\n')
}

/// The cases of a file.
pub fn read_cases(alloc: Global, text: &str) -> Result<Vec<Case>, AllocError> {
    let mut cases: Vec<Case> = Vec::new(alloc);
    for line in text.lines() {
        if let Some(name) = line.strip_prefix("== ") {
            cases.push(Case::new(alloc, name)?)?;
        } else if let Some(case) = cases.last_mut() {
            case.add(line)?;
        }
    }
    Ok(cases)
}
