//! Runs of scripts on threads, with all that the options ask for.

use crate::notes::Notes;
use crate::threads::{Verdict, run_script_showing};
use printer::Options;
use script_faults::Fault;
use shown_groups::Shows;
use std::alloc::Global;
use std::io;
use std::io::Write;
use std::sync::Wait;
use std::thread::Threads;

/// Writes what a run printed, with the number of its line before each answer, and the words of that line if the options
/// ask for labels.
fn mark<O: Write>(
    alloc: Global,
    options: Options,
    script: &[u8],
    notes: &Notes,
    printed: &[u8],
    out: &mut O,
) -> io::Result<()> {
    let attributed = notes.attributed(alloc, script)?;
    attributed.write_marked(alloc, options, printed, out)?;
    out.flush()
}

/// Says why lines were refused and tasks were killed.
fn explain<E: Write>(
    alloc: Global,
    file: &str,
    script: &[u8],
    notes: &Notes,
    err: &mut E,
) -> io::Result<()> {
    let attributed = notes.attributed(alloc, script)?;
    attributed.explain(alloc, file, err)
}

/// Runs a script on threads, as [`run_script_showing`] does, and says what the options ask for.
///
/// With `labels` or `lines`, each line of an answer begins with its line of the script. Then all answers are written at the
/// end of the run. With `explain`, a line of `err` says why a line was refused, or that a task was killed; with `summary`,
/// lines of `err` say what was done.
pub fn run_script_told<R: Threads + Wait + Sync, O: Write, E: Write>(
    rt: &R,
    alloc: Global,
    options: Options,
    shows: Shows<'_>,
    file: &str,
    script: &[u8],
    out: &mut O,
    err: &mut E,
) -> Result<Verdict, Fault> {
    let is_marked = options.labels || options.lines;
    let mut notes = Notes::new(alloc, is_marked || options.explain);
    let ran = if is_marked {
        let mut printed = Vec::new(alloc);
        let ran = run_script_showing(
            rt,
            alloc,
            options,
            shows,
            file,
            script,
            &mut notes,
            &mut printed,
        );
        match (ran, mark(alloc, options, script, &notes, &printed, out)) {
            (Ok(_), Err(error)) => Err(Fault::Unwritable(error)),
            (ran, _) => ran,
        }
    } else {
        run_script_showing(rt, alloc, options, shows, file, script, &mut notes, out)
    };
    // The status does not depend on what follows.
    if options.explain {
        let _ = explain(alloc, file, script, &notes, err);
    }
    if options.summary && ran.is_ok() {
        let _ = notes.summary().write(err);
    }
    ran
}
