//! Whether a script answers what it expects.

ghost use Rattle.std.specs.Prelude.{◌≡◌, ◌≤◌, [], false, IfSome, IfOk, IfErr, OnOk};
ghost use Rattle.std.specs.Str.Lines.{lines};
ghost use Rattle.scripts.specs.declared.mode.Mode.TheVariants.{Schedule};
ghost use Rattle.scripts.specs.Script.{IsFaultless};
ghost use Rattle.expectations.specs.Expected.{expected_of};
ghost use Rattle.printer.specs.Asked.{marks_lines, speaks};
ghost use Rattle.subcommands.specs.Scripts.{as_checked, PrintsScript};
ghost use Rattle.script_faults.specs.Told.{Explains};

use crate::run_script;
use expectations::{Difference, Text, compare, looks_expected};
use explain::Words;
use printer::{Options, write_bytes};
use script_faults::{Fault, read_script, status_of};
use scripts::ScriptFault;
use scripts::lines::{as_text, first_line};
use std::alloc::{AllocError, Global};
use std::io::{ErrorKind, Read, Write};
use std::{io, str};

const FAILED: u8 = 1;

/// The result of a check.
#[derive(Clone, Copy, PartialEq, Eq)]
pub enum Checked {
    /// The script answers what it expects, and nothing else.
    Met,
    /// It answers something else.
    Differs,
}

/// What a script answers.
#[derive(Drop)]
struct Answers {
    output: Vec<u8>,
    /// For each line of the output, the number of the script's line that caused it.
    numbers: Vec<usize>,
}

/// What a check heeds of what is asked for. It prints no answers, so nothing comes before or after them.
fn heeded(options: Options) -> Options
    ensures { result ≡ as_checked options }
{
    Options {
        explain: options.explain,
        placement: options.placement,
        strict: options.strict,
        turns: options.turns,
        ..Options::default()
    }
}

/// What a run of the script prints, with what the options ask for.
fn output_of<E: Write>(
    alloc: Global,
    options: Options,
    name: &str,
    script: &[u8],
    err: &mut E,
) -> Result<Vec<u8>, Fault>
    ensures whole { IfOk result (λ output. marks_lines options ≡ false → PrintsScript options script.now (Some []) (Some output.items)) }
    ensures why { IfErr result (Explains options name.now script.now) }
    ensures quiet { speaks options ≡ false → E.contents err.new ≡ E.contents err.old }
{
    let mut output = Vec::new(alloc);
    run_script(alloc, options, name, script, &mut output, err)?;
    Ok(output)
}

/// The numbers before the lines of an output, each of which is followed by a colon.
fn numbers_of(alloc: Global, numbered: &[u8]) -> Result<Vec<usize>, AllocError> {
    let mut numbers = Vec::new(alloc);
    for line in str::from_utf8(numbered).unwrap_or("").lines() {
        let number = line
            .split_once(':')
            .and_then(|(number, _)| number.parse().ok());
        numbers.push(number.unwrap_or(0))?;
    }
    Ok(numbers)
}

/// The script is run twice, since an output has the numbers of all its lines or of none. `err` gets what is said in one
/// of these runs.
fn answers_of<E: Write>(
    alloc: Global,
    options: Options,
    name: &str,
    script: &[u8],
    err: &mut E,
) -> Result<Answers, Fault>
    ensures whole { IfOk result (λ answers. PrintsScript (as_checked options) script.now (Some []) (Some answers.output.items)) }
    ensures why { IfErr result (Explains (as_checked options) name.now script.now) }
    ensures quiet { speaks (as_checked options) ≡ false → E.contents err.new ≡ E.contents err.old }
{
    let options = heeded(options);
    let output = output_of(alloc, options, name, script, err)?;
    let with_lines = Options {
        lines: true,
        ..options
    };
    let mut said_again = Vec::new(alloc);
    let numbered = output_of(alloc, with_lines, name, script, &mut said_again)?;
    match numbers_of(alloc, &numbered) {
        Ok(numbers) => Ok(Answers { output, numbers }),
        Err(AllocError) => Err(Fault::Script(ScriptFault::Memory)),
    }
}

/// The words of the script's line with this number, counted from 1.
fn words_of(script: &[u8], number: usize) -> Words<'_> {
    let mut rest = script;
    let mut before = 1;
    while !rest.is_empty() {
        let (line, behind) = first_line(rest);
        if before == number {
            return Words(as_text(line).unwrap_or(""));
        }
        before = before.saturating_add(1);
        rest = behind;
    }
    Words("")
}

/// Adds the line of a difference. If there are labels, what was answered follows the number and the words of its line.
fn add_difference(
    text: &mut String,
    labels: bool,
    name: &str,
    script: &[u8],
    difference: Difference<'_>,
) -> Result<(), AllocError> {
    match difference {
        Difference::Other {
            line,
            from,
            wanted,
            got,
        } if labels => {
            let words = words_of(script, from);
            writeln!(
                text,
                "{name}:{line}: expected {}, got {from}: {words}: {}",
                Text(wanted),
                Text(got)
            )
        }
        Difference::Unexpected { line, got } if labels => {
            let words = words_of(script, line);
            writeln!(
                text,
                "{name}:{line}: unexpected {line}: {words}: {}",
                Text(got)
            )
        }
        _ => writeln!(text, "{name}:{difference}"),
    }
}

/// Writes the line with the result of the check, in one piece.
fn tell<O: Write>(
    alloc: Global,
    labels: bool,
    name: &str,
    script: &[u8],
    compared: &Result<(), Difference<'_>>,
    answers: usize,
    out: &mut O,
) -> io::Result<()> {
    let mut text = String::new(alloc);
    match compared {
        Ok(()) if answers == 1 => writeln!(text, "{name}: ok, 1 answer")?,
        Ok(()) => writeln!(text, "{name}: ok, {answers} answers")?,
        Err(difference) => add_difference(&mut text, labels, name, script, *difference)?,
    }
    write_bytes(out, text.as_bytes())?;
    out.flush()
}

/// Writes a line for each comment of the script that looks as if it expected a text.
fn warn<E: Write>(name: &str, script: &[u8], err: &mut E) {
    let mut rest = script;
    let mut number: usize = 0;
    while !rest.is_empty() {
        let (line, behind) = first_line(rest);
        number = number.saturating_add(1);
        if looks_expected(line) {
            // Nothing depends on it: the check continues if it can't be written.
            let _ = writeln!(
                err,
                "{name}:{number}: a comment that looks like an expectation; an expectation begins with \"#> \""
            );
        }
        rest = behind;
    }
}

/// Runs a script that was read, and compares its answers with what it expects. Writes a line with the result to `out`:
/// after the file's name, the number of answers or the first difference.
///
/// A check heeds these options: `placement`, `turns`, `strict`, `explain` and `labels`. A strict check ends at the first
/// line that is refused, even if the refusal is expected. What is explained is written to `err`. With labels, an answer
/// that differs follows the number and the words of its line.
pub fn check_script<O: Write, E: Write>(
    alloc: Global,
    options: Options,
    name: &str,
    script: &[u8],
    out: &mut O,
    err: &mut E,
) -> Result<Checked, Fault>
    // It is met only if the answers of the plain machine print exactly what the script expects.
    ensures met { IfOk result (λ checked. checked ≡ Checked.Met → PrintsScript (as_checked options) script.now (Some []) (Some (expected_of script.now))) }
    // It is met or differs only if no line of the script is faulty.
    ensures ran { OnOk result (IsFaultless Schedule (lines script.now)) }
    ensures why { IfErr result (Explains (as_checked options) name.now script.now) }
    ensures quiet { speaks (as_checked options) ≡ false → E.contents err.new ≡ E.contents err.old }
{
    let Answers { output, numbers } = answers_of(alloc, options, name, script, err)?;
    let compared = compare(script, &output, &numbers);
    let answers = numbers.len();
    match tell(alloc, options.labels, name, script, &compared, answers, out) {
        Ok(()) => Ok(match compared {
            Ok(()) => Checked::Met,
            Err(_) => Checked::Differs,
        }),
        Err(error) if error.kind() == ErrorKind::OutOfMemory => {
            Err(Fault::Script(ScriptFault::Memory))
        }
        Err(error) => Err(Fault::Unwritable(error)),
    }
}

/// Reads a script and checks it as [`check_script`] does. Before that, `err` gets a line for each comment of the script
/// that looks as if it expected a text, as `#>0`.
///
/// The exit status is 0 if it answers what it expects, and otherwise 1. If it can't be run, `err` gets the file's
/// name, and then the lines that say why.
pub fn read_and_check<R: Read, O: Write, E: Write>(
    alloc: Global,
    options: Options,
    name: &str,
    script: &mut R,
    out: &mut O,
    err: &mut E,
) -> u8
    ensures success_or_failure { result ≤ 1 }
    ensures met { result ≡ 0 → IfSome (R.remaining script.old) (λ all. PrintsScript (as_checked options) all (Some []) (Some (expected_of all))) }
{
    let checked = match read_script(alloc, script) {
        Ok(bytes) => {
            warn(name, &bytes, err);
            check_script(alloc, options, name, &bytes, out, err)
        }
        Err(fault) => Err(fault),
    };
    match checked {
        Ok(Checked::Met) => 0,
        Ok(Checked::Differs) => FAILED,
        Err(fault) => {
            if !fault.is_silent() && !fault.names_file() {
                // The status reports the failure even if its line can't be written.
                let _ = write!(err, "{name}: ");
            }
            status_of(Err(fault), err)
        }
    }
}
