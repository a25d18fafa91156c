//! A race: a script whose outcomes are listed in files. `NAME.memcg` is the script, `NAME.outcomes` has what is printed of
//! the orders with device calls first, and `NAME.every` what is printed of every order.
//!
//! The outcomes are compared with those of the files, and each outcome that is shown as a script has to answer what that
//! script expects. A sample of each race is drawn too, twice.

use explore::{Asked, Choice, Sample, Verdict, explore_script};
use scripts::lines::as_text;
use std::alloc::Global;
use std::fs::File;
use std::io;
use std::io::{ErrorKind, Read, Write};
use std::rt::Files;
use subcommands::{Options, read_and_check};

/// All bytes of a file.
fn read<R: Files + AllocGlobal>(rt: &R, name: &str, end: &str) -> io::Result<Vec<u8>> {
    let path = format!(in rt.alloc(); "{name}{end}")?;
    let mut bytes = Vec::new(rt.alloc());
    File::open(rt, path.as_str())?.read_to_end(&mut bytes)?;
    Ok(bytes)
}

/// What an exploration or a sample prints, and its number of outcomes, or none if it fails.
fn explored(alloc: Global, asked: Asked, script: &[u8]) -> Option<(Vec<u8>, usize)> {
    let mut out = Vec::new(alloc);
    match explore_script(alloc, asked, script, &mut out) {
        Ok(Verdict::All(outcomes) | Verdict::Sample(outcomes)) => Some((out, outcomes)),
        _ => None,
    }
}

/// Checks each outcome, shown as a script. A line says which answers other than it expects.
fn check_shown<W: Write>(
    alloc: Global,
    name: &str,
    script: &[u8],
    outcomes: usize,
    out: &mut W,
) -> io::Result<()> {
    for place in 0..outcomes {
        let asked = Asked {
            show: Some((place as u64).saturating_add(1)),
            ..Asked::default()
        };
        let Some((shown, _)) = explored(alloc, asked, script) else {
            return Err(ErrorKind::Other.into());
        };
        let mut said = Vec::new(alloc);
        let mut told = Vec::new(alloc);
        let mut rest = shown.as_slice();
        let options = Options::default();
        if read_and_check(alloc, options, name, &mut rest, &mut said, &mut told) != 0 {
            writeln!(
                out,
                "{name}: outcome {place} is not what its script answers"
            )?;
            out.write_all(&said)?;
            out.write_all(&told)?;
        }
    }
    Ok(())
}

/// Explores a race, and compares its outcomes with those of its file with this end. A line says if they differ. The result
/// is the number of outcomes.
fn compare<R: Files + AllocGlobal, W: Write>(
    rt: &R,
    asked: Asked,
    name: &str,
    end: &str,
    script: &[u8],
    out: &mut W,
) -> io::Result<usize> {
    let wanted = read(rt, name, end)?;
    let Some((found, outcomes)) = explored(rt.alloc(), asked, script) else {
        return Err(ErrorKind::Other.into());
    };
    if found.as_slice() != wanted.as_slice() {
        writeln!(out, "{name}: other outcomes than in {name}{end}")?;
        out.write_all(&found)?;
    }
    Ok(outcomes)
}

/// Draws a sample twice with the same seed. A line says if the two differ, or if a sample has no outcome or too many.
fn check_sample<W: Write>(
    alloc: Global,
    name: &str,
    script: &[u8],
    outcomes: usize,
    out: &mut W,
) -> io::Result<()> {
    let asked = Asked {
        sample: Some(Sample {
            orders: 200,
            seed: 1,
        }),
        ..Asked::default()
    };
    let (Some((first, seen)), Some((second, _))) = (
        explored(alloc, asked, script),
        explored(alloc, asked, script),
    ) else {
        return Err(ErrorKind::Other.into());
    };
    if first.as_slice() != second.as_slice() {
        writeln!(out, "{name}: the same seed draws another sample")?;
    }
    if seen == 0 || seen > outcomes {
        writeln!(out, "{name}: a sample has {seen} outcomes")?;
    }
    Ok(())
}

/// Adds an outcome with the next number, unless a command was answered `busy`.
fn add_kept(text: &mut String, number: usize, outcome: &str) -> io::Result<usize> {
    let Some((_, rest)) = outcome.split_once(": ") else {
        return Ok(number);
    };
    if rest.lines().any(|line| line.ends_with("busy")) {
        return Ok(number);
    }
    let next = number.saturating_add(1);
    writeln!(text, "outcome {next}: {rest}")?;
    Ok(next)
}

/// The outcomes of a list in which no command was answered `busy`, with their new numbers.
fn kept_of(alloc: Global, listed: &str) -> io::Result<String> {
    let mut text = String::new(alloc);
    let mut outcome = String::new(alloc);
    let mut number = 0;
    for line in listed.lines().skip(1) {
        if line.starts_with("outcome ") {
            number = add_kept(&mut text, number, outcome.trim_end())?;
            outcome.clear();
        }
        writeln!(outcome, "{line}")?;
    }
    add_kept(&mut text, number, outcome.trim_end())?;
    Ok(text)
}

/// Explores a race whose commands wait. The list has the outcomes in which no command was answered `busy`, with the same
/// numbers of orders. A line says if it has not. The result is the number of outcomes.
fn check_waiting<W: Write>(
    alloc: Global,
    name: &str,
    script: &[u8],
    listed: &[u8],
    out: &mut W,
) -> io::Result<usize> {
    let asked = Asked {
        waits: true,
        ..Asked::default()
    };
    let Some((found, outcomes)) = explored(alloc, asked, script) else {
        return Err(ErrorKind::Other.into());
    };
    let (Some(found), Some(listed)) = (as_text(&found), as_text(listed)) else {
        return Err(ErrorKind::Other.into());
    };
    let kept = kept_of(alloc, listed)?;
    let (first, rest) = found.split_once('\n').unwrap_or((found, ""));
    if rest != kept.as_str() || !first.contains(" without `busy` ha") {
        writeln!(out, "{name}: other outcomes if commands wait")?;
        out.write_all(found.as_bytes())?;
    }
    Ok(outcomes)
}

/// Explores a race. A line has its number of outcomes with device calls first, that of every order, and that of the orders
/// in which commands wait.
pub fn explore_race<R: Files + AllocGlobal, W: Write>(
    rt: &R,
    name: &str,
    out: &mut W,
) -> io::Result<()> {
    let alloc = rt.alloc();
    let script = read(rt, name, ".memcg")?;
    let outcomes = compare(rt, Asked::default(), name, ".outcomes", &script, out)?;
    let asked = Asked {
        choice: Choice::Any,
        ..Asked::default()
    };
    let every = compare(rt, asked, name, ".every", &script, out)?;
    let listed = read(rt, name, ".outcomes")?;
    let waiting = check_waiting(alloc, name, &script, &listed, out)?;
    writeln!(
        out,
        "{name}: outcomes {outcomes}, with --every {every}, with --wait {waiting}"
    )?;
    check_sample(alloc, name, &script, outcomes, out)?;
    check_shown(alloc, name, &script, outcomes, out)
}
