//! The script that a scenario stands for.

use crate::expansion::{Cuts, Expansion, Item};
use machine::command::{Actor, Command};
use machine::config::Placement;
use machine::event::{Op, Place};
use machine::record::Guard;
use scenario_words::fault::ExpandError;
use scenario_words::header::{DeviceCall, Header};
use scenario_words::names::Names;
use scenarios::holes::Named;
use scenarios::scenario::Scenario;
use std::alloc::{AllocError, Global};

/// The text, with the scenario's line and the rounds of its last entry.
#[derive(Drop)]
struct Script {
    text: String,
    line: usize,
    rounds: Vec<u32>,
}

fn add_head(text: &mut String, header: &Header) -> Result<(), AllocError> {
    let bytes = header.page.bytes;
    if bytes >= 1_048_576 {
        write!(text, "# page {}M; ", bytes / 1_048_576)?;
    } else {
        write!(text, "# page {}K; ", bytes / 1_024)?;
    }
    match header.placement {
        Placement::Linux => text.push_str("with --as-linux\n")?,
        Placement::Own => text.push_str("without --as-linux\n")?,
    }
    writeln!(text, "frames {}", header.frames)?;
    writeln!(text, "swap {}", header.swap)?;
    if let Some(marks) = header.watermarks {
        writeln!(text, "watermarks {} {}", marks.low, marks.high)?;
    }
    text.push_str("trace 1048576\n")?;
    if header.recursive {
        text.push_str("recursiveprot\n")?;
    }
    Ok(())
}

fn add_files(text: &mut String, header: &Header, names: &Names) -> Result<(), AllocError> {
    for file in &header.files {
        text.push_str("file ")?;
        names.add_name(text, file.name.as_str())?;
        writeln!(text, " {}", file.pages)?;
    }
    for failing in &header.failing {
        match failing.call {
            DeviceCall::Read => writeln!(text, "fault read {}", failing.number)?,
            DeviceCall::Write => writeln!(text, "fault write {}", failing.number)?,
        }
    }
    Ok(())
}

/// Adds the script's name of a file.
fn add_file_name(
    text: &mut String,
    header: &Header,
    names: &Names,
    file: u32,
) -> Result<(), AllocError> {
    match header.files.get(file as usize) {
        None => Ok(()),
        Some(file) => names.add_name(text, file.name.as_str()),
    }
}

fn add_access(
    text: &mut String,
    header: &Header,
    names: &Names,
    place: Place,
    op: Op,
) -> Result<(), AllocError> {
    match place {
        Place::Virtual { page, offset } => match op {
            Op::Read => write!(text, "read {page} {offset}"),
            Op::Write(byte) => write!(text, "write {page} {offset} {byte}"),
        },
        Place::File { file, page, offset } => {
            match op {
                Op::Read => text.push_str("fread ")?,
                Op::Write(_) => text.push_str("fwrite ")?,
            }
            add_file_name(text, header, names, file)?;
            match op {
                Op::Read => write!(text, " {page} {offset}"),
                Op::Write(byte) => write!(text, " {page} {offset} {byte}"),
            }
        }
    }
}

fn add_two(text: &mut String, first: &str, second: &str) -> Result<(), AllocError> {
    write!(text, "{first} {second}")
}

fn add_three(text: &mut String, first: &str, second: &str, third: &str) -> Result<(), AllocError> {
    write!(text, "{first} {second} {third}")
}

fn add_set(text: &mut String, path: &str, file: &str, value: &str) -> Result<(), AllocError> {
    write!(text, "set {path} {file} {value}")
}

/// The word of a script that shows this protection.
fn shown(guard: Guard) -> &'static str {
    match guard {
        Guard::Min => "prot",
        Guard::Low => "lowprot",
    }
}

fn add_command(
    text: &mut String,
    header: &Header,
    names: &Names,
    command: &Command,
) -> Result<(), AllocError> {
    match command {
        Command::Access { place, op } => add_access(text, header, names, *place, *op),
        Command::Fork { child } => write!(text, "fork {child}"),
        Command::Free { page } => write!(text, "free {page}"),
        Command::Exit => text.push_str("exit"),
        Command::Group(path) => add_two(text, "group", path.as_str()),
        Command::Rmdir(path) => add_two(text, "rmdir", path.as_str()),
        Command::Task { task, path } => write!(text, "task {task} {}", path.as_str()),
        Command::Attach { task, path } => write!(text, "attach {task} {}", path.as_str()),
        Command::Set {
            path,
            file,
            text: value,
        } => add_set(text, path.as_str(), file.as_str(), value.as_str()),
        Command::Cat { path, file } => add_three(text, "cat", path.as_str(), file.as_str()),
        Command::Protection {
            guard,
            target,
            path,
        } => add_three(text, shown(*guard), target.as_str(), path.as_str()),
        Command::Daemon => text.push_str("daemon"),
    }
}

fn add_entry(
    text: &mut String,
    header: &Header,
    names: &Names,
    actor: Actor,
    command: &Command,
) -> Result<(), AllocError> {
    if let Actor::Task(task) = actor {
        write!(text, "{task} ")?;
    }
    add_command(text, header, names, command)
}

/// Adds a comment with the number of a scenario's line, and its rounds.
fn add_place(text: &mut String, line: usize, rounds: &[u32]) -> Result<(), AllocError> {
    write!(text, "# {line}")?;
    for (depth, round) in rounds.iter().enumerate() {
        if depth == 0 {
            write!(text, ", round {round}")?;
        } else {
            write!(text, ".{round}")?;
        }
    }
    Ok(())
}

impl Script {
    /// What follows is of this line and these rounds. For an entry a comment says so only if they differ from above.
    fn place(
        &mut self,
        alloc: Global,
        line: usize,
        rounds: &[u32],
        note: bool,
    ) -> Result<(), AllocError> {
        let same = self.line == line && self.rounds.as_slice() == rounds;
        if note {
            return add_place(&mut self.text, line, rounds);
        }
        if same {
            return Ok(());
        }
        add_place(&mut self.text, line, rounds)?;
        self.text.push('\n')?;
        self.keep(alloc, line, rounds)
    }

    fn keep(&mut self, alloc: Global, line: usize, rounds: &[u32]) -> Result<(), AllocError> {
        let mut copy = Vec::new(alloc);
        for round in rounds {
            copy.push(*round)?;
        }
        self.line = line;
        self.rounds = copy;
        Ok(())
    }

    /// Adds the lines of all items that are left.
    fn add_all(&mut self, alloc: Global, expansion: &mut Expansion<'_>) -> Result<(), ExpandError> {
        for _ in 0..u64::MAX {
            match expansion.next()? {
                None => break,
                Some(item) => self.add(alloc, expansion, &item)?,
            }
        }
        Ok(())
    }

    /// Adds the lines of an item.
    fn add(
        &mut self,
        alloc: Global,
        expansion: &Expansion<'_>,
        item: &Item,
    ) -> Result<(), AllocError> {
        let line = expansion.line();
        let rounds = expansion.rounds();
        match item {
            Item::Note(words) => {
                self.place(alloc, line, rounds, true)?;
                write!(self.text, ": {}", words.as_str())?;
                self.keep(alloc, line, rounds)?;
            }
            Item::Raw(words) => {
                self.place(alloc, line, rounds, false)?;
                self.text.push_str(words.as_str())?;
            }
            // Not reached: the lengths are given.
            Item::Opened | Item::Unreached(_) => return Ok(()),
            Item::Entry(actor, command) => {
                self.place(alloc, line, rounds, false)?;
                let header = expansion.header();
                add_entry(&mut self.text, header, expansion.names(), *actor, command)?;
            }
        }
        self.text.push('\n')
    }
}

/// The header's lines.
fn head_of(alloc: Global, header: &Header, names: &Names) -> Result<String, AllocError> {
    let mut text = String::new(alloc);
    add_head(&mut text, header)?;
    add_files(&mut text, header, names)?;
    Ok(text)
}

/// The script of an expansion of which nothing was taken.
fn script_of(alloc: Global, expansion: &mut Expansion<'_>) -> Result<String, ExpandError> {
    let text = head_of(alloc, expansion.header(), expansion.names())?;
    let mut script = Script {
        text,
        line: 0,
        rounds: Vec::new(alloc),
    };
    script.add_all(alloc, expansion)?;
    let Script { text, .. } = script;
    Ok(text)
}

/// The script of a scenario, with these words instead of those of its `let` lines and with these lengths of the lists
/// with `until`. An error is the first fault.
pub fn expand_text(
    alloc: Global,
    scenario: &Scenario,
    settings: Vec<Named>,
    lengths: Vec<u64>,
) -> Result<String, ExpandError> {
    let mut expansion = Expansion::new(alloc, scenario, settings, Cuts::Given(lengths))?;
    script_of(alloc, &mut expansion)
}
