//! The machine that a scenario asks for, and lines of its script.

ghost use Rattle.std.specs.Prelude.{◌≡◌, ◌++◌, map, None, IfOk, OnOk};
ghost use Rattle.std.specs.List.{flat_map};
ghost use Rattle.std.specs.String.{string_bytes};
ghost use Rattle.scenario_words.specs.Header.{machine_of};
ghost use Rattle.scenario_machines.specs.RawLines.{file_line, one_line, IsNoLine};
ghost use Rattle.scenario_machines.specs.Machines.{file_for, IsConfigOf, is_of_call, number_of_call, failing_calls};

use machine::config::{Config, File, FileList};
use machine::page_size::PageSize;
use machine::text::Text;
use scenario_words::header::{DeviceCall, Failing, FileSize, Header};
use scenario_words::names::Names;
use schedules::Schedule;
use scripts::{Mode, Script, ScriptFault, read};
use std::alloc::{AllocError, Global};

/// Entries that a history has, at most.
const MOST_ENTRIES: u32 = 1_048_576;

/// A file, by the name that a script has for it.
fn file_of(alloc: Global, names: &Names, file: &FileSize) -> Result<File, AllocError>
    ensures { IfOk result (λ made. made ≡ file_for names.now file.now) }
{
    let mut name = String::new(alloc);
    names.add_name(&mut name, file.name.as_str())?;
    Ok(File {
        name: Text::new(name),
        pages: file.pages,
    })
}

/// The files, by the names that a script has for them.
fn files_of(alloc: Global, header: &Header, names: &Names) -> Result<FileList, AllocError>
    ensures { IfOk result (λ files. files ≡ map (file_for names.now) header.now.files.items) }
{
    let mut files = FileList::new(alloc);
    for file in &header.files {
        files.push(file_of(alloc, names, file)?)?;
    }
    Ok(files)
}

/// The configuration: a line ends only when it is answered, and the history has the most room that it can have.
pub fn config_of(alloc: Global, header: &Header, names: &Names) -> Result<Config, AllocError>
    ensures { IfOk result (IsConfigOf (machine_of header.now) names.now) }
{
    Ok(Config {
        frames: header.frames,
        swap: header.swap,
        files: files_of(alloc, header, names)?,
        watermarks: header.watermarks.unwrap_or_default(),
        trace: MOST_ENTRIES,
        turns: u32::MAX,
        recursive: header.recursive,
        placement: header.placement,
        page_size: PageSize::of_4k(),
    })
}

/// Whether a failing call is of this kind.
fn is_of_call(failing: &Failing, call: DeviceCall) -> bool
    ensures { result ≡ is_of_call failing.now.call call }
{
    match (failing.call, call) {
        (DeviceCall::Read, DeviceCall::Read) | (DeviceCall::Write, DeviceCall::Write) => true,
        (DeviceCall::Read, DeviceCall::Write) | (DeviceCall::Write, DeviceCall::Read) => false,
    }
}

/// Adds the number of a failing call, if it is of this kind.
fn add_number(numbers: &mut Vec<u64>, failing: &Failing, call: DeviceCall) -> Result<(), AllocError>
    ensures { OnOk result (numbers.new.items ≡ numbers.old.items ++ number_of_call call failing.now) }
{
    if is_of_call(failing, call) {
        numbers.push(u64::from(failing.number))?;
    }
    Ok(())
}

/// Which calls of this kind fail.
pub fn failing_of(alloc: Global, header: &Header, call: DeviceCall) -> Result<Vec<u64>, AllocError>
    ensures { IfOk result (λ numbers. numbers.items ≡ failing_calls call header.now.failing.items) }
{
    let mut numbers = Vec::new(alloc);
    for failing in &header.failing {
        add_number(&mut numbers, failing, call)?;
    }
    Ok(numbers)
}

/// Adds the line of a file.
fn add_file(text: &mut String, names: &Names, file: &FileSize) -> Result<(), AllocError>
    ensures { OnOk result (string_bytes text.new ≡ string_bytes text.old ++ file_line names.now file.now) }
{
    text.push_str("file ")?;
    names.add_name(text, file.name.as_str())?;
    writeln!(text, " {}", file.pages)
}

/// Adds the lines of all files.
fn add_files(text: &mut String, header: &Header, names: &Names) -> Result<(), AllocError>
    ensures { OnOk result (string_bytes text.new ≡ string_bytes text.old ++ flat_map (file_line names.now) header.now.files.items) }
{
    for file in &header.files {
        add_file(text, names, file)?;
    }
    Ok(())
}

/// A script of one line, with the files of the scenario.
fn script_text(
    alloc: Global,
    header: &Header,
    names: &Names,
    line: &str,
) -> Result<String, AllocError>
    ensures { IfOk result (λ text. string_bytes text ≡ one_line (machine_of header.now) names.now line.now) }
{
    let mut text = String::new(alloc);
    writeln!(text, "frames {}", header.frames)?;
    writeln!(text, "swap {}", header.swap)?;
    add_files(&mut text, header, names)?;
    writeln!(text, "{line}")?;
    Ok(text)
}

/// What a line of the script asks for. `None` if it is not a line that a script can have.
pub fn schedule_of(
    alloc: Global,
    header: &Header,
    names: &Names,
    line: &str,
) -> Result<Option<Schedule>, AllocError>
    ensures { IfOk result (λ schedule. schedule ≡ None → IsNoLine (machine_of header.now) names.now line.now) }
{
    let text = script_text(alloc, header, names, line)?;
    match read(alloc, text.as_bytes(), Mode::Schedule) {
        Ok(script) => {
            let Script { schedule, .. } = script;
            Ok(Some(schedule))
        }
        Err(ScriptFault::Memory) => Err(AllocError),
        Err(ScriptFault::At { .. }) => Ok(None),
    }
}
