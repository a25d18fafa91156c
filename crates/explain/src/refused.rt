//! Why a command was refused: from the command, the word that was the answer and the words of its line, and from
//! nothing else.

ghost use Rattle.std.specs.Prelude.{◌≡◌, Some, None, IfSome};
ghost use Rattle.machine.specs.Control.{file_named};
ghost use Rattle.explain.specs.Reasons.{IsSo, is_task_number, path_in, file_in, text_in, number_in};

use crate::meant::{file_meant, is_of_linux};
use crate::reason::Reason;
use control_files::{file_named, has_file, parse_amount, parse_flag};
use machine::amount::Amount;
use machine::bytes::PAGE_BYTES;
use machine::command::{Actor, Command, Word};
use machine::config::Placement;
use machine::control::ControlFile;
use machine::event::Place;
use machine::id::GroupId;
use machine::limit::{LAST_TASK, MOST_FILES, TASK_PAGES};
use machine::page_size::PageSize;
use machine::refusal::Refusal;
use std::alloc::Global;
use text_forms::number::is_digits;

/// The most levels below the root.
const MOST_LEVELS: usize = 16;

/// A command, and its place in the script.
#[derive(Clone, Copy)]
pub struct Told<'a> {
    pub actor: Actor,
    pub command: &'a Command,
    /// The text of the line in which it began.
    pub line: &'a str,
    /// The number of that line.
    pub number: usize,
    /// Other lines may have had their turns between its beginning and its answer.
    pub in_turns: bool,
    /// The most turns of a line.
    pub turns: u32,
    /// Where memory for the search for a word that may be meant comes from.
    pub alloc: Global,
}

/// Why this word was the answer to the command, or why another could not begin while it was under way. There is no
/// reason for `killed`, which refuses nothing, for `idle`, which answers no command, and for a word that never answers
/// this one.
///
/// The reason is known from the command and the word. If they leave more than one cause, it says so.
pub fn reason_of<'a>(told: Told<'a>, word: Word) -> Option<Reason<'a>>
    ensures { IfSome result (IsSo told.entry.actor told.entry.command.now) }
{
    match word {
        Word::Killed | Word::Idle => None,
        Word::Underway => Some(Reason::Underway {
            actor: told.actor,
            line: told.number,
        }),
        Word::TurnLimit => Some(Reason::TurnLimit(told.turns)),
        Word::Busy => busy(told),
        Word::Io => Some(failed(told)),
        Word::OutOfMemory => Some(Reason::NobodyLeft),
        Word::Again => Some(Reason::NothingLeft(path_of(told.command)?)),
        Word::Refused(cause) => refused(told, cause),
    }
}

fn refused<'a>(told: Told<'a>, cause: Refusal) -> Option<Reason<'a>>
    ensures { IfSome result (IsSo told.entry.actor told.entry.command.now) }
{
    match cause {
        Refusal::Exists => Some(Reason::GroupThere(path_of(told.command)?)),
        Refusal::NoEntry => no_entry(told),
        Refusal::Busy => in_use(told),
        Refusal::NoSpace => Some(no_space(told)),
        Refusal::NoTask => no_task(told),
        Refusal::NumberUsed => Some(Reason::NumberUsed(number_of(told.command)?)),
        Refusal::TraceFull => Some(Reason::TraceFull),
        Refusal::NoMemory => Some(Reason::NoMemory),
        Refusal::BadPlace => bad_place(told),
        Refusal::Invalid => invalid(told),
        Refusal::Stranger => None,
    }
}

/// The path of the group that the command is about.
fn path_of(command: &Command) -> Option<&str>
    ensures { IfSome result (λ path. path_in command.now ≡ Some path.now) }
{
    match command {
        Command::Group(path) | Command::Rmdir(path) => Some(path.as_str()),
        Command::Task { task: _, path } | Command::Attach { task: _, path } => {
            Some(path.as_str())
        }
        Command::Set {
            path,
            file: _,
            text: _,
        } => Some(path.as_str()),
        Command::Cat { path, file: _ } => Some(path.as_str()),
        Command::Protection {
            guard: _,
            target: _,
            path,
        } => Some(path.as_str()),
        Command::Daemon => Some("/"),
        Command::Access { place: _, op: _ } | Command::Fork { child: _ } => None,
        Command::Free { page: _ } | Command::Exit => None,
    }
}

/// The path of the group above the group of this path.
fn parent_of(path: &str) -> &str {
    match path.rsplit_once('/') {
        Some(("", _)) | None => "/",
        Some((parent, _)) => parent,
    }
}

/// The number of the task that the command is to start or to move.
fn number_of(command: &Command) -> Option<u32>
    ensures { IfSome result (λ number. number_in command.now ≡ Some number) }
{
    match command {
        Command::Task { task, path: _ } | Command::Attach { task, path: _ } => Some(*task),
        Command::Fork { child } => Some(*child),
        _ => None,
    }
}

/// A page that the command needs is in transfer.
fn busy<'a>(told: Told<'a>) -> Option<Reason<'a>>
    ensures { IfSome result (IsSo told.entry.actor told.entry.command.now) }
{
    match told.command {
        Command::Access { place: _, op: _ } => Some(Reason::PageOnItsWay),
        command => Some(Reason::RoomOnItsWay(path_of(command)?)),
    }
}

/// A call of the device failed.
fn failed<'a>(told: Told<'a>) -> Reason<'a>
    ensures { IsSo told.entry.actor told.entry.command.now result }
{
    match told.command {
        Command::Access { place: _, op: _ } => Reason::AccessFailed,
        _ => Reason::WriteFailed,
    }
}

/// There is no such group, or no such control file.
fn no_entry<'a>(told: Told<'a>) -> Option<Reason<'a>>
    ensures { IfSome result (IsSo told.entry.actor told.entry.command.now) }
{
    match told.command {
        Command::Group(path) => Some(Reason::NoParent(parent_of(path.as_str()))),
        Command::Set {
            path: _,
            file,
            text: _,
        } => no_file(told, file.as_str()),
        Command::Cat { path: _, file } => no_file(told, file.as_str()),
        Command::Protection {
            guard: _,
            target,
            path,
        } => { Some(no_target(told, target.as_str(), path.as_str())) }
        command => Some(Reason::NoGroup(path_of(command)?)),
    }
}

/// Only a write to `memory.reclaim` looks for its group again in a later turn.
fn no_file<'a>(told: Told<'a>, file: &'a str) -> Option<Reason<'a>>
    requires { file_in told.command.now ≡ Some file.now }
    ensures { IfSome result (IsSo told.entry.actor told.entry.command.now) }
{
    let Some(named) = file_named(file) else {
        return Some(unknown_file(told, file));
    };
    let path = path_of(told.command)?;
    if path == "/" && !has_file(GroupId::ROOT, named) {
        return Some(Reason::RootLacks(file));
    }
    if named == ControlFile::Reclaim && told.in_turns {
        return Some(Reason::NoGroupNow(path));
    }
    Some(Reason::NoGroup(path))
}

/// No group has a control file of this name. If memory for a search runs out, the message suggests no other name.
fn unknown_file<'a>(told: Told<'a>, file: &'a str) -> Reason<'a>
    requires so { file_in told.command.now ≡ Some file.now }
    requires unknown { file_named file.now ≡ None }
    ensures { IsSo told.entry.actor told.entry.command.now result }
{
    if is_of_linux(file) {
        return Reason::NotModelled(file);
    }
    match file_meant(told.alloc, file) {
        Ok(Some(near)) => Reason::NearFile(file, near),
        Ok(None) | Err(_) => Reason::NoControlFile(file),
    }
}

/// A group whose path continues the path of another is below it, if it exists. Then the other exists, too.
fn no_target<'a>(told: Told<'a>, target: &'a str, path: &'a str) -> Reason<'a>
    requires { path_in told.command.now ≡ Some path.now }
    ensures { IsSo told.entry.actor told.entry.command.now result }
{
    if is_below(target, path) {
        return Reason::NoGroup(path);
    }
    Reason::NotBelow { target, path }
}

/// Whether a path leads through another one.
fn is_below(target: &str, path: &str) -> bool {
    if target == "/" {
        return path != "/";
    }
    match path.strip_prefix(target) {
        Some(rest) => rest.starts_with('/'),
        None => false,
    }
}

/// A group keeps tasks or child groups, not both, and the root stays.
fn in_use<'a>(told: Told<'a>) -> Option<Reason<'a>>
    ensures { IfSome result (IsSo told.entry.actor told.entry.command.now) }
{
    match told.command {
        Command::Group(path) => Some(Reason::HasTasks(parent_of(path.as_str()))),
        Command::Rmdir(path) if path.as_str() == "/" => Some(Reason::RootStays),
        Command::Rmdir(path) => Some(Reason::InUse(path.as_str())),
        command => Some(Reason::HasGroups(path_of(command)?)),
    }
}

/// The number of groups, levels or tasks is the largest possible.
fn no_space<'a>(told: Told<'a>) -> Reason<'a>
    ensures { IsSo told.entry.actor told.entry.command.now result }
{
    match told.command {
        Command::Group(path) => {
            let levels = path.as_str().split('/').skip(1).count();
            if levels > MOST_LEVELS {
                Reason::TooDeep(levels)
            } else {
                Reason::GroupsFull
            }
        }
        _ => Reason::TasksFull,
    }
}

fn is_task_number(number: u32) -> bool
    ensures { result ≡ is_task_number number }
{
    1 <= number && number <= LAST_TASK
}

/// No such task lives. The command is a task's own line, or one that moves it.
fn no_task<'a>(told: Told<'a>) -> Option<Reason<'a>>
    ensures { IfSome result (IsSo told.entry.actor told.entry.command.now) }
{
    if let Command::Attach { task, path: _ } = told.command {
        if is_task_number(*task) {
            return Some(Reason::NoLiveTask(*task));
        }
        return Some(Reason::NoTaskNumber(*task));
    }
    match told.actor {
        Actor::Task(task) if is_task_number(task) => Some(Reason::NoTask(task)),
        Actor::Task(task) => Some(Reason::NoTaskNumber(task)),
        _ => None,
    }
}

/// There is no such page, or no such offset in it.
fn bad_place<'a>(told: Told<'a>) -> Option<Reason<'a>>
    ensures { IfSome result (IsSo told.entry.actor told.entry.command.now) }
{
    match told.command {
        Command::Free { page } if *page >= TASK_PAGES => Some(Reason::PagePast(*page)),
        Command::Access { place, op: _ } => match *place {
            Place::Virtual { page, offset: _ } if page >= TASK_PAGES => {
                Some(Reason::PagePast(page))
            }
            // The number of a file that does not exist is after all that there can be.
            Place::File {
                file,
                page: _,
                offset: _,
            } if file as usize >= MOST_FILES => Some(Reason::NoFile(name_in(told.line))),
            Place::Virtual { page: _, offset }
            | Place::File {
                file: _,
                page: _,
                offset,
            } if offset as usize >= PAGE_BYTES => Some(Reason::OffsetPast(offset)),
            Place::File {
                file: _,
                page,
                offset: _,
            } => Some(Reason::FilePagePast {
                name: name_in(told.line),
                page,
            }),
            Place::Virtual { page: _, offset: _ } => None,
        },
        _ => None,
    }
}

/// The name of the file in a line that reads or writes one.
fn name_in(line: &str) -> &str {
    let words = line.split(' ').flat_map(|part| part.split('\t'));
    let mut words = words.filter(|word| !word.is_empty());
    match words.find(|word| *word == "fread" || *word == "fwrite") {
        Some(_) => words.next().unwrap_or(""),
        None => "",
    }
}

/// A number or a text that is not possible.
fn invalid<'a>(told: Told<'a>) -> Option<Reason<'a>>
    ensures { IfSome result (IsSo told.entry.actor told.entry.command.now) }
{
    match told.command {
        Command::Group(path) => Some(Reason::NoPath(path.as_str())),
        Command::Task { task, path: _ } => no_number(told, *task),
        Command::Fork { child } => no_number(told, *child),
        Command::Cat { path: _, file } => Some(Reason::NotRead(file.as_str())),
        Command::Set {
            path: _,
            file,
            text,
        } => not_set(told, file.as_str(), text.as_str()),
        _ => None,
    }
}

fn no_number<'a>(told: Told<'a>, number: u32) -> Option<Reason<'a>>
    requires { number_in told.command.now ≡ Some number }
    ensures { IfSome result (IsSo told.entry.actor told.entry.command.now) }
{
    if is_task_number(number) {
        return None;
    }
    Some(Reason::NoTaskNumber(number))
}

/// The file is judged before the amount.
fn not_set<'a>(told: Told<'a>, file: &'a str, text: &'a str) -> Option<Reason<'a>>
    requires file { file_in told.command.now ≡ Some file.now }
    requires text { text_in told.command.now ≡ Some text.now }
    ensures { IfSome result (IsSo told.entry.actor told.entry.command.now) }
{
    match file_named(file) {
        Some(ControlFile::Max | ControlFile::Guard(_) | ControlFile::Reclaim) => {}
        Some(ControlFile::OomGroup) => return no_flag(told, text),
        _ => return Some(Reason::NotWritten(file)),
    }
    // Which texts are amounts does not depend on the page size.
    match parse_amount(PageSize::of_4k(), text) {
        Some(Amount::Max) => Some(Reason::MaxReclaimed),
        Some(Amount::Pages(_)) => None,
        None if is_written_out(text) => Some(Reason::AmountTooLarge(text)),
        None => Some(Reason::NoAmount(text)),
    }
}

/// A flag is written by one of two texts. What Linux's placement refuses, our own refuses too, so that the run's
/// placement does not matter here.
fn no_flag<'a>(told: Told<'a>, text: &'a str) -> Option<Reason<'a>>
    requires { text_in told.command.now ≡ Some text.now }
    ensures { IfSome result (IsSo told.entry.actor told.entry.command.now) }
{
    match parse_flag(Placement::Own, text) {
        Some(_) => None,
        None => Some(Reason::NoFlag(text)),
    }
}

/// Whether a text is a number as an amount has it, of any size, followed by at most one letter.
fn is_written_out(text: &str) -> bool {
    let digits = text.trim_end_matches(|letter: char| "KMGTkmgt".contains(letter));
    let letters = text.len().saturating_sub(digits.len());
    letters <= 1 && is_digits(digits) && (digits.len() == 1 || !digits.starts_with('0'))
}
