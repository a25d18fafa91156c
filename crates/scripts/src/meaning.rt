//! What the words of a line say.

ghost use Rattle.std.specs.Prelude.{◌≡◌, position, length, IfOk};
ghost use Rattle.std.specs.Option.{option_map};
ghost use Rattle.machine.specs.declared.command.Command.TheVariants.{Protection};
ghost use Rattle.scripts.specs.declared.meaning.Item.TheVariants.{Does};
ghost use Rattle.scripts.specs.Forms.{form_of};
ghost use Rattle.scripts.specs.Faults.{now};
ghost use Rattle.scripts.specs.Meaning.{number_value, byte_value, actor_of, actor_value, call_value, page_value, marks_of, access_to, has_name, file_number, file_access_to, file_of, word_means};
ghost use Rattle.scripts.specs.Lines.{as_it_stands, Reads};

use crate::fault::LineError;
use crate::forms::{DeviceCall, Manner, Word, actor_named, call_named};
use crate::words::Token;
use control_files::parse_page_size;
use machine::command::{Actor, Command};
use machine::config::{File, Watermarks};
use machine::event::{Op, Place};
use machine::limit::MOST_FILES;
use machine::page_size::PageSize;
use machine::record::Guard;
use machine::text::Text;
use std::alloc::{AllocError, Global};

/// What a line says.
#[derive(Drop)]
pub enum Item {
    /// Nothing: the line is skipped.
    Nothing,
    /// This number of page frames.
    Frames(u32),
    /// This number of swap blocks.
    Swap(u32),
    /// A file.
    File(File),
    /// The daemon's watermarks.
    Marks(Watermarks),
    /// This call of the device fails, counted from 1 among the calls of its kind.
    Trace(u32),
    /// Protection is recursive.
    Fails(DeviceCall, u32),
    /// Protection is recursive.
    Recursive,
    /// A page stands for this number of bytes.
    PageSize(PageSize),
    /// The actor does this, from its beginning to its end.
    Does(Actor, Command),
    /// The actor begins this.
    Begins(Actor, Command),
    /// One turn of the actor's command.
    Advances(Actor),
    /// Turns of the actor's command until it is answered.
    Finishes(Actor),
    /// The setup ends here, if the script is read to be run on threads.
    EndsSetup,
}

pub fn number_value(word: &Token<'_>) -> u32
    ensures { result ≡ number_value word.now }
{
    word.number().unwrap_or(0)
}

fn byte_value(word: &Token<'_>) -> u8
    ensures { result ≡ byte_value word.now }
{
    match word.number() {
        Some(number) if number < 256 => number as u8,
        _ => 0,
    }
}

fn text_of(alloc: Global, word: &Token<'_>) -> Result<Text, AllocError>
    ensures { IfOk result (λ text. text ≡ word.now) }
{
    Ok(Text::new(String::from_str(alloc, word.text())?))
}

fn actor_of(task: Option<&Token<'_>>) -> Actor
    ensures { result ≡ actor_of (option_map now task.entry) }
{
    match task {
        Some(number) => Actor::Task(number_value(number)),
        None => Actor::Shell,
    }
}

fn actor_value(word: &Token<'_>) -> Actor
    ensures { result ≡ actor_value word.now }
{
    actor_named(word.text()).unwrap_or(Actor::Task(number_value(word)))
}

fn call_value(word: &Token<'_>) -> DeviceCall
    ensures { result ≡ call_value word.now }
{
    call_named(word.text()).unwrap_or(DeviceCall::Read)
}

fn page_value(word: &Token<'_>) -> PageSize
    ensures { result ≡ page_value word.now }
{
    parse_page_size(word.text()).unwrap_or(PageSize::of_4k())
}

pub fn marks_of(low: &Token<'_>, high: &Token<'_>) -> Watermarks
    ensures { result ≡ marks_of low.now high.now }
{
    Watermarks {
        low: number_value(low),
        high: number_value(high),
    }
}

fn protection(
    alloc: Global,
    guard: Guard,
    target: &Token<'_>,
    path: &Token<'_>,
) -> Result<Command, AllocError>
    ensures { IfOk result (λ command. command ≡ Protection guard target.now path.now) }
{
    Ok(Command::Protection {
        guard,
        target: text_of(alloc, target)?,
        path: text_of(alloc, path)?,
    })
}

fn access_to(page: &Token<'_>, offset: &Token<'_>, op: Op) -> Command
    ensures { result ≡ access_to page.now offset.now op }
{
    let place = Place::Virtual {
        page: number_value(page),
        offset: number_value(offset),
    };
    Command::Access { place, op }
}

pub fn has_name(name: &Token<'_>, file: &File) -> bool
    ensures { result ≡ has_name name.now file.now }
{
    file.name.as_str() == name.text()
}

fn place_of(files: &[File], name: &Token<'_>) -> Option<usize>
    ensures { result ≡ position (has_name name.now) files.now }
{
    files.iter().position(|file| has_name(name, file))
}

fn file_number(files: &[File], name: &Token<'_>) -> u32
    ensures { result ≡ file_number files.now name.now }
{
    let place = place_of(files, name).unwrap_or(MOST_FILES);
    place.min(MOST_FILES) as u32
}

fn file_access_to(
    files: &[File],
    name: &Token<'_>,
    page: &Token<'_>,
    offset: &Token<'_>,
    op: Op,
) -> Command
    ensures { result ≡ file_access_to files.now name.now page.now offset.now op }
{
    let place = Place::File {
        file: file_number(files, name),
        page: number_value(page),
        offset: number_value(offset),
    };
    Command::Access { place, op }
}

fn file_of(alloc: Global, name: &Token<'_>, pages: &Token<'_>) -> Result<File, AllocError>
    ensures { IfOk result (λ file. file ≡ file_of name.now pages.now) }
{
    Ok(File {
        name: text_of(alloc, name)?,
        pages: number_value(pages),
    })
}

/// The item for this command of the actor, whole or only begun as the line is written. If it is only begun, `control`
/// begins it in place of the shell.
fn done_by(manner: Manner, actor: Actor, command: Command) -> Item
    ensures { result ≡ as_it_stands manner (Does actor command) }
{
    match manner {
        Manner::Whole => Item::Does(actor, command),
        Manner::Begun => match actor {
            Actor::Shell => Item::Begins(Actor::Control, command),
            Actor::Control | Actor::Daemon | Actor::Task(_) => Item::Begins(actor, command),
        },
    }
}

/// What a line with this word says, as it is written, if the header has these files. The word comes after a task's
/// number, if there is one.
pub fn item_of_word(
    alloc: Global,
    files: &[File],
    manner: Manner,
    task: Option<&Token<'_>>,
    word: Word,
    arguments: &[Token<'_>],
) -> Result<Item, LineError>
    requires { length arguments.now ≡ length (form_of word).arguments }
    ensures { Reads result None (as_it_stands manner (word_means files.now (option_map now task.entry) word arguments.now)) }
{
    let command = match word {
        Word::Frames => return Ok(Item::Frames(number_value(&arguments[0]))),
        Word::Swap => return Ok(Item::Swap(number_value(&arguments[0]))),
        Word::File => {
            return Ok(Item::File(file_of(alloc, &arguments[0], &arguments[1])?));
        }
        Word::Watermarks => return Ok(Item::Marks(marks_of(&arguments[0], &arguments[1]))),
        Word::Trace => return Ok(Item::Trace(number_value(&arguments[0]))),
        Word::Fault => {
            let call = call_value(&arguments[0]);
            return Ok(Item::Fails(call, number_value(&arguments[1])));
        }
        Word::RecursiveProtection => return Ok(Item::Recursive),
        Word::PageSize => return Ok(Item::PageSize(page_value(&arguments[0]))),
        Word::Group => Command::Group(text_of(alloc, &arguments[0])?),
        Word::Rmdir => Command::Rmdir(text_of(alloc, &arguments[0])?),
        Word::Task => Command::Task {
            task: number_value(&arguments[0]),
            path: text_of(alloc, &arguments[1])?,
        },
        Word::Attach => Command::Attach {
            task: number_value(&arguments[0]),
            path: text_of(alloc, &arguments[1])?,
        },
        Word::Set => Command::Set {
            path: text_of(alloc, &arguments[0])?,
            file: text_of(alloc, &arguments[1])?,
            text: text_of(alloc, &arguments[2])?,
        },
        Word::Cat => Command::Cat {
            path: text_of(alloc, &arguments[0])?,
            file: text_of(alloc, &arguments[1])?,
        },
        Word::Protection => protection(alloc, Guard::Min, &arguments[0], &arguments[1])?,
        Word::LowProtection => protection(alloc, Guard::Low, &arguments[0], &arguments[1])?,
        Word::Write => {
            let byte = byte_value(&arguments[2]);
            access_to(&arguments[0], &arguments[1], Op::Write(byte))
        }
        Word::Read => access_to(&arguments[0], &arguments[1], Op::Read),
        Word::FileWrite => {
            let byte = byte_value(&arguments[3]);
            file_access_to(
                files,
                &arguments[0],
                &arguments[1],
                &arguments[2],
                Op::Write(byte),
            )
        }
        Word::FileRead => {
            file_access_to(files, &arguments[0], &arguments[1], &arguments[2], Op::Read)
        }
        Word::Fork => Command::Fork {
            child: number_value(&arguments[0]),
        },
        Word::Free => Command::Free {
            page: number_value(&arguments[0]),
        },
        Word::Exit => Command::Exit,
        Word::Daemon => return Ok(done_by(manner, Actor::Daemon, Command::Daemon)),
        // The line after it says what is begun.
        Word::Begin => return Ok(Item::Nothing),
        Word::Step => return Ok(Item::Advances(actor_value(&arguments[0]))),
        Word::Finish => return Ok(Item::Finishes(actor_value(&arguments[0]))),
        Word::Go => return Ok(Item::EndsSetup),
    };
    Ok(done_by(manner, actor_of(task), command))
}
