//! The words that lines begin with, and what follows each.

ghost use Rattle.std.specs.Prelude.{◌≡◌};
ghost use Rattle.scripts.specs.declared.forms.Word.{Word};
ghost use Rattle.scripts.specs.Forms.{row, header, header_many, shell, task, daemon, part, border, form_of, word_named, is_line, takes_line, may_stand, is_scheduled, actor_named, call_named};

use machine::command::Actor;
use machine::limit::{LAST_NUMBER, MOST_ENTRIES, MOST_FRAMES, MOST_SWAP};

/// Who says a word.
#[derive(Clone, Copy, PartialEq, Eq)]
pub enum Speaker {
    /// The shell: the word comes first.
    Shell,
    /// A task: the word comes after the task's number.
    Task,
}

/// What an argument has to be.
#[derive(Clone, Copy, PartialEq, Eq)]
pub enum Kind {
    /// A number from `least` to `most`, both included.
    Number { least: u32, most: u32 },
    /// A path of a group.
    Path,
    /// A name of a file.
    Name,
    /// An actor: a task's number, or a name.
    Actor,
    /// A call of the device.
    Call,
    /// An amount that a page may stand for.
    PageSize,
    /// Any word.
    Any,
    /// All that follows, which is a line of its own. It is the word's one argument.
    Line,
}

/// How a line is written.
#[derive(Clone, Copy, PartialEq, Eq)]
pub enum Manner {
    /// By itself.
    Whole,
    /// After `begin`.
    Begun,
}

/// A call of the device.
#[derive(Clone, Copy, PartialEq, Eq)]
pub enum DeviceCall {
    Read,
    Write,
}

/// A word that says what a line does.
#[derive(Clone, Copy, Debug, PartialEq, Eq)]
pub enum Word {
    Frames,
    Swap,
    File,
    Watermarks,
    Trace,
    Fault,
    RecursiveProtection,
    PageSize,
    Group,
    Rmdir,
    Task,
    Attach,
    Set,
    Cat,
    Protection,
    LowProtection,
    Write,
    Read,
    FileWrite,
    FileRead,
    Fork,
    Free,
    Exit,
    Daemon,
    Begin,
    Step,
    Finish,
    Go,
}

/// How a line with a word is written. This is one row of the table of words.
#[derive(Clone, Copy)]
pub struct Form {
    /// The word as it is written.
    pub name: &'static str,
    pub speaker: Speaker,
    /// What follows the word.
    pub arguments: &'static [Kind],
    /// The line comes before all that are not of the header.
    pub header: bool,
    /// The word comes at most once in a script.
    pub once: bool,
    /// The line may follow `begin`.
    pub begun: bool,
    /// The line is only for a schedule.
    pub scheduled: bool,
}

const FRAMES: Kind = Kind::Number {
    least: 1,
    most: MOST_FRAMES,
};

const BLOCKS: Kind = Kind::Number {
    least: 0,
    most: MOST_SWAP,
};

const ENTRIES: Kind = Kind::Number {
    least: 1,
    most: MOST_ENTRIES,
};

/// Pages of a file.
const PAGES: Kind = Kind::Number {
    least: 1,
    most: LAST_NUMBER,
};

/// Which call of its kind, counted from 1.
const COUNT: Kind = Kind::Number {
    least: 1,
    most: LAST_NUMBER,
};

const NUMBER: Kind = Kind::Number {
    least: 0,
    most: LAST_NUMBER,
};

const BYTE: Kind = Kind::Number {
    least: 0,
    most: 255,
};

fn header(name: &'static str, arguments: &'static [Kind]) -> Form
    ensures { row result ≡ header name.now arguments.now }
{
    Form {
        name,
        speaker: Speaker::Shell,
        arguments,
        header: true,
        once: true,
        begun: false,
        scheduled: false,
    }
}

/// A row for a line of the header that may be repeated.
fn header_many(name: &'static str, arguments: &'static [Kind]) -> Form
    ensures { row result ≡ header_many name.now arguments.now }
{
    Form {
        name,
        speaker: Speaker::Shell,
        arguments,
        header: true,
        once: false,
        begun: false,
        scheduled: false,
    }
}

fn shell(name: &'static str, arguments: &'static [Kind]) -> Form
    ensures { row result ≡ shell name.now arguments.now }
{
    Form {
        name,
        speaker: Speaker::Shell,
        arguments,
        header: false,
        once: false,
        begun: true,
        scheduled: false,
    }
}

fn task(name: &'static str, arguments: &'static [Kind]) -> Form
    ensures { row result ≡ task name.now arguments.now }
{
    Form {
        name,
        speaker: Speaker::Task,
        arguments,
        header: false,
        once: false,
        begun: true,
        scheduled: false,
    }
}

/// A row for the daemon's line.
fn daemon(name: &'static str, arguments: &'static [Kind]) -> Form
    ensures { row result ≡ daemon name.now arguments.now }
{
    Form {
        name,
        speaker: Speaker::Shell,
        arguments,
        header: false,
        once: false,
        begun: true,
        scheduled: true,
    }
}

/// A row for a line that does a part of what others do whole.
fn part(name: &'static str, arguments: &'static [Kind]) -> Form
    ensures { row result ≡ part name.now arguments.now }
{
    Form {
        name,
        speaker: Speaker::Shell,
        arguments,
        header: false,
        once: false,
        begun: false,
        scheduled: true,
    }
}

/// A row for a line that separates those before it from those after it.
fn border(name: &'static str, arguments: &'static [Kind]) -> Form
    ensures { row result ≡ border name.now arguments.now }
{
    Form {
        name,
        speaker: Speaker::Shell,
        arguments,
        header: false,
        once: false,
        begun: false,
        scheduled: false,
    }
}

impl Word {
    /// How a line with this word is written. This is the table of words.
    pub fn form(self) -> Form
        ensures { row result ≡ form_of self }
    {
        match self {
            Word::Frames => header("frames", &[FRAMES]),
            Word::Swap => header("swap", &[BLOCKS]),
            Word::File => header_many("file", &[Kind::Name, PAGES]),
            Word::Watermarks => header("watermarks", &[NUMBER, NUMBER]),
            Word::Trace => header("trace", &[ENTRIES]),
            Word::Fault => header_many("fault", &[Kind::Call, COUNT]),
            Word::RecursiveProtection => header_many("recursiveprot", &[]),
            Word::PageSize => header("page", &[Kind::PageSize]),
            Word::Group => shell("group", &[Kind::Path]),
            Word::Rmdir => shell("rmdir", &[Kind::Path]),
            Word::Task => shell("task", &[NUMBER, Kind::Path]),
            Word::Attach => shell("attach", &[NUMBER, Kind::Path]),
            Word::Set => shell("set", &[Kind::Path, Kind::Any, Kind::Any]),
            Word::Cat => shell("cat", &[Kind::Path, Kind::Any]),
            Word::Protection => shell("prot", &[Kind::Path, Kind::Path]),
            Word::LowProtection => shell("lowprot", &[Kind::Path, Kind::Path]),
            Word::Write => task("write", &[NUMBER, NUMBER, BYTE]),
            Word::Read => task("read", &[NUMBER, NUMBER]),
            Word::FileWrite => task("fwrite", &[Kind::Name, NUMBER, NUMBER, BYTE]),
            Word::FileRead => task("fread", &[Kind::Name, NUMBER, NUMBER]),
            Word::Fork => task("fork", &[NUMBER]),
            Word::Free => task("free", &[NUMBER]),
            Word::Exit => task("exit", &[]),
            Word::Daemon => daemon("daemon", &[]),
            Word::Begin => part("begin", &[Kind::Line]),
            Word::Step => part("step", &[Kind::Actor]),
            Word::Finish => part("finish", &[Kind::Actor]),
            Word::Go => border("go", &[]),
        }
    }
}

/// The task's word with this name.
fn word_of_task(text: &str) -> Option<Word>
    ensures { result ≡ word_named Speaker.Task text.now }
{
    match text {
        "write" => Some(Word::Write),
        "read" => Some(Word::Read),
        "fwrite" => Some(Word::FileWrite),
        "fread" => Some(Word::FileRead),
        "fork" => Some(Word::Fork),
        "free" => Some(Word::Free),
        "exit" => Some(Word::Exit),
        _ => None,
    }
}

/// The shell's word with this name.
fn word_of_shell(text: &str) -> Option<Word>
    ensures { result ≡ word_named Speaker.Shell text.now }
{
    match text {
        "frames" => Some(Word::Frames),
        "swap" => Some(Word::Swap),
        "file" => Some(Word::File),
        "watermarks" => Some(Word::Watermarks),
        "trace" => Some(Word::Trace),
        "fault" => Some(Word::Fault),
        "recursiveprot" => Some(Word::RecursiveProtection),
        "page" => Some(Word::PageSize),
        "group" => Some(Word::Group),
        "rmdir" => Some(Word::Rmdir),
        "task" => Some(Word::Task),
        "attach" => Some(Word::Attach),
        "set" => Some(Word::Set),
        "cat" => Some(Word::Cat),
        "prot" => Some(Word::Protection),
        "lowprot" => Some(Word::LowProtection),
        "daemon" => Some(Word::Daemon),
        "begin" => Some(Word::Begin),
        "step" => Some(Word::Step),
        "finish" => Some(Word::Finish),
        "go" => Some(Word::Go),
        _ => None,
    }
}

/// The speaker's word with this name.
pub fn word_named(speaker: Speaker, text: &str) -> Option<Word>
    ensures { result ≡ word_named speaker text.now }
{
    match speaker {
        Speaker::Shell => word_of_shell(text),
        Speaker::Task => word_of_task(text),
    }
}

fn is_line(arguments: &[Kind]) -> bool
    ensures { result ≡ is_line arguments.now }
{
    match arguments {
        [Kind::Line] => true,
        _ => false,
    }
}

/// Whether a line with the word may be written in this manner.
pub fn may_stand(manner: Manner, word: Word) -> bool
    ensures { result ≡ may_stand manner word }
{
    match manner {
        Manner::Whole => true,
        Manner::Begun => word.form().begun,
    }
}

/// Whether a line with the word, written in this manner, is only for a schedule. All lines after `begin` are.
pub fn is_scheduled(manner: Manner, word: Word) -> bool
    ensures { result ≡ is_scheduled manner word }
{
    match manner {
        Manner::Whole => word.form().scheduled,
        Manner::Begun => true,
    }
}

/// Whether the word is followed by a line of its own.
pub fn takes_line(word: Option<Word>) -> bool
    ensures { result ≡ takes_line word }
{
    match word {
        Some(word) => is_line(word.form().arguments),
        None => false,
    }
}

/// The actor with this name. A task has no name, but a number.
pub fn actor_named(text: &str) -> Option<Actor>
    ensures { result ≡ actor_named text.now }
{
    match text {
        "shell" => Some(Actor::Shell),
        "control" => Some(Actor::Control),
        "daemon" => Some(Actor::Daemon),
        _ => None,
    }
}

/// The call of the device with this name.
pub fn call_named(text: &str) -> Option<DeviceCall>
    ensures { result ≡ call_named text.now }
{
    match text {
        "read" => Some(DeviceCall::Read),
        "write" => Some(DeviceCall::Write),
        _ => None,
    }
}

/// A law: each word is found by its name. Therefore no two words of one speaker have the same name.
pub fn each_word_is_found()
    ensures { (w : Word) → word_named (form_of w).speaker (form_of w).name ≡ Some w }
{}
