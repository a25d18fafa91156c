//! Options and subcommands, as rows of tables.

use clap::{Arg, ArgAction, ArgGroup, Command, value_parser};
use std::alloc::{AllocError, Global};

/// What follows the name of an option, with the name that help gives it.
#[derive(Clone, Copy)]
pub enum Value {
    /// Nothing. The option is given or not.
    Absent,
    /// A text.
    Text(&'static str),
    /// A text. The option may be repeated.
    Texts(&'static str),
    /// `=` and a text, or nothing, which counts as an empty text. The option may be repeated.
    MaybeTexts(&'static str),
    /// A number below 2^32.
    Number(&'static str),
    /// A number below 2^64.
    LargeNumber(&'static str),
    /// A number from 1 to below 2^63.
    Count(&'static str),
    /// Numbers below 2^64, with commas between them.
    LargeNumbers(&'static str),
}

/// Which other options an option allows.
#[derive(Clone, Copy)]
pub enum Beside {
    /// All.
    Any,
    /// All but these.
    Without(&'static [&'static str]),
    /// All, and this one has to be given.
    With(&'static str),
    /// All, and one of those that say what is printed has to be given.
    Output,
}

/// An option of a subcommand.
#[derive(Clone, Copy)]
pub struct Row {
    /// The word after `--`.
    pub name: &'static str,
    pub value: Value,
    pub beside: Beside,
    pub help: &'static str,
}

/// How many files a subcommand is given.
#[derive(Clone, Copy)]
pub enum Files {
    One,
    /// One or more.
    Many,
}

/// A subcommand.
#[derive(Clone, Copy)]
pub struct Form {
    pub name: &'static str,
    pub about: &'static str,
    pub files: Files,
    pub file_help: &'static str,
    pub options: &'static [Row],
    /// The options of which only one may be given, since each prints something else.
    pub output: &'static [&'static str],
}

/// The name of a subcommand's files.
pub const FILE: &str = "FILE";

/// The name of the options of which only one may be given.
const OUTPUT: &str = "output";

/// An option, and what its value may be.
fn arg_of<'a>(alloc: Global, row: &Row) -> Arg<'a> {
    let arg = Arg::new(alloc, row.name).long(row.name).help(row.help);
    match row.value {
        Value::Absent => arg.action(ArgAction::SetTrue),
        Value::Text(name) => arg.action(ArgAction::Set).value_name(name),
        Value::Texts(name) => arg.action(ArgAction::Append).value_name(name),
        Value::MaybeTexts(name) => arg
            .action(ArgAction::Append)
            .num_args(0..=1)
            .require_equals(true)
            .default_missing_value("")
            .value_name(name),
        Value::Number(name) => arg
            .action(ArgAction::Set)
            .value_parser(value_parser!(u32))
            .value_name(name),
        Value::LargeNumber(name) => arg
            .action(ArgAction::Set)
            .value_parser(value_parser!(u64))
            .value_name(name),
        Value::Count(name) => arg
            .action(ArgAction::Set)
            .value_parser(value_parser!(u64).range(1..))
            .value_name(name),
        Value::LargeNumbers(name) => arg
            .action(ArgAction::Set)
            .value_delimiter(',')
            .value_parser(value_parser!(u64))
            .value_name(name),
    }
}

/// An option, with the options that it allows.
fn option_of<'a>(alloc: Global, row: &Row) -> Result<Arg<'a>, AllocError> {
    let arg = arg_of(alloc, row);
    match row.beside {
        Beside::Any => Ok(arg),
        Beside::Without(names) => arg.conflicts_with_all(names),
        Beside::With(name) => arg.requires_arg(name),
        Beside::Output => arg.requires_arg(OUTPUT),
    }
}

/// The files of a subcommand.
fn files_of<'a>(alloc: Global, form: &Form) -> Arg<'a> {
    let arg = Arg::new(alloc, FILE).required(true).help(form.file_help);
    match form.files {
        Files::One => arg.action(ArgAction::Set),
        Files::Many => arg.num_args(1..).action(ArgAction::Append),
    }
}

fn with_options<'a>(
    alloc: Global,
    mut command: Command<'a>,
    rows: &[Row],
) -> Result<Command<'a>, AllocError> {
    for row in rows {
        command = command.arg(option_of(alloc, row)?)?;
    }
    Ok(command)
}

/// A subcommand, with its files and its options.
fn subcommand_of<'a>(alloc: Global, form: &Form) -> Result<Command<'a>, AllocError> {
    let command = Command::new(alloc, form.name)
        .about(form.about)
        .arg(files_of(alloc, form))?;
    let command = with_options(alloc, command, form.options)?;
    if form.output.is_empty() {
        return Ok(command);
    }
    command.group(ArgGroup::new(alloc, OUTPUT).args(form.output)?)
}

/// A command with these subcommands.
pub fn with_subcommands<'a>(
    alloc: Global,
    mut command: Command<'a>,
    forms: &[Form],
) -> Result<Command<'a>, AllocError> {
    for form in forms {
        command = command.subcommand(subcommand_of(alloc, form)?)?;
    }
    Ok(command)
}
