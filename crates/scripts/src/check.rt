//! Which fault a line with a known word has.

ghost use Rattle.std.specs.Prelude.{◌≡◌, ◌+◌, nat_lt, sum, length, fold, IfNone};
ghost use Rattle.std.specs.List.{list_any, zip};
ghost use Rattle.std.specs.Option.{option_map};
ghost use Rattle.machine.specs.State.{sizes_of};
ghost use Rattle.scripts.specs.Forms.{form_of};
ghost use Rattle.scripts.specs.Context.{around};
ghost use Rattle.scripts.specs.Faults.{word_fits, number_fits, name_fits, all_fit, task_fits, marks_fit, page_fits, names_again, files_full, blocks_with, first_of, word_faults, now};
ghost use Rattle.scripts.specs.Lines.{no_misfit, with_argument, header_faults};
ghost use Rattle.scripts.specs.Meaning.{has_name};

use crate::context::Context;
use crate::fault::Cause;
use crate::forms::{Kind, Manner, Word, actor_named, call_named, is_scheduled, may_stand};
use crate::meaning::{has_name, marks_of, number_value};
use crate::words::Token;
use control_files::parse_page_size;
use files::blocks_behind;
use machine::config::{Config, File};
use machine::limit::{MOST_BLOCKS, MOST_FILES};
use text_forms::name::{is_name, is_path};

pub fn word_fits(kind: Kind, word: &Token<'_>) -> bool
    ensures { result ≡ word_fits kind word.now }
{
    match kind {
        Kind::Actor => word.is_digits() || actor_named(word.text()).is_some(),
        Kind::Call => call_named(word.text()).is_some(),
        Kind::Number { .. } | Kind::Path | Kind::Name | Kind::PageSize => true,
        Kind::Any | Kind::Line => true,
    }
}

pub fn number_fits(kind: Kind, word: &Token<'_>) -> bool
    ensures { result ≡ number_fits kind word.now }
{
    match kind {
        Kind::Number { least, most } => match word.number() {
            Some(number) => least <= number && number <= most,
            None => false,
        },
        Kind::Actor => actor_named(word.text()).is_some() || word.number().is_some(),
        Kind::Path | Kind::Name | Kind::Call | Kind::PageSize => true,
        Kind::Any | Kind::Line => true,
    }
}

pub fn name_fits(kind: Kind, word: &Token<'_>) -> bool
    ensures { result ≡ name_fits kind word.now }
{
    match kind {
        Kind::Path => is_path(word.text()),
        Kind::Name => is_name(word.text()),
        Kind::Number { .. } | Kind::Actor | Kind::Call | Kind::PageSize => true,
        Kind::Any | Kind::Line => true,
    }
}

fn task_fits(task: Option<&Token<'_>>) -> bool
    ensures { result ≡ task_fits (option_map now task.entry) }
{
    match task {
        Some(word) => word.number().is_some(),
        None => true,
    }
}

/// Whether each argument is such a word, such a number and such a name as its place requires.
#[derive(Clone, Copy)]
struct Fits {
    words: bool,
    numbers: bool,
    names: bool,
}

fn with_argument(fits: Fits, kind: Kind, word: &Token<'_>) -> Fits
    ensures { result ≡ with_argument fits (kind, word.now) }
{
    match kind {
        Kind::Number { .. } => Fits {
            numbers: number_fits(kind, word) && fits.numbers,
            ..fits
        },
        Kind::Path | Kind::Name => Fits {
            names: name_fits(kind, word) && fits.names,
            ..fits
        },
        Kind::Actor => Fits {
            words: word_fits(kind, word) && fits.words,
            numbers: number_fits(kind, word) && fits.numbers,
            ..fits
        },
        Kind::Call => Fits {
            words: word_fits(kind, word) && fits.words,
            ..fits
        },
        Kind::PageSize | Kind::Any | Kind::Line => fits,
    }
}

/// One pass over the arguments.
fn with_all(kinds: &[Kind], words: &[Token<'_>]) -> Fits
    ensures { result ≡ fold with_argument no_misfit (zip kinds.now words.now) }
{
    let none = Fits {
        words: true,
        numbers: true,
        names: true,
    };
    kinds.iter().zip(words).fold(none, |fits, (kind, word)| with_argument(fits, *kind, word))
}

fn fits_of(kinds: &[Kind], words: &[Token<'_>]) -> Fits
    ensures words { result.words ≡ all_fit word_fits kinds.now words.now }
    ensures numbers { result.numbers ≡ all_fit number_fits kinds.now words.now }
    ensures names { result.names ≡ all_fit name_fits kinds.now words.now }
{
    with_all(kinds, words)
}

/// Whether the daemon's watermarks, if the line gives them, are in order and within the frames.
fn marks_fit(frames: u32, word: Word, arguments: &[Token<'_>]) -> bool
    requires { length arguments.now ≡ length (form_of word).arguments }
    ensures { result ≡ marks_fit frames word arguments.now }
{
    if word != Word::Watermarks {
        return true;
    }
    marks_of(&arguments[0], &arguments[1]).are_in_order(frames)
}

fn is_taken(files: &[File], name: &Token<'_>) -> bool
    ensures { result ≡ list_any (has_name name.now) files.now }
{
    files.iter().any(|file| has_name(name, file))
}

/// Whether the page size, if the line gives one, is one that a page may have.
fn page_fits(word: Word, arguments: &[Token<'_>]) -> bool
    requires { length arguments.now ≡ length (form_of word).arguments }
    ensures { result ≡ page_fits word arguments.now }
{
    word != Word::PageSize || parse_page_size(arguments[0].text()).is_some()
}

/// Whether the line gives a file a name that an earlier one has.
fn names_again(config: &Config, word: Word, arguments: &[Token<'_>]) -> bool
    requires { length arguments.now ≡ length (form_of word).arguments }
    ensures { result ≡ names_again config.now word arguments.now }
{
    if word != Word::File {
        return false;
    }
    is_taken(config.files.as_slice(), &arguments[0])
}

/// Whether the line asks for a file when there are already the most files that there can be.
fn files_full(config: &Config, word: Word) -> bool
    ensures { result ≡ files_full config.now word }
{
    word == Word::File && MOST_FILES <= config.files.as_slice().len()
}

/// Whether swap, these files and this number of pages are together more blocks than there can be.
fn too_many(swap: u32, files: &[File], pages: u32) -> bool
    ensures { result ≡ nat_lt MOST_BLOCKS (swap + sum (sizes_of files.now) + pages) }
{
    if swap > MOST_BLOCKS {
        return true;
    }
    match blocks_behind(swap, files) {
        Some(used) => pages > MOST_BLOCKS - used,
        None => true,
    }
}

/// Whether the line asks for blocks, and the header asks for too many up to this line.
fn blocks_full(config: &Config, word: Word, arguments: &[Token<'_>]) -> bool
    requires { length arguments.now ≡ length (form_of word).arguments }
    ensures { result ≡ nat_lt MOST_BLOCKS (blocks_with config.now word arguments.now) }
{
    let files = config.files.as_slice();
    match word {
        Word::Swap => too_many(number_value(&arguments[0]), files, 0),
        Word::File => too_many(config.swap, files, number_value(&arguments[1])),
        _ => false,
    }
}

/// The fault that a line has because of the lines before it, if it is of the header.
fn fault_of_header(context: &Context, word: Word, arguments: &[Token<'_>]) -> Option<Cause>
    requires { length arguments.now ≡ length (form_of word).arguments }
    ensures { result ≡ first_of (header_faults (around context.now) word arguments.now) }
{
    if !word.form().header {
        return None;
    }
    if context.is_late(word) {
        return Some(Cause::HeaderAfterCommands);
    }
    if context.is_repeated(word) || names_again(&context.config, word, arguments) {
        return Some(Cause::HeaderTwice);
    }
    if files_full(&context.config, word) {
        return Some(Cause::TooManyFiles);
    }
    if blocks_full(&context.config, word, arguments) {
        return Some(Cause::TooManyBlocks);
    }
    None
}

/// The first fault of a line with this word. The word comes after a task's number, if there is one.
pub fn fault_of_word(
    context: &Context,
    manner: Manner,
    task: Option<&Token<'_>>,
    word: Word,
    arguments: &[Token<'_>],
) -> Option<Cause>
    ensures fault { result ≡ first_of (word_faults context.now.mode (around context.now) manner (option_map now task.entry) word arguments.now) }
    ensures count { IfNone result (length arguments.now ≡ length (form_of word).arguments) }
{
    let kinds = word.form().arguments;
    let fits = fits_of(kinds, arguments);
    if !may_stand(manner, word) || !fits.words {
        return Some(Cause::UnknownWord);
    }
    if arguments.len() < kinds.len() {
        return Some(Cause::MissingArgument);
    }
    if arguments.len() > kinds.len() {
        return Some(Cause::ExtraArgument);
    }
    if !task_fits(task) || !fits.numbers {
        return Some(Cause::BadNumber);
    }
    if !marks_fit(context.frames, word, arguments) {
        return Some(Cause::BadNumber);
    }
    if !page_fits(word, arguments) {
        return Some(Cause::BadPageSize);
    }
    if !fits.names {
        return Some(Cause::BadName);
    }
    if let Some(cause) = fault_of_header(context, word, arguments) {
        return Some(cause);
    }
    if is_scheduled(manner, word) && context.mode.is_run() {
        return Some(Cause::OnlyInSchedule);
    }
    None
}
