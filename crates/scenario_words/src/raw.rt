//! Lines of a script, after `raw`.

ghost use Rattle.std.specs.Prelude.{◌≡◌, ◌+◌, ◌<◌, ◌≤◌, ◌^◌, length, is_some, IfSome};
ghost use Rattle.std.specs.List.{list_all};
ghost use Rattle.std.specs.Option.{option_map};
ghost use Rattle.machine.specs.Numbers.{is_numeral};
ghost use Rattle.scenario_words.specs.declared.raw.Kind.TheVariants.{Byte};
ghost use Rattle.scenario_words.specs.Faults.{Gives};
ghost use Rattle.scenario_words.specs.Raw.{number_of, in_word, is_one_word, is_actor, fits, shell_kinds, task_kinds, kind_form, kind_at, kinds_form, arguments_form, task_form, line_form, form_behind, raw_words, raw_form};

use crate::fault::{Cause, ExpandError};
use crate::word::{Filled, ends_at, word_at};
use text_forms::name::{is_name, is_path};
use text_forms::number::{is_digits, number_of};

/// What a word of a script's line is.
#[derive(Clone, Copy, Debug, PartialEq, Eq)]
enum Kind {
    Number,
    Byte,
    Path,
    File,
    Word,
    Actor,
}

fn byte_fits(text: &str) -> bool
    ensures { result ≡ fits Byte text.now }
{
    match number_of(text) {
        None => false,
        Some(number) => number <= 255,
    }
}

fn is_number(text: &str) -> bool
    ensures { result ≡ is_some (number_of text.now) }
{
    number_of(text).is_some()
}

fn in_word(byte: u8) -> bool
    ensures { result ≡ in_word byte }
{
    !(byte == b' ' || byte == b'\t' || byte == b'\n')
}

fn all_in_word(text: &str) -> bool
    ensures { result ≡ list_all in_word text.now }
{
    text.bytes().all(|byte| in_word(byte))
}

fn is_one_word(text: &str) -> bool
    ensures { result ≡ is_one_word text.now }
{
    !text.is_empty() && all_in_word(text)
}

fn is_actor(text: &str) -> bool
    ensures { result ≡ is_actor text.now }
{
    text == "shell" || text == "control" || text == "daemon" || is_number(text)
}

fn fits(kind: Kind, text: &str) -> bool
    ensures { result ≡ fits kind text.now }
{
    match kind {
        Kind::Number => is_number(text),
        Kind::Byte => byte_fits(text),
        Kind::Path => is_path(text),
        Kind::File => is_name(text),
        Kind::Word => is_one_word(text),
        Kind::Actor => is_actor(text),
    }
}

/// What follows a word of the shell's.
fn shell_kinds(word: &str, begun: bool) -> Option<&'static [Kind]>
    ensures kinds { option_map (λ kinds. kinds.now) result ≡ shell_kinds word.now begun }
    ensures few { IfSome result (λ kinds. length kinds.now ≤ 4) }
{
    match word {
        "group" | "rmdir" => Some(&[Kind::Path]),
        "task" | "attach" => Some(&[Kind::Number, Kind::Path]),
        "set" => Some(&[Kind::Path, Kind::Word, Kind::Word]),
        "cat" => Some(&[Kind::Path, Kind::Word]),
        "prot" | "lowprot" => Some(&[Kind::Path, Kind::Path]),
        "daemon" => Some(&[]),
        "step" | "finish" => { if begun { None } else { Some(&[Kind::Actor]) } }
        "go" => { if begun { None } else { Some(&[]) } }
        _ => None,
    }
}

/// What follows a word of a task's.
fn task_kinds(word: &str) -> Option<&'static [Kind]>
    ensures kinds { option_map (λ kinds. kinds.now) result ≡ task_kinds word.now }
    ensures few { IfSome result (λ kinds. length kinds.now ≤ 4) }
{
    match word {
        "write" => Some(&[Kind::Number, Kind::Number, Kind::Byte]),
        "read" => Some(&[Kind::Number, Kind::Number]),
        "fwrite" => Some(&[Kind::File, Kind::Number, Kind::Number, Kind::Byte]),
        "fread" => Some(&[Kind::File, Kind::Number, Kind::Number]),
        "fork" | "free" => Some(&[Kind::Number]),
        "exit" => Some(&[]),
        _ => None,
    }
}

fn check_kind(kind: Kind, word: &Filled) -> Result<(), ExpandError>
    ensures { Gives (λ x. x) result (kind_form kind word.now) }
{
    if fits(kind, word.text()) {
        Ok(())
    } else {
        Err(word.fault(Cause::Raw))
    }
}

/// The word at this place is of this kind.
fn check_kind_at(words: &[Filled], place: usize, kind: Kind) -> Result<(), ExpandError>
    ensures { Gives (λ x. x) result (kind_at words.now place kind) }
{
    let word = word_at(words, place)?;
    check_kind(kind, word)
}

fn check_kinds(words: &[Filled], place: usize, kinds: &[Kind]) -> Result<(), ExpandError>
    requires { place + length kinds.now < 2 ^ 64 }
    ensures { Gives (λ x. x) result (kinds_form words.now place kinds.now) }
{
    for (behind, kind) in kinds.iter().enumerate() {
        check_kind_at(words, place + behind, *kind)?;
    }
    ends_at(words, place + kinds.len())
}

/// What follows a word at this place, if it may have something after it.
fn check_arguments(
    words: &[Filled],
    place: usize,
    word: &Filled,
    kinds: Option<&[Kind]>,
) -> Result<(), ExpandError>
    requires place { place ≤ 3 }
    requires few { IfSome kinds (λ kinds. length kinds.now ≤ 4) }
    ensures { Gives (λ x. x) result (arguments_form words.now place word.now (option_map (λ kinds. kinds.now) kinds.entry)) }
{
    match kinds {
        None => Err(word.fault(Cause::Raw)),
        Some(kinds) => check_kinds(words, place + 1, kinds),
    }
}

/// A task's line, whose number is this word.
fn check_task(words: &[Filled], place: usize, word: &Filled) -> Result<(), ExpandError>
    requires { place ≤ 2 }
    ensures { Gives (λ x. x) result (task_form words.now place word.now) }
{
    if !is_number(word.text()) {
        return Err(word.fault(Cause::Raw));
    }
    let act = word_at(words, place + 1)?;
    check_arguments(words, place + 1, act, task_kinds(act.text()))
}

/// A line that begins at this place, and is begun or not.
fn check_line(words: &[Filled], place: usize, begun: bool) -> Result<(), ExpandError>
    requires { place ≤ 2 }
    ensures { Gives (λ x. x) result (line_form words.now place begun) }
{
    let word = word_at(words, place)?;
    if is_digits(word.text()) {
        check_task(words, place, word)
    } else {
        check_arguments(words, place, word, shell_kinds(word.text(), begun))
    }
}

/// The line after `raw`, or after `raw begin`, whose first word is this one.
fn check_behind(words: &[Filled], word: &Filled) -> Result<(), ExpandError>
    ensures { Gives (λ x. x) result (form_behind words.now word.now) }
{
    if word.text() == "begin" {
        check_line(words, 2, true)
    } else {
        check_line(words, 1, false)
    }
}

fn check_words(words: &[Filled]) -> Result<(), ExpandError>
    ensures { Gives (λ x. x) result (raw_words words.now) }
{
    let word = word_at(words, 1)?;
    check_behind(words, word)
}

/// Whether the words after `raw` are a line of a script that is allowed after its header.
#[tactic(auto, unfolding(crate::specs::Raw::raw_form))]
pub fn check_raw(words: &[Filled]) -> Result<(), ExpandError>
    ensures { Gives (λ x. x) result (raw_form words.now) }
{
    check_words(words)
}
