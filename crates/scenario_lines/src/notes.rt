//! Lines that ask and expect: `show`, `mark` and `expect`.

ghost use Rattle.std.specs.Prelude.{◌≡◌, ◌<◌, drop};
ghost use Rattle.scenario_words.specs.Faults.{Gives, GivesAlways, as_is};
ghost use Rattle.scenario_lines.specs.Notes.{note, show_line, groups_form, mark_line, is_operator, events_form, size_form, number_form, compared_form, is_amount, is_event, key_form, group_form, each_task, tasks_form, nobody_form, refused_form, expect_form, expect_line};

use crate::burst::{Burst, Deed};
use crate::joined::joined;
use crate::scene::Scene;
use machine::text::Text;
use scenario_words::amount::{number_within, size_of};
use scenario_words::fault::{Cause, ExpandError};
use scenario_words::paths::is_path;
use scenario_words::word::{Filled, ends_at, expect_at, is_at, word_at};

/// The words of such a line, as they are written.
fn note(scene: &Scene, words: &[Filled]) -> Result<Burst, ExpandError>
    ensures { GivesAlways as_is result (note words.now) }
{
    let text = Text::new(joined(scene.alloc, words, 0, true)?);
    Ok(Burst::new(Deed::Note(text)))
}

/// Each word is a group below the root.
fn check_groups(scene: &Scene, words: &[Filled]) -> Result<(), ExpandError>
    ensures { Gives as_is result (groups_form scene.now words.now) }
{
    for word in words {
        scene.group_below_root(word)?;
    }
    Ok(())
}

/// `show PATH ..`.
pub fn show(scene: &Scene, words: &[Filled]) -> Result<Burst, ExpandError>
    ensures { Gives as_is result (show_line scene.now words.now) }
{
    check_groups(scene, words.get(1..).unwrap_or(&[]))?;
    note(scene, words)
}

/// `mark TEXT`.
pub fn mark(scene: &Scene, words: &[Filled]) -> Result<Burst, ExpandError>
    ensures { GivesAlways as_is result (mark_line words.now) }
{
    note(scene, words)
}

fn is_operator(words: &[Filled], place: usize) -> bool
    ensures { result ≡ is_operator words.now place }
{
    is_at(words, place, "=") || is_at(words, place, ">=") || is_at(words, place, "<=")
}

/// A number of events.
fn check_events(words: &[Filled], place: usize) -> Result<(), ExpandError>
    requires { place < 8 }
    ensures { Gives as_is result (events_form words.now place) }
{
    number_within(word_at(words, place)?, 0, u64::MAX)?;
    ends_at(words, place + 1)
}

fn check_size(words: &[Filled], place: usize) -> Result<(), ExpandError>
    requires { place < 8 }
    ensures { Gives as_is result (size_form words.now place) }
{
    size_of(word_at(words, place)?)?;
    ends_at(words, place + 1)
}

/// A number of events or a size.
fn check_number(words: &[Filled], place: usize, events: bool) -> Result<(), ExpandError>
    requires { place < 8 }
    ensures { Gives as_is result (number_form words.now place events) }
{
    if events {
        check_events(words, place)
    } else {
        check_size(words, place)
    }
}

/// The same, with an operator before it or not.
fn check_compared(words: &[Filled], place: usize, events: bool) -> Result<(), ExpandError>
    requires { place < 7 }
    ensures { Gives as_is result (compared_form words.now place events) }
{
    if is_operator(words, place) {
        check_number(words, place + 1, events)
    } else {
        check_number(words, place, events)
    }
}

fn is_amount(word: &Filled) -> bool
    ensures { result ≡ is_amount word.now }
{
    word.is("current") || word.is("anon") || word.is("file")
}

fn is_event(word: &Filled) -> bool
    ensures { result ≡ is_event word.now }
{
    word.is("events.low")
        || word.is("events.max")
        || word.is("events.oom")
        || word.is("events.oom_kill")
        || word.is("events.oom_group_kill")
}

/// The key of a group, and what follows it.
fn check_key(words: &[Filled], key: &Filled) -> Result<(), ExpandError>
    ensures { Gives as_is result (key_form words.now key.now) }
{
    if is_amount(key) {
        check_compared(words, 3, false)
    } else if is_event(key) {
        check_compared(words, 3, true)
    } else {
        Err(key.fault(Cause::NotExpected))
    }
}

fn check_group(scene: &Scene, words: &[Filled], word: &Filled) -> Result<(), ExpandError>
    ensures { Gives as_is result (group_form scene.now words.now word.now) }
{
    scene.group_below_root(word)?;
    check_key(words, word_at(words, 2)?)
}

/// Each word is a task.
fn check_each_task(scene: &Scene, words: &[Filled]) -> Result<(), ExpandError>
    ensures { Gives as_is result (each_task scene.now words.now) }
{
    for word in words {
        scene.task_there(word)?;
    }
    Ok(())
}

/// The words from the third on are tasks, and there is one.
fn check_tasks(scene: &Scene, words: &[Filled]) -> Result<(), ExpandError>
    ensures { Gives as_is result (tasks_form scene.now words.now) }
{
    word_at(words, 2)?;
    check_each_task(scene, words.get(2..).unwrap_or(&[]))
}

/// `expect nobody killed`.
fn check_nobody(words: &[Filled]) -> Result<(), ExpandError>
    ensures { Gives as_is result (nobody_form words.now) }
{
    expect_at(words, 2, "killed")?;
    ends_at(words, 3)
}

/// `expect refused WORD`.
fn check_refused(words: &[Filled], word: &Filled, above: bool) -> Result<(), ExpandError>
    ensures { Gives as_is result (refused_form words.now word.now above) }
{
    word_at(words, 2)?;
    if !above {
        return Err(word.fault(Cause::NothingAbove));
    }
    ends_at(words, 3)
}

/// What is expected, which begins with this word.
fn check_expected(
    scene: &Scene,
    words: &[Filled],
    above: bool,
    word: &Filled,
) -> Result<(), ExpandError>
    ensures { Gives as_is result (expect_form scene.now words.now above word.now) }
{
    if is_path(word) {
        return check_group(scene, words, word);
    }
    if word.is("in") || word.is("out") || word.is("dropped") {
        return check_compared(words, 2, false);
    }
    if word.is("killed") || word.is("alive") {
        return check_tasks(scene, words);
    }
    if word.is("nobody") {
        return check_nobody(words);
    }
    if word.is("refused") {
        return check_refused(words, word, above);
    }
    Err(word.fault(Cause::NotExpected))
}

/// `expect`; whether a line that could be refused is right above.
pub fn expect(scene: &Scene, words: &[Filled], above: bool) -> Result<Burst, ExpandError>
    ensures { Gives as_is result (expect_line scene.now words.now above) }
{
    check_expected(scene, words, above, word_at(words, 1)?)?;
    note(scene, words)
}
