//! Lines of a scenario that open no block.

ghost use Rattle.std.specs.Prelude.{◌≡◌, ◌≤◌, ◌-◌, ◌+◌, ◌∷◌, [], decimal, length, slice_get, IfOk};
ghost use Rattle.std.specs.String.{string_bytes};
ghost use Rattle.scenario_words.specs.Faults.{Gives, as_is};
ghost use Rattle.scenario_lines.specs.Scene.{let_line};
ghost use Rattle.scenario_lines.specs.LineLists.{by_shell, bound_bytes, bound_text, control_file, switch_text, limit_text, value_text, set_at, sets_from, onto_lists, key_count, group_line, set_line, reclaim_line, rmdir_line, start_in, alone_in, starts_from, starts_by, not_all, task_line, attaches, attach_line, raw_line, daemon_line, acts_from, acts_line, single_line, named_value, word_line, line_by, line_lists, word_together, third_together, act_together, together_form, may_be_refused};

use crate::acts::act_of;
use crate::burst::{Burst, Deed};
use crate::joined::joined;
use crate::notes::{expect, mark, show};
use crate::scene::Scene;
use machine::command::{Actor, Command};
use machine::text::Text;
use scenario_words::amount::{Purpose, pages_of};
use scenario_words::fault::{Cause, ExpandError};
use scenario_words::paths::Path;
use scenario_words::raw::check_raw;
use scenario_words::task_names::{Index, TaskNames, task_names};
use scenario_words::word::{
    Filled, ends_at, expect_at, is_header_word, is_language, is_line_word, word_at,
};
use std::alloc::{AllocError, Global};

/// Bytes of a script's page.
const SCRIPT_PAGE: u64 = 4_096;

/// One command of the shell.
fn by_shell(command: Command) -> Burst
    ensures { result ≡ by_shell command }
{
    Burst::new(Deed::Command(Actor::Shell, command))
}

fn text_of(alloc: Global, text: &str) -> Result<Text, AllocError>
    ensures { IfOk result (λ copy. copy ≡ text.now) }
{
    Ok(Text::new(String::from_str(alloc, text)?))
}

/// A bound in bytes: a page of the script has 4,096.
fn bound_bytes(pages: u64) -> u64
    ensures { result ≡ bound_bytes pages }
{
    pages.saturating_mul(SCRIPT_PAGE)
}

/// A number in decimal.
fn decimal_text(alloc: Global, number: u64) -> Result<Text, AllocError>
    ensures { IfOk result (λ text. text ≡ decimal number) }
{
    Ok(Text::new(format!(in alloc; "{number}")?))
}

/// A bound in the script's bytes.
fn bound_text(scene: &Scene, word: &Filled) -> Result<Text, ExpandError>
    ensures { Gives as_is result (bound_text scene.now word.now) }
{
    let pages = pages_of(word, Purpose::Bound, scene.page())?;
    Ok(decimal_text(scene.alloc, bound_bytes(pages))?)
}

/// `0` or `1`.
fn switch_text(scene: &Scene, word: &Filled) -> Result<Text, ExpandError>
    ensures { Gives as_is result (switch_text word.now) }
{
    if word.is("0") || word.is("1") {
        return Ok(text_of(scene.alloc, word.text())?);
    }
    Err(word.fault(Cause::NotExpected))
}

/// `max`, or a bound.
fn limit_text(scene: &Scene, word: &Filled) -> Result<Text, ExpandError>
    ensures { Gives as_is result (limit_text scene.now word.now) }
{
    if word.is("max") {
        return Ok(text_of(scene.alloc, "max")?);
    }
    bound_text(scene, word)
}

/// What is written to a control file.
fn value_text(scene: &Scene, file: &str, word: &Filled) -> Result<Text, ExpandError>
    ensures { Gives as_is result (value_text scene.now file.now word.now) }
{
    if file == "memory.oom.group" {
        return switch_text(scene, word);
    }
    limit_text(scene, word)
}

/// The control file of a key. The key's name may begin with `memory.`.
fn control_file(word: &Filled) -> Result<&'static str, ExpandError>
    ensures { Gives (λ file. file.now) result (control_file word.now) }
{
    if word.is("max") || word.is("memory.max") {
        return Ok("memory.max");
    }
    if word.is("min") || word.is("memory.min") {
        return Ok("memory.min");
    }
    if word.is("low") || word.is("memory.low") {
        return Ok("memory.low");
    }
    if word.is("oom.group") || word.is("memory.oom.group") {
        return Ok("memory.oom.group");
    }
    Err(word.fault(Cause::NotExpected))
}

/// A key at this place, and its value after it.
fn set_at(scene: &Scene, words: &[Filled], place: usize, path: &Path) -> Result<Burst, ExpandError>
    requires { place ≤ 2 + length words.now }
    ensures { Gives as_is result (set_at scene.now words.now place path.now) }
{
    let file = control_file(word_at(words, place)?)?;
    let text = value_text(scene, file, word_at(words, place + 1)?)?;
    Ok(by_shell(Command::Set {
        path: scene.script_path(path)?,
        file: text_of(scene.alloc, file)?,
        text,
    }))
}

/// The same for each key, after a first list.
fn sets(
    scene: &Scene,
    words: &[Filled],
    path: &Path,
    first: Burst,
) -> Result<Vec<Burst>, ExpandError>
    ensures { Gives (λ bursts. bursts.items) result (onto_lists (first ∷ []) (sets_from scene.now words.now path.now 2 (key_count words.now))) }
{
    let mut bursts = vec![in scene.alloc; first]?;
    let keys = words.len().saturating_sub(1) / 2;
    for key in 0..keys {
        bursts.push(set_at(scene, words, 2 + 2 * key, path)?)?;
    }
    Ok(bursts)
}

/// `group`, and a `set` for each key.
fn group(scene: &mut Scene, words: &[Filled]) -> Result<Vec<Burst>, ExpandError>
    ensures { Gives (λ bursts. (bursts.items, scene.new)) result (group_line scene.old words.now) }
{
    let path = scene.make_group(word_at(words, 1)?)?;
    let first = by_shell(Command::Group(scene.script_path(&path)?));
    sets(scene, words, &path, first)
}

fn set(scene: &Scene, words: &[Filled]) -> Result<Burst, ExpandError>
    ensures { Gives as_is result (set_line scene.now words.now) }
{
    let path = scene.group_there(word_at(words, 1)?)?;
    let burst = set_at(scene, words, 2, &path)?;
    ends_at(words, 4)?;
    Ok(burst)
}

fn reclaim(scene: &Scene, words: &[Filled]) -> Result<Burst, ExpandError>
    ensures { Gives as_is result (reclaim_line scene.now words.now) }
{
    let path = scene.group_there(word_at(words, 1)?)?;
    let text = bound_text(scene, word_at(words, 2)?)?;
    ends_at(words, 3)?;
    Ok(by_shell(Command::Set {
        path: scene.script_path(&path)?,
        file: text_of(scene.alloc, "memory.reclaim")?,
        text,
    }))
}

fn rmdir(scene: &mut Scene, words: &[Filled]) -> Result<Burst, ExpandError>
    ensures { Gives (λ burst. (burst, scene.new)) result (rmdir_line scene.old words.now) }
{
    let word = word_at(words, 1)?;
    scene.group_below_root(word)?;
    ends_at(words, 2)?;
    let path = scene.remove_group(word)?;
    Ok(by_shell(Command::Rmdir(scene.script_path(&path)?)))
}

/// Starts a task in the group of a script's path.
fn start(
    scene: &mut Scene,
    word: &Filled,
    name: &str,
    index: Option<u64>,
    path: &Text,
) -> Result<Burst, ExpandError>
    ensures { Gives (λ burst. (burst, scene.new)) result (start_in scene.old word.now name.now index path.now) }
{
    let task = scene.start_task(word, name, index)?;
    Ok(by_shell(Command::Task {
        task,
        path: path.copy(scene.alloc)?,
    }))
}

/// Starts one task.
fn start_alone(
    scene: &mut Scene,
    word: &Filled,
    name: &str,
    index: Option<u64>,
    path: &Text,
) -> Result<Vec<Burst>, ExpandError>
    ensures { Gives (λ bursts. (bursts.items, scene.new)) result (alone_in (start_in scene.old word.now name.now index path.now)) }
{
    let burst = start(scene, word, name, index, path)?;
    Ok(vec![in scene.alloc; burst]?)
}

/// Starts those of a name from one number to another.
fn start_between(
    scene: &mut Scene,
    word: &Filled,
    name: &str,
    first: u64,
    last: u64,
    path: &Text,
) -> Result<Vec<Burst>, ExpandError>
    ensures { Gives (λ bursts. (bursts.items, scene.new)) result (starts_from scene.old word.now name.now path.now first (last + 1 - first)) }
{
    let mut bursts = Vec::new(scene.alloc);
    for number in first..=last {
        bursts.push(start(scene, word, name, Some(number), path)?)?;
    }
    Ok(bursts)
}

/// Starts the tasks that these names are.
fn start_all(
    scene: &mut Scene,
    word: &Filled,
    names: &TaskNames,
    path: &Text,
) -> Result<Vec<Burst>, ExpandError>
    ensures { Gives (λ bursts. (bursts.items, scene.new)) result (starts_by scene.old word.now (string_bytes names.now.name) names.now.index path.now) }
{
    let name = names.name.as_str();
    match names.index {
        Index::Plain => start_alone(scene, word, name, None, path),
        Index::One(number) => start_alone(scene, word, name, Some(number), path),
        Index::Range(first, last) => start_between(scene, word, name, first, last, path),
        Index::All => Err(word.fault(Cause::Name)),
    }
}

/// `NAME[*]` starts nothing.
fn check_not_all(word: &Filled, index: Index) -> Result<(), ExpandError>
    ensures { Gives as_is result (not_all word.now index) }
{
    match index {
        Index::Plain => Ok(()),
        Index::One(_) => Ok(()),
        Index::Range(_, _) => Ok(()),
        Index::All => Err(word.fault(Cause::Name)),
    }
}

fn task(scene: &mut Scene, words: &[Filled]) -> Result<Vec<Burst>, ExpandError>
    ensures { Gives (λ bursts. (bursts.items, scene.new)) result (task_line scene.old words.now) }
{
    let word = word_at(words, 1)?;
    let names = task_names(scene.alloc, word)?;
    check_not_all(word, names.index)?;
    expect_at(words, 2, "in")?;
    let path = scene.group_there(word_at(words, 3)?)?;
    ends_at(words, 4)?;
    let path = scene.script_path(&path)?;
    start_all(scene, word, &names, &path)
}

/// Moves each of these tasks to the group of a script's path.
fn attaches(alloc: Global, tasks: &[u32], path: &Text) -> Result<Vec<Burst>, AllocError>
    ensures { IfOk result (λ bursts. bursts.items ≡ attaches path.now tasks.now) }
{
    let mut bursts = Vec::new(alloc);
    for task in tasks {
        bursts.push(by_shell(Command::Attach {
            task: *task,
            path: path.copy(alloc)?,
        }))?;
    }
    Ok(bursts)
}

fn attach(scene: &Scene, words: &[Filled]) -> Result<Vec<Burst>, ExpandError>
    ensures { Gives (λ bursts. bursts.items) result (attach_line scene.now words.now) }
{
    let tasks = scene.tasks_there(word_at(words, 1)?)?;
    let path = scene.group_there(word_at(words, 2)?)?;
    ends_at(words, 3)?;
    let path = scene.script_path(&path)?;
    Ok(attaches(scene.alloc, tasks.as_slice(), &path)?)
}

fn raw(scene: &Scene, words: &[Filled]) -> Result<Burst, ExpandError>
    ensures { Gives as_is result (raw_line words.now) }
{
    check_raw(words)?;
    let text = Text::new(joined(scene.alloc, words, 1, false)?);
    Ok(Burst::new(Deed::Raw(text)))
}

fn daemon(words: &[Filled]) -> Result<Burst, ExpandError>
    ensures { Gives as_is result (daemon_line words.now) }
{
    ends_at(words, 1)?;
    Ok(Burst::new(Deed::Command(Actor::Daemon, Command::Daemon)))
}

/// What each of these tasks does, in their order.
fn acts_of(scene: &mut Scene, words: &[Filled], tasks: &[u32]) -> Result<Vec<Burst>, ExpandError>
    ensures { Gives (λ bursts. (bursts.items, scene.new)) result (acts_from scene.old words.now tasks.now) }
{
    let mut bursts = Vec::new(scene.alloc);
    for task in tasks {
        bursts.push(act_of(scene, words, *task)?)?;
    }
    Ok(bursts)
}

/// What each task of a line does.
fn acts(scene: &mut Scene, words: &[Filled]) -> Result<Vec<Burst>, ExpandError>
    ensures { Gives (λ bursts. (bursts.items, scene.new)) result (acts_line scene.old words.now) }
{
    let tasks = scene.tasks_there(word_at(words, 0)?)?;
    acts_of(scene, words, tasks.as_slice())
}

/// A line that is one list, by its first word.
fn single(
    scene: &mut Scene,
    words: &[Filled],
    above: bool,
    text: &str,
) -> Result<Burst, ExpandError>
    ensures { Gives (λ burst. (burst, scene.new)) result (single_line scene.old words.now above text.now) }
{
    if text == "set" {
        return set(scene, words);
    }
    if text == "reclaim" {
        return reclaim(scene, words);
    }
    if text == "rmdir" {
        return rmdir(scene, words);
    }
    if text == "show" {
        return show(scene, words);
    }
    if text == "mark" {
        return mark(scene, words);
    }
    if text == "expect" {
        return expect(scene, words, above);
    }
    if text == "raw" {
        return raw(scene, words);
    }
    daemon(words)
}

/// `let` stands for no list.
fn name_word(scene: &mut Scene, words: &[Filled]) -> Result<Vec<Burst>, ExpandError>
    ensures { Gives (λ bursts. (bursts.items, scene.new)) result (named_value (let_line scene.old words.now)) }
{
    scene.name_word(words)?;
    Ok(Vec::new(scene.alloc))
}

/// A line that is one list.
fn single_alone(
    scene: &mut Scene,
    words: &[Filled],
    above: bool,
    text: &str,
) -> Result<Vec<Burst>, ExpandError>
    ensures { Gives (λ bursts. (bursts.items, scene.new)) result (alone_in (single_line scene.old words.now above text.now)) }
{
    let burst = single(scene, words, above, text)?;
    Ok(vec![in scene.alloc; burst]?)
}

/// A line that begins with a word of the shell's, or is a note.
fn line_of_word(
    scene: &mut Scene,
    words: &[Filled],
    above: bool,
    text: &str,
) -> Result<Vec<Burst>, ExpandError>
    ensures { Gives (λ bursts. (bursts.items, scene.new)) result (word_line scene.old words.now above text.now) }
{
    if text == "let" {
        return name_word(scene, words);
    }
    if text == "group" {
        return group(scene, words);
    }
    if text == "task" {
        return task(scene, words);
    }
    if text == "attach" {
        return attach(scene, words);
    }
    single_alone(scene, words, above, text)
}

/// A line, by its first word.
fn line_by(
    scene: &mut Scene,
    words: &[Filled],
    above: bool,
    word: &Filled,
) -> Result<Vec<Burst>, ExpandError>
    ensures { Gives (λ bursts. (bursts.items, scene.new)) result (line_by scene.old words.now above word.now) }
{
    if word.is_quoted() || !is_language(word.text()) {
        return acts(scene, words);
    }
    if is_header_word(word.text()) {
        return Err(word.fault(Cause::HeaderBelow));
    }
    if is_line_word(word.text()) {
        return line_of_word(scene, words, above, word.text());
    }
    Err(word.fault(Cause::NoLine))
}

/// What a line stands for: a list for each task of it, or more if it makes more. `above` says whether a line that could
/// be refused is right above it.
#[tactic(auto, unfolding(crate::specs::LineLists::line_lists))]
pub fn bursts_of(
    scene: &mut Scene,
    words: &[Filled],
    above: bool,
) -> Result<Vec<Burst>, ExpandError>
    ensures { Gives (λ bursts. (bursts.items, scene.new)) result (line_lists scene.old words.now above) }
{
    let word = word_at(words, 0)?;
    line_by(scene, words, above, word)
}

/// Of the shell's and the daemon's lines, whether one is allowed inside of `together`.
fn check_word_together(word: &Filled) -> Result<(), ExpandError>
    ensures { Gives as_is result (word_together word.now) }
{
    if word.is("daemon") || word.is("reclaim") {
        return Ok(());
    }
    Err(word.fault(Cause::Together))
}

/// The same of a task's line, by what the task does.
fn check_act_together(words: &[Filled]) -> Result<(), ExpandError>
    ensures { Gives as_is result (act_together words.now (slice_get words.now 1)) }
{
    let Some(act) = words.get(1) else {
        return Ok(());
    };
    if act.is("fork") || act.is("exit") {
        return Err(act.fault(Cause::Together));
    }
    let Some(third) = words.get(2) else {
        return Ok(());
    };
    if act.is("write") && third.is("until") {
        return Err(third.fault(Cause::Until));
    }
    Ok(())
}

/// Whether a line is allowed inside of `together`: a task's accesses, `daemon` or `reclaim`.
pub fn check_together(words: &[Filled]) -> Result<(), ExpandError>
    ensures { Gives as_is result (together_form words.now) }
{
    let word = word_at(words, 0)?;
    if !word.is_quoted() && is_language(word.text()) {
        return check_word_together(word);
    }
    check_act_together(words)
}

/// Whether a line that could be refused is right above the next one, if this is above it.
pub fn may_be_refused(words: &[Filled]) -> bool
    ensures { result ≡ may_be_refused words.now }
{
    match words.first() {
        None => false,
        Some(word) => {
            !(word.is("let") || word.is("show") || word.is("mark") || word.is("expect"))
        }
    }
}
