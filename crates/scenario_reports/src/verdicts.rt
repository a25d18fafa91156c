//! Whether expectations are met.

ghost use Rattle.std.specs.Prelude.{◌≡◌, ◌*◌, ◌^◌, ◌==◌, ◌++◌, false, drop, filter, option_map, Some, None, slice_get, IfOk, OnOk};
ghost use Rattle.std.specs.List.{list_any};
ghost use Rattle.scenarios.specs.Sizes.{in_millionths};
ghost use Rattle.scenario_lines.specs.Scene.{task_there};
ghost use Rattle.scenario_reports.specs.Tasks.{is_gone};
ghost use Rattle.scenario_reports.specs.Verdicts.{operator_of, wanted_place, holds, wanted_size, meets_size, wanted_count, meets_count, bytes_found, group_pages, meets_size_if_there, moved_pages, task_or_none, named_tasks, wanted_dead, has_all, are_same, are_alive};

use crate::tasks::Tasks;
use crate::telling::add_tasks;
use book::Book;
use drafts::Draft;
use scenario_amounts::{add_size_in_unit, bytes_of};
use scenario_lines::scene::Scene;
use scenario_pictures::Moved;
use scenario_words::amount::{PageSize, size_of};
use scenario_words::fault::ExpandError;
use scenario_words::word::{Filled, is_at};
use scenarios::sizes::Size;
use std::alloc::{AllocError, Global};
use text_forms::number::long_number_of;

/// Whether an expectation is met, and what was found.
#[derive(Drop)]
pub struct Verdict {
    pub met: bool,
    pub found: String,
    /// The bytes or the count that was found.
    pub number: Option<u64>,
}

/// How a number is compared.
#[derive(Clone, Copy)]
enum Operator {
    Equal,
    Least,
    Most,
}

impl Operator {
    fn holds(self, found: u128, wanted: u128) -> bool
        ensures { result ≡ holds self found wanted }
    {
        match self {
            Operator::Equal => found == wanted,
            Operator::Least => found >= wanted,
            Operator::Most => found <= wanted,
        }
    }
}

/// The operator at a place, and the place after it.
fn operator_at(words: &[Filled], place: usize) -> (Operator, usize)
    ensures operator { result.0 ≡ operator_of words.now place }
    ensures place { result.1 ≡ wanted_place words.now place }
{
    if is_at(words, place, ">=") {
        (Operator::Least, place + 1)
    } else if is_at(words, place, "<=") {
        (Operator::Most, place + 1)
    } else if is_at(words, place, "=") {
        (Operator::Equal, place + 1)
    } else {
        (Operator::Equal, place)
    }
}

/// Millionths of a byte that a size is.
fn millionths_of(page: PageSize, size: Size) -> u128
    ensures { result ≡ in_millionths size page.bytes }
{
    match size {
        Size::Pages(pages) => u128::from(pages) * u128::from(page.bytes) * 1_000_000,
        Size::Bytes { whole, millionths } => u128::from(whole) * 1_000_000 + u128::from(millionths),
    }
}

/// Millionths of a byte that so many pages have.
fn millionths_of_pages(page: PageSize, pages: u64) -> u128
    ensures { result ≡ pages * page.bytes * 10 ^ 6 }
{
    u128::from(pages) * u128::from(page.bytes) * 1_000_000
}

/// The size that the word at a place is, in millionths of a byte. `None` if it is not a size.
fn size_at(page: PageSize, words: &[Filled], place: usize) -> Option<u128>
    ensures { result ≡ wanted_size page.bytes (slice_get words.now place) }
{
    match size_of(words.get(place)?) {
        Ok(size) => Some(millionths_of(page, size)),
        Err(_) => None,
    }
}

/// The number that the word at a place is. `None` if it is not a number.
fn count_at(words: &[Filled], place: usize) -> Option<u64>
    ensures { result ≡ wanted_count (slice_get words.now place) }
{
    long_number_of(words.get(place)?.text())
}

/// Compares a number of pages with the size at a place. It is not met if the word there is not a size.
pub fn compare_pages(
    alloc: Global,
    page: PageSize,
    words: &[Filled],
    place: usize,
    pages: u64,
) -> Result<Verdict, AllocError>
    ensures met { IfOk result (λ verdict. verdict.met ≡ meets_size page.bytes words.now place pages) }
    ensures number { IfOk result (λ verdict. verdict.number ≡ Some (bytes_found page.bytes pages)) }
{
    let (operator, place) = operator_at(words, place);
    let met = match size_at(page, words, place) {
        None => false,
        Some(wanted) => operator.holds(millionths_of_pages(page, pages), wanted),
    };
    let mut found = Draft::new(alloc);
    add_size_in_unit(&mut found, page, pages);
    Ok(Verdict {
        met,
        found: found.finish()?,
        number: Some(bytes_of(page, pages)),
    })
}

/// Compares a count with the number at a place. It is not met if the word there is not a number.
pub fn compare_count(
    alloc: Global,
    words: &[Filled],
    place: usize,
    count: u64,
) -> Result<Verdict, AllocError>
    ensures met { IfOk result (λ verdict. verdict.met ≡ meets_count words.now place count) }
    ensures number { IfOk result (λ verdict. verdict.number ≡ Some count) }
{
    let (operator, place) = operator_at(words, place);
    let met = match count_at(words, place) {
        None => false,
        Some(wanted) => operator.holds(u128::from(count), u128::from(wanted)),
    };
    Ok(Verdict {
        met,
        found: format!(in alloc; "{count}")?,
        number: Some(count),
    })
}

/// The verdict on a missing group: not met.
pub fn no_group(alloc: Global) -> Result<Verdict, AllocError>
    ensures met { IfOk result (λ verdict. verdict.met ≡ false) }
    ensures number { IfOk result (λ verdict. verdict.number ≡ None) }
{
    Ok(Verdict {
        met: false,
        found: String::from_str(alloc, "the group is not there")?,
        number: None,
    })
}

/// The pages that an `expect` of a group's charge is about. `None` if the group is not there.
fn pages_of_group(book: &Book, path: &str, words: &[Filled]) -> Option<u64>
    ensures { result ≡ group_pages book.now.state path.now words.now }
{
    if is_at(words, 2, "current") {
        return Some(book.look(path)?.usage);
    }
    let stat = book.stat(path)?;
    Some(if is_at(words, 2, "anon") {
        stat.anon
    } else {
        stat.file
    })
}

/// What an `expect` of a group's charge finds. The group has this script's path.
pub fn judge_group(
    alloc: Global,
    page: PageSize,
    book: &Book,
    path: &str,
    words: &[Filled],
) -> Result<Verdict, AllocError>
    ensures met { IfOk result (λ verdict. verdict.met ≡ meets_size_if_there page.bytes words.now 3 (group_pages book.now.state path.now words.now)) }
    ensures number { IfOk result (λ verdict. verdict.number ≡ option_map (bytes_found page.bytes) (group_pages book.now.state path.now words.now)) }
{
    match pages_of_group(book, path, words) {
        None => no_group(alloc),
        Some(pages) => compare_pages(alloc, page, words, 3, pages),
    }
}

/// What an `expect` of `in`, `out` or `dropped` finds.
pub fn judge_moved(
    alloc: Global,
    page: PageSize,
    moved: Moved,
    words: &[Filled],
) -> Result<Verdict, AllocError>
    ensures met { IfOk result (λ verdict. verdict.met ≡ meets_size page.bytes words.now 2 (moved_pages moved words.now)) }
    ensures number { IfOk result (λ verdict. verdict.number ≡ Some (bytes_found page.bytes (moved_pages moved words.now))) }
{
    let pages = if is_at(words, 1, "in") {
        moved.read
    } else if is_at(words, 1, "out") {
        moved.written
    } else {
        moved.dropped
    };
    compare_pages(alloc, page, words, 2, pages)
}

/// Adds the task that a word names, if it names one.
fn add_task(tasks: &mut Vec<u32>, scene: &Scene, word: &Filled) -> Result<(), AllocError>
    ensures { OnOk result (tasks.new.items ≡ tasks.old.items ++ task_or_none (task_there scene.now word.now)) }
{
    match scene.task_there(word) {
        Ok(task) => tasks.push(task)?,
        Err(ExpandError::Memory) => return Err(AllocError),
        Err(ExpandError::Faulty(_)) => {}
    }
    Ok(())
}

/// The numbers of the tasks that the words after the first two name.
fn tasks_named(alloc: Global, scene: &Scene, words: &[Filled]) -> Result<Vec<u32>, AllocError>
    ensures { IfOk result (λ tasks. tasks.items ≡ named_tasks scene.now (drop 2 words.now)) }
{
    let mut tasks = Vec::new(alloc);
    for word in words.get(2..).unwrap_or(&[]) {
        add_task(&mut tasks, scene, word)?;
    }
    Ok(tasks)
}

/// The tasks that an `expect killed` or `expect nobody killed` names.
fn wanted_dead(alloc: Global, scene: &Scene, words: &[Filled]) -> Result<Vec<u32>, AllocError>
    ensures { IfOk result (λ tasks. tasks.items ≡ wanted_dead scene.now words.now) }
{
    if is_at(words, 1, "nobody") {
        return Ok(Vec::new(alloc));
    }
    tasks_named(alloc, scene, words)
}

fn has_task(tasks: &[u32], task: u32) -> bool
    ensures { result ≡ list_any (λ other. other == task) tasks.now }
{
    tasks.iter().any(|other| *other == task)
}

fn has_all(tasks: &[u32], wanted: &[u32]) -> bool
    ensures { result ≡ has_all tasks.now wanted.now }
{
    wanted.iter().all(|task| has_task(tasks, *task))
}

/// What `expect killed` finds. It is met if exactly these tasks were killed.
pub fn judge_killed(
    alloc: Global,
    scene: &Scene,
    tasks: &Tasks,
    words: &[Filled],
) -> Result<Verdict, AllocError>
    ensures { IfOk result (λ verdict. verdict.met ≡ are_same tasks.now.dead (wanted_dead scene.now words.now)) }
{
    let wanted = wanted_dead(alloc, scene, words)?;
    let dead = tasks.dead();
    let met = has_all(dead, wanted.as_slice()) && has_all(wanted.as_slice(), dead);
    let mut found = Draft::new(alloc);
    found.text("killed: ");
    if dead.is_empty() {
        found.text("nobody");
    } else {
        add_tasks(&mut found, scene, dead);
    }
    Ok(Verdict {
        met,
        found: found.finish()?,
        number: None,
    })
}

/// Those of the tasks that are gone.
fn gone_among(alloc: Global, tasks: &Tasks, wanted: &[u32]) -> Result<Vec<u32>, AllocError>
    ensures { IfOk result (λ gone. gone.items ≡ filter (is_gone tasks.now.started) wanted.now) }
{
    let mut gone = Vec::new(alloc);
    for task in wanted {
        if tasks.is_gone(*task) {
            gone.push(*task)?;
        }
    }
    Ok(gone)
}

/// What `expect alive` finds. It is met if none of these tasks was killed or has a line `exit`.
#[tactic(auto, using(crate::proofs::VerdictLemmas::none_kept))]
pub fn judge_alive(
    alloc: Global,
    scene: &Scene,
    tasks: &Tasks,
    words: &[Filled],
) -> Result<Verdict, AllocError>
    ensures { IfOk result (λ verdict. verdict.met ≡ are_alive (is_gone tasks.now.started) (named_tasks scene.now (drop 2 words.now))) }
{
    let wanted = tasks_named(alloc, scene, words)?;
    let gone = gone_among(alloc, tasks, wanted.as_slice())?;
    let mut found = Draft::new(alloc);
    found.text("killed or ended: ");
    add_tasks(&mut found, scene, gone.as_slice());
    Ok(Verdict {
        met: gone.is_empty(),
        found: found.finish()?,
        number: None,
    })
}
