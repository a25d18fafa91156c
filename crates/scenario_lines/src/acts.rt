//! Lines of tasks.

ghost use Rattle.std.specs.Prelude.{◌≡◌, ◌<◌, ◌≤◌, true, false, codes, IfOk};
ghost use Rattle.scenario_words.specs.Faults.{Gives, as_is};
ghost use Rattle.scenario_lines.specs.Acts.{is_part, accesses, task_command, mark_in, drawn, draws_at, pages_at, part_at, written, if_room, write_more, write_part, if_no_until, write_until, write_by, write_act, read_part, read_pages, read_act, if_so_many, free_size, lowered, free_part, free_by, free_act, fork_act, exit_act, next_from, next_pages, file_part, file_pages, file_act_of, file_act, act_line};
ghost use Rattle.scenario_lines.specs.Pages.{fits};

use crate::access::{Access, Act};
use crate::burst::{Burst, Deed};
use crate::pages::Pages;
use crate::scene::{Scene, own_number};
use machine::command::{Actor, Command};
use scenario_words::amount::{Purpose, number_within, pages_of, pages_within, part_of};
use scenario_words::fault::{Cause, ExpandError};
use scenario_words::task_names::task_name;
use scenario_words::word::{Filled, ends_at, expect_at, is_at, word_at};
use scenarios::parts::read_part as part_in;

/// Pages that a task has.
pub const TASK_PAGES: u32 = 1_024;

/// Entries of one line with `random` or `next`, at most.
const MOST_DRAWS: u32 = 1_000_000;

/// `count` draws from a part. From a part without a page there are none.
fn drawn(first: u32, after: u32, seed: u32, count: u32) -> Pages
    ensures sound { fits result ≡ true }
    ensures is { result ≡ drawn first after seed count }
{
    if first < after {
        Pages::Drawn {
            from: first,
            to: after,
            seed,
            count,
        }
    } else {
        Pages::between(first, first)
    }
}

/// `random N seed K`, from this place on.
fn draws_at(words: &[Filled], place: usize, first: u32, after: u32) -> Result<Pages, ExpandError>
    requires { place < 8 }
    ensures sound { IfOk result (λ pages. fits pages ≡ true) }
    ensures is { Gives as_is result (draws_at words.now place first after) }
{
    let count = number_within(word_at(words, place + 1)?, 1, 1_000_000)?;
    expect_at(words, place + 2, "seed")?;
    let seed = number_within(word_at(words, place + 3)?, 0, 4_294_967_295)?;
    ends_at(words, place + 4)?;
    Ok(drawn(first, after, seed as u32, count as u32))
}

/// The pages of a part, or those that are drawn of it, as the words from this place on say.
fn pages_at(words: &[Filled], place: usize, first: u32, after: u32) -> Result<Pages, ExpandError>
    requires { place < 8 }
    ensures sound { IfOk result (λ pages. fits pages ≡ true) }
    ensures is { Gives as_is result (pages_at words.now place first after) }
{
    if is_at(words, place, "random") {
        return draws_at(words, place, first, after);
    }
    ends_at(words, place)?;
    Ok(Pages::between(first, after))
}

/// The pages of the part that a word is, or draws from it, as the words from this place on say. There are `most` pages.
fn part_at(
    scene: &Scene,
    words: &[Filled],
    word: &Filled,
    most: u32,
    place: usize,
) -> Result<Pages, ExpandError>
    requires { place < 8 }
    ensures sound { IfOk result (λ pages. fits pages ≡ true) }
    ensures is { Gives as_is result (part_at scene.now words.now word.now most place) }
{
    let (first, after) = part_of(word, scene.page(), most)?;
    pages_at(words, place, first, after)
}

/// Whether a word is a part.
fn is_part(word: &Filled) -> bool
    ensures { result ≡ is_part word.now }
{
    part_in(word.text()).is_some()
}

/// Accesses of a task.
fn accesses(task: u32, act: Act, pages: Pages) -> Burst
    requires { fits pages ≡ true }
    ensures { result ≡ accesses task act pages }
{
    Burst::new(Deed::Access(Access { task, act, pages }))
}

/// One command of a task.
fn task_command(task: u32, command: Command) -> Burst
    ensures { result ≡ task_command task command }
{
    Burst::new(Deed::Command(Actor::Task(task), command))
}

/// So many pages from a mark on, as far as there are.
pub fn pages_written(mark: u32, pages: u64) -> Pages
    ensures sound { fits result ≡ true }
    ensures is { result ≡ written mark pages }
{
    let room = u64::from(TASK_PAGES.saturating_sub(mark));
    let count = pages.min(room) as u32;
    Pages::between(mark, mark + count)
}

/// A fault if the mark is known, and the task has fewer pages from it on.
fn check_room(scene: &Scene, word: &Filled, mark: u32, pages: u64) -> Result<(), ExpandError>
    ensures { Gives as_is result (if_room scene.now word.now mark pages) }
{
    let room = u64::from(TASK_PAGES.saturating_sub(mark));
    if pages > room && !scene.loose {
        return Err(word.fault(Cause::PastEnd));
    }
    Ok(())
}

/// `write SIZE`: the pages from the mark on.
fn write_more(
    scene: &Scene,
    words: &[Filled],
    task: u32,
    word: &Filled,
) -> Result<Burst, ExpandError>
    ensures { Gives as_is result (write_more scene.now words.now task word.now) }
{
    let mark = scene.tasks.mark(task);
    let pages = pages_of(word, Purpose::Used, scene.page())?;
    check_room(scene, word, mark, pages)?;
    ends_at(words, 3)?;
    Ok(accesses(task, Act::Write, pages_written(mark, pages)))
}

/// `write A..B`.
fn write_part(
    scene: &Scene,
    words: &[Filled],
    task: u32,
    word: &Filled,
) -> Result<Burst, ExpandError>
    ensures { Gives as_is result (write_part scene.now words.now task word.now) }
{
    let pages = part_at(scene, words, word, TASK_PAGES, 3)?;
    Ok(accesses(task, Act::Write, pages))
}

/// `until` is a fault in a block with another.
fn check_no_until(scene: &Scene, word: &Filled) -> Result<(), ExpandError>
    ensures { Gives as_is result (if_no_until scene.now word.now) }
{
    if scene.in_until {
        Err(word.fault(Cause::Until))
    } else {
        Ok(())
    }
}

/// `write until`: the pages from the mark to the last, until the condition holds.
fn write_until(
    scene: &Scene,
    words: &[Filled],
    task: u32,
    word: &Filled,
) -> Result<Burst, ExpandError>
    ensures { Gives as_is result (write_until scene.now words.now task word.now) }
{
    check_no_until(scene, word)?;
    scene.check_condition(words, 3, true)?;
    let condition = scene.condition(words, 3, Some(task))?;
    let pages = Pages::between(scene.tasks.mark(task), TASK_PAGES);
    let mut burst = accesses(task, Act::Write, pages);
    burst.until = Some(condition);
    Ok(burst)
}

fn write(scene: &Scene, words: &[Filled], task: u32) -> Result<Burst, ExpandError>
    ensures { Gives as_is result (write_act scene.now words.now task) }
{
    let word = word_at(words, 2)?;
    if word.is("until") {
        return write_until(scene, words, task, word);
    }
    if is_part(word) {
        return write_part(scene, words, task, word);
    }
    write_more(scene, words, task, word)
}

/// The pages of the part that the third word is.
fn read_part(scene: &Scene, words: &[Filled]) -> Result<Pages, ExpandError>
    ensures sound { IfOk result (λ pages. fits pages ≡ true) }
    ensures is { Gives as_is result (read_part scene.now words.now) }
{
    part_at(scene, words, word_at(words, 2)?, TASK_PAGES, 3)
}

/// The pages that a `read` says.
fn read_pages(scene: &Scene, words: &[Filled], task: u32) -> Result<Pages, ExpandError>
    ensures sound { IfOk result (λ pages. fits pages ≡ true) }
    ensures is { Gives as_is result (read_pages scene.now words.now task) }
{
    if words.len() <= 2 || is_at(words, 2, "random") {
        return pages_at(words, 2, 0, scene.tasks.mark(task));
    }
    read_part(scene, words)
}

fn read(scene: &Scene, words: &[Filled], task: u32) -> Result<Burst, ExpandError>
    ensures { Gives as_is result (read_act scene.now words.now task) }
{
    let pages = read_pages(scene, words, task)?;
    Ok(accesses(task, Act::Read, pages))
}

/// A fault if the mark is known, and there are fewer pages below it.
fn check_so_many(scene: &Scene, word: &Filled, mark: u32, pages: u64) -> Result<(), ExpandError>
    ensures { Gives as_is result (if_so_many scene.now word.now mark pages) }
{
    if pages > u64::from(mark) && !scene.loose {
        return Err(word.fault(Cause::NotSoMany));
    }
    Ok(())
}

/// `free SIZE`: the pages below the mark.
fn free_size(
    scene: &Scene,
    words: &[Filled],
    task: u32,
    word: &Filled,
) -> Result<Burst, ExpandError>
    ensures { Gives as_is result (free_size scene.now words.now task word.now) }
{
    let mark = scene.tasks.mark(task);
    let pages = pages_of(word, Purpose::Bound, scene.page())?;
    check_so_many(scene, word, mark, pages)?;
    ends_at(words, 3)?;
    let first = u64::from(mark).saturating_sub(pages) as u32;
    Ok(accesses(task, Act::Free { mark: first }, Pages::between(first, mark)))
}

/// `free A..B`.
fn free_part(
    scene: &Scene,
    words: &[Filled],
    task: u32,
    word: &Filled,
) -> Result<Burst, ExpandError>
    ensures { Gives as_is result (free_part scene.now words.now task word.now) }
{
    let mark = scene.tasks.mark(task);
    let (first, after) = part_of(word, scene.page(), TASK_PAGES)?;
    ends_at(words, 3)?;
    let lowered = if after == mark { first } else { mark };
    Ok(accesses(
        task,
        Act::Free { mark: lowered },
        Pages::between(first, after),
    ))
}

fn free(scene: &Scene, words: &[Filled], task: u32) -> Result<Burst, ExpandError>
    ensures { Gives as_is result (free_act scene.now words.now task) }
{
    match words.get(2) {
        None => {
            let pages = Pages::between(0, scene.tasks.mark(task));
            Ok(accesses(task, Act::Free { mark: 0 }, pages))
        }
        Some(word) => {
            if is_part(word) {
                free_part(scene, words, task, word)
            } else {
                free_size(scene, words, task, word)
            }
        }
    }
}

fn fork(scene: &mut Scene, words: &[Filled], task: u32) -> Result<Burst, ExpandError>
    ensures { Gives (λ burst. (burst, scene.new)) result (fork_act scene.old words.now task) }
{
    let word = word_at(words, 2)?;
    let names = task_name(scene.alloc, word)?;
    let child = scene.start_task(word, names.name.as_str(), own_number(names.index))?;
    ends_at(words, 3)?;
    Ok(task_command(task, Command::Fork { child }))
}

fn exit(words: &[Filled], task: u32) -> Result<Burst, ExpandError>
    ensures { Gives as_is result (exit_act words.now task) }
{
    ends_at(words, 2)?;
    Ok(task_command(task, Command::Exit))
}

/// `count` pages of a file of this size, from the first one on. An empty file has none.
fn next_from(first: u32, size: u32, count: u32) -> Pages
    ensures sound { fits result ≡ true }
    ensures is { result ≡ next_from first size count }
{
    if size == 0 {
        Pages::between(0, 0)
    } else {
        Pages::Round { first, size, count }
    }
}

/// `next SIZE`: pages of a file from where the task is in it.
fn next_pages(
    scene: &Scene,
    words: &[Filled],
    task: u32,
    file: u32,
    size: u32,
) -> Result<Pages, ExpandError>
    ensures sound { IfOk result (λ pages. fits pages ≡ true) }
    ensures is { Gives as_is result (next_pages scene.now words.now task file size) }
{
    let word = word_at(words, 4)?;
    let count = pages_within(word, Purpose::Used, scene.page(), 0, MOST_DRAWS)?;
    ends_at(words, 5)?;
    Ok(next_from(scene.tasks.place_in(task, file), size, count))
}

/// The pages of the part that the fourth word is.
fn file_part(scene: &Scene, words: &[Filled], size: u32) -> Result<Pages, ExpandError>
    ensures sound { IfOk result (λ pages. fits pages ≡ true) }
    ensures is { Gives as_is result (file_part scene.now words.now size) }
{
    part_at(scene, words, word_at(words, 3)?, size, 4)
}

/// The pages of a file that the words after its name say.
fn file_pages(
    scene: &Scene,
    words: &[Filled],
    task: u32,
    file: u32,
    size: u32,
) -> Result<Pages, ExpandError>
    ensures sound { IfOk result (λ pages. fits pages ≡ true) }
    ensures is { Gives as_is result (file_pages scene.now words.now task file size) }
{
    if is_at(words, 3, "next") {
        return next_pages(scene, words, task, file, size);
    }
    if words.len() <= 3 || is_at(words, 3, "random") {
        return pages_at(words, 3, 0, size);
    }
    file_part(scene, words, size)
}

fn file_act_of(write: bool, file: u32) -> Act
    ensures { result ≡ file_act_of write file }
{
    if write {
        Act::FileWrite { file }
    } else {
        Act::FileRead { file }
    }
}

fn file_access(
    scene: &Scene,
    words: &[Filled],
    task: u32,
    write: bool,
) -> Result<Burst, ExpandError>
    ensures { Gives as_is result (file_act scene.now words.now task write) }
{
    let word = word_at(words, 2)?;
    let Some(place) = scene.header.file_named(word.text()) else {
        return Err(word.fault(Cause::NoFile));
    };
    let file = u32::try_from(place).unwrap_or(u32::MAX);
    let pages = file_pages(scene, words, task, file, scene.header.file_pages(place))?;
    Ok(accesses(task, file_act_of(write, file), pages))
}

/// What one task of a line does.
pub fn act_of(scene: &mut Scene, words: &[Filled], task: u32) -> Result<Burst, ExpandError>
    ensures { Gives (λ burst. (burst, scene.new)) result (act_line scene.old words.now task) }
{
    let word = word_at(words, 1)?;
    if word.is("write") {
        return write(scene, words, task);
    }
    if word.is("read") {
        return read(scene, words, task);
    }
    if word.is("free") {
        return free(scene, words, task);
    }
    if word.is("fork") {
        return fork(scene, words, task);
    }
    if word.is("exit") {
        return exit(words, task);
    }
    if word.is("fread") {
        return file_access(scene, words, task, false);
    }
    if word.is("fwrite") {
        return file_access(scene, words, task, true);
    }
    Err(word.fault(Cause::NotExpected))
}
