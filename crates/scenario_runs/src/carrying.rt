//! How the items of a scenario are carried out.

ghost use Rattle.std.specs.Prelude.{◌≡◌, true, IfOk, OnOk};
ghost use Rattle.expansion.specs.ToCome.{is_said, still};
ghost use Rattle.expansion.specs.Walk.{ends};
ghost use Rattle.scenario_runs.specs.declared.observer.Course.TheVariants.{Ends};
ghost use Rattle.scenario_runs.specs.Carried.{TakesStep, Finishes, IsWhole, CarriesEntry, CarriesEntries, CarriesNote, CarriesItem, IsNextItem, Carried};

use crate::observer::{Course, Observer};
use block_store::MemDevice;
use driver::{Actor, Command, Entry, Step, Stepper};
use expansion::expansion::{Expansion, Item};
use machine::text::Text;
use scenario_faults::Problem;
use scenario_machines::schedule_of;
use std::alloc::Global;

/// Takes a step. `at` counts the steps.
fn take_step<W, O: Observer<W>>(
    stepper: &mut Stepper<MemDevice>,
    observer: &mut O,
    at: &mut usize,
    step: &Step,
) -> Result<(), Problem>
    ensures { OnOk result (TakesStep O.took O.saw O.goes_on observer.old stepper.old step.now observer.new stepper.new) }
{
    let place = *at;
    *at = place.saturating_add(1);
    // A step stops only if memory runs out.
    if stepper.step(place, step, observer).is_err() {
        return Err(Problem::Memory);
    }
    observer.step_taken(stepper.book())?;
    Ok(())
}

/// Begins a command.
fn begin<W, O: Observer<W>>(
    stepper: &mut Stepper<MemDevice>,
    observer: &mut O,
    at: &mut usize,
    actor: Actor,
    command: Command,
) -> Result<(), Problem>
    ensures { OnOk result (TakesStep O.took O.saw O.goes_on observer.old stepper.old (Step.Begin actor command) observer.new stepper.new) }
{
    observer.command_comes(stepper, actor, &command)?;
    take_step(stepper, observer, at, &Step::Begin(actor, command))?;
    Ok(())
}

/// Takes turns of the actor's command until it is answered.
fn finish<W, O: Observer<W>>(
    stepper: &mut Stepper<MemDevice>,
    observer: &mut O,
    at: &mut usize,
    actor: Actor,
) -> Result<(), Problem>
    ensures { OnOk result (Finishes O.took O.saw O.goes_on observer.old stepper.old actor observer.new stepper.new) }
{
    for _ in 0..u64::MAX {
        if !stepper.is_under_way(actor) {
            return Ok(());
        }
        take_step(stepper, observer, at, &Step::Advance(actor))?;
    }
    // So many turns take centuries.
    Err(Problem::Memory)
}

/// Carries out a command from its beginning to its end.
fn carry_command<W, O: Observer<W>>(
    stepper: &mut Stepper<MemDevice>,
    observer: &mut O,
    at: &mut usize,
    actor: Actor,
    command: Command,
) -> Result<(), Problem>
    ensures { OnOk result (IsWhole O.took O.saw O.goes_on observer.old stepper.old actor command observer.new stepper.new) }
{
    begin(stepper, observer, at, actor, command)?;
    finish(stepper, observer, at, actor)?;
    Ok(())
}

/// Carries out an entry of the line of a script. A command that is finished takes as many turns as it needs.
fn carry_entry<W, O: Observer<W>>(
    alloc: Global,
    stepper: &mut Stepper<MemDevice>,
    observer: &mut O,
    at: &mut usize,
    entry: &Entry,
) -> Result<(), Problem>
    ensures { OnOk result (CarriesEntry O.took O.saw O.goes_on observer.old stepper.old entry.now observer.new stepper.new) }
{
    match entry {
        Entry::Whole(actor, command) => {
            let command = command.copy(alloc)?;
            carry_command(stepper, observer, at, *actor, command)?;
            Ok(())
        }
        Entry::Step(Step::Begin(actor, command)) => {
            let command = command.copy(alloc)?;
            begin(stepper, observer, at, *actor, command)?;
            Ok(())
        }
        Entry::Step(Step::Finish(actor)) if stepper.is_under_way(*actor) => {
            finish(stepper, observer, at, *actor)?;
            Ok(())
        }
        Entry::Step(step) => {
            take_step(stepper, observer, at, step)?;
            Ok(())
        }
    }
}

/// Carries out a line of the script.
fn carry_raw<W, O: Observer<W>>(
    alloc: Global,
    expansion: &Expansion<'_>,
    stepper: &mut Stepper<MemDevice>,
    observer: &mut O,
    at: &mut usize,
    line: &str,
) -> Result<(), Problem>
    ensures { OnOk result (CarriesEntries O.took O.saw O.goes_on observer.old stepper.old observer.new stepper.new) }
{
    let header = expansion.header();
    let Some(schedule) = schedule_of(alloc, header, expansion.names(), line)? else {
        return Ok(());
    };
    for line in schedule.lines() {
        carry_entry(alloc, stepper, observer, at, &line.entry)?;
    }
    Ok(())
}

/// Judges a note. If it asks for a file, that is read first.
fn carry_note<W, O: Observer<W>>(
    expansion: &Expansion<'_>,
    stepper: &mut Stepper<MemDevice>,
    observer: &mut O,
    at: &mut usize,
    words: &Text,
    out: &mut W,
) -> Result<(), Problem>
    ensures { OnOk result (CarriesNote O.took O.saw O.goes_on O.judged observer.old stepper.old words.now observer.new stepper.new) }
{
    let Some(command) = observer.asks(expansion, words)? else {
        observer.note(expansion, stepper, words, out)?;
        return Ok(());
    };
    carry_command(stepper, observer, at, Actor::Control, command)?;
    observer.note(expansion, stepper, words, out)?;
    Ok(())
}

/// The task of an actor that is one.
fn task_of(actor: Actor) -> Option<u32> {
    match actor {
        Actor::Task(task) => Some(task),
        Actor::Shell | Actor::Control | Actor::Daemon => None,
    }
}

/// Cuts the list with `until` that is at work, if its condition holds.
fn cut<W, O: Observer<W>>(
    expansion: &mut Expansion<'_>,
    stepper: &Stepper<MemDevice>,
    observer: &O,
) -> Result<(), Problem>
    ensures { is_said (still expansion.old) ≡ true → OnOk result (still expansion.new ≡ still expansion.old) }
{
    if observer.is_reached(expansion, stepper)? {
        expansion.cut();
    }
    Ok(())
}

/// What comes after an entry: the observer sees it, and the list with `until` that is at work is cut if its condition
/// holds then.
fn end_entry<W, O: Observer<W>>(
    expansion: &mut Expansion<'_>,
    stepper: &Stepper<MemDevice>,
    observer: &mut O,
    task: Option<u32>,
    out: &mut W,
) -> Result<Course, Problem>
    ensures goes_on { OnOk result (O.goes_on observer.old observer.new) }
    ensures ended { IfOk result (λ course. course ≡ Ends → O.ended observer.new) }
    ensures still { is_said (still expansion.old) ≡ true → OnOk result (still expansion.new ≡ still expansion.old) }
{
    let course = observer.entry_ended(expansion, stepper, task, out)?;
    if course == Course::GoesOn {
        cut(expansion, stepper, observer)?;
    }
    Ok(course)
}

/// Carries out an item.
fn carry_item<W, O: Observer<W>>(
    alloc: Global,
    expansion: &mut Expansion<'_>,
    stepper: &mut Stepper<MemDevice>,
    observer: &mut O,
    at: &mut usize,
    item: Item,
    out: &mut W,
) -> Result<Course, Problem>
    ensures carries { OnOk result (CarriesItem O.took O.saw O.goes_on O.judged observer.old stepper.old item observer.new stepper.new) }
    ensures ended { IfOk result (λ course. course ≡ Ends → O.ended observer.new) }
    ensures still { is_said (still expansion.old) ≡ true → OnOk result (still expansion.new ≡ still expansion.old) }
{
    match item {
        Item::Opened => {
            cut(expansion, stepper, observer)?;
            Ok(Course::GoesOn)
        }
        Item::Unreached(line) => {
            observer.unreached(expansion, stepper, line, out)?;
            Ok(Course::GoesOn)
        }
        Item::Note(words) => {
            carry_note(expansion, stepper, observer, at, &words, out)?;
            Ok(Course::GoesOn)
        }
        Item::Raw(line) => {
            observer.entry_comes(expansion, stepper, None, out)?;
            carry_raw(alloc, expansion, stepper, observer, at, line.as_str())?;
            end_entry(expansion, stepper, observer, None, out)
        }
        Item::Entry(actor, command) => {
            observer.entry_comes(expansion, stepper, Some((actor, &command)), out)?;
            carry_command(stepper, observer, at, actor, command)?;
            end_entry(expansion, stepper, observer, task_of(actor), out)
        }
    }
}

/// The next item, or the end.
fn next_item<W, O: Observer<W>>(
    expansion: &mut Expansion<'_>,
    observer: &O,
) -> Result<Option<Item>, Problem>
    ensures { is_said (still expansion.old) ≡ true → IfOk result (λ item. IsNextItem (still expansion.old) item (still expansion.new)) }
{
    match expansion.next() {
        Ok(item) => Ok(item),
        Err(error) => Err(observer.problem_of(expansion, error)),
    }
}

/// Carries out the items of a scenario on a machine, from the next one on. The observer sees each, and judges each note
/// by the machine as it is when the note comes. The run ends early if the observer says so.
pub fn carry_out<W, O: Observer<W>>(
    alloc: Global,
    expansion: &mut Expansion<'_>,
    stepper: &mut Stepper<MemDevice>,
    observer: &mut O,
    out: &mut W,
) -> Result<Course, Problem>
    // Each item in its order, and each note by the machine after the items before it.
    ensures carried { ends (still expansion.old).ending ≡ true → IfOk result (λ course. Carried O.took O.saw O.goes_on O.judged O.ended observer.old stepper.old (still expansion.old).outs course observer.new stepper.new) }
{
    let mut at = 0usize;
    for _ in 0..u64::MAX {
        let Some(item) = next_item(expansion, observer)? else {
            return Ok(Course::GoesOn);
        };
        match carry_item(alloc, expansion, stepper, observer, &mut at, item, out)? {
            Course::GoesOn => {}
            Course::Ends => return Ok(Course::Ends),
        }
    }
    // So many items take centuries.
    Err(Problem::Memory)
}
