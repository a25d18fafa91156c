//! The work of each actor.

ghost use Rattle.std.specs.Prelude.{◌≡◌, ◌++◌, [], fold, map, IfOk, OnOk};
ghost use Rattle.std.specs.List.{filter_map, position};
ghost use Rattle.scripts.specs.Work.{with_actor};
ghost use Rattle.division.specs.Division.{worker_for, shown_row};
ghost use Rattle.division.specs.Sorting.{reaches, left, worker, with_found, begun, with_line};

use crate::said::Said;
use explorer::Row;
use machine::command::{Actor, Step};
use scripts::number_of;
use std::alloc::{AllocError, Global};

/// The actor that carries out this actor's lines in the work. The shell takes no turns, so control carries out its lines.
fn worker_for(actor: Actor) -> Actor
    ensures { result ≡ worker_for actor }
{
    match actor {
        Actor::Shell => Actor::Control,
        Actor::Control | Actor::Daemon | Actor::Task(_) => actor,
    }
}

fn reaches(number: u64, actor: Actor) -> bool
    ensures { result ≡ reaches number actor }
{
    number <= number_of(actor)
}

/// The place of the first actor whose number is not below this one.
fn first_from(actors: &[Actor], number: u64) -> Option<usize>
    ensures { result ≡ position (reaches number) actors.now }
{
    actors.iter().position(|actor| reaches(number, *actor))
}

/// Adds the actor, if it is not there. Actors are in rising order of their numbers.
fn add_actor(actors: &mut Vec<Actor>, actor: Actor) -> Result<(), AllocError>
    ensures { OnOk result (actors.new.items ≡ with_actor actors.old.items actor) }
{
    let number = number_of(actor);
    match first_from(actors, number) {
        Some(place) => {
            if number_of(actors[place]) != number {
                actors.insert(place, actor)?;
            }
        }
        None => actors.push(actor)?,
    }
    Ok(())
}

/// Adds the actor, if there is one.
fn add_found(actors: &mut Vec<Actor>, found: Option<Actor>) -> Result<(), AllocError>
    ensures { OnOk result (actors.new.items ≡ with_found actors.old.items found) }
{
    match found {
        Some(actor) => add_actor(actors, actor),
        None => Ok(()),
    }
}

/// The actor whose command the line begins and does not end.
fn left(said: &Said) -> Option<Actor>
    ensures { result ≡ left said.now }
{
    match said {
        Said::Step(Step::Begin(actor, _)) => Some(*actor),
        _ => None,
    }
}

/// The actor that carries out the line in the work.
fn worker(said: &Said) -> Option<Actor>
    ensures { result ≡ worker said.now }
{
    match said {
        Said::Does(actor, _) => Some(worker_for(*actor)),
        _ => None,
    }
}

/// The actors of the work, in rising order of their numbers.
pub fn actors_of(alloc: Global, setup: &[Said], work: &[Said]) -> Result<Vec<Actor>, AllocError>
    ensures { IfOk result (λ actors. actors.items ≡ fold with_actor (fold with_actor [] (filter_map left setup.now)) (filter_map worker work.now)) }
{
    let mut actors = Vec::new(alloc);
    for line in setup {
        add_found(&mut actors, left(line))?;
    }
    for line in work {
        add_found(&mut actors, worker(line))?;
    }
    Ok(actors)
}

/// The step by which the actor begins the line in the work, if it carries out this line.
fn begun(alloc: Global, actor: Actor, said: &Said) -> Result<Option<Step>, AllocError>
    ensures { IfOk result (λ step. step ≡ begun actor said.now) }
{
    match said {
        Said::Does(who, command) => {
            if number_of(worker_for(*who)) == number_of(actor) {
                Ok(Some(Step::Begin(actor, command.copy(alloc)?)))
            } else {
                Ok(None)
            }
        }
        _ => Ok(None),
    }
}

/// Adds the line's step and its number, if the row's actor carries out this line.
fn add_begun(alloc: Global, row: &mut Row, line: &Said, number: usize) -> Result<(), AllocError>
    ensures { OnOk result (shown_row row.new ≡ with_line (shown_row row.old) line.now) }
{
    if let Some(step) = begun(alloc, row.actor, line)? {
        row.lines.push(step)?;
        row.numbers.push(number)?;
    }
    Ok(())
}

/// The actor's row. The first line of the work has the number `first`.
fn row_of(alloc: Global, actor: Actor, work: &[Said], first: usize) -> Result<Row, AllocError>
    ensures { IfOk result (λ row. shown_row row ≡ (actor, filter_map (begun actor) work.now)) }
{
    let mut row = Row {
        actor,
        lines: Vec::new(alloc),
        numbers: Vec::new(alloc),
    };
    for (place, line) in work.iter().enumerate() {
        add_begun(alloc, &mut row, line, first.saturating_add(place))?;
    }
    Ok(row)
}

/// The rows of the work. The first line of the work has the number `first`.
pub fn rows_of(
    alloc: Global,
    actors: &[Actor],
    work: &[Said],
    first: usize,
) -> Result<Vec<Row>, AllocError>
    ensures { IfOk result (λ rows. map shown_row rows.items ≡ map (λ who. (who, filter_map (begun who) work.now)) actors.now) }
{
    let mut rows = Vec::new(alloc);
    for actor in actors {
        rows.push(row_of(alloc, *actor, work, first)?)?;
    }
    Ok(rows)
}
