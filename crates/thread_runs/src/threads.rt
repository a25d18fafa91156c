//! Runs of scripts on threads.

ghost use Rattle.std.specs.Prelude.{◌≡◌, ◌⊎◌, ℕ, ◌<◌, ◌≤◌, ◌++◌, ◌∷◌, [], true, length, map, IsErr, IfOk, IfErr, IfSome, OnOk, OnErr};
ghost use Rattle.std.specs.Io.KnownBytes.{Appends, Keeps};
ghost use Rattle.std.specs.List.Sorted.{IsStrictlyIncreasing};
ghost use Rattle.std.specs.Str.Lines.{lines};
ghost use Rattle.machine.specs.declared.config.Placement.TheVariants.{Own};
ghost use Rattle.machine.specs.State.{opening_of, is_config, blocks_of};
ghost use Rattle.turns.specs.Tickets.{blocks_in};
ghost use Rattle.scripts.specs.declared.fault.Cause.{Cause};
ghost use Rattle.scripts.specs.declared.mode.Mode.TheVariants.{Run};
ghost use Rattle.scripts.specs.Script.{IsFirstFault, NamesFirstFault};
ghost use Rattle.scripts.specs.Work.{numbers_of, shown_rows};
ghost use Rattle.printer.specs.Asked.{plain};
ghost use Rattle.printer.specs.Prints.{texts};
ghost use Rattle.script_faults.specs.declared.fault.TheConstants.{MOST_ACTORS};
ghost use Rattle.thread_runs.specs.Actors.{actors_in, actors_of_script, IsCrowd, ExplainsOnThreads};
ghost use Rattle.script_faults.specs.Told.{IsUnread, IsOfScript, StartsReport, IsRunFault};
ghost use Rattle.thread_runs.specs.Threads.{verdict_line, status_by, PrintsShowing, PrintsThreads, PrintsScriptShowing, PrintsScriptOnThreads};
ghost use Rattle.shown_groups.specs.Shown.{paths_text, shown_text};
ghost use Rattle.shown_groups.specs.Looks.{looks_text};
ghost use Rattle.thread_runs.specs.Rounds.{verdict_by, HiredAll, SetsUp, SaysRows, passes_in, AreHandedIn, Ran, Concluded, RanAll};
ghost use Rattle.thread_runs.specs.Crews.{Counts};

use crate::crew::{Crew, new_pass};
use crate::notes::Notes;
use block_store::{Locked, MemDevice, SharedDevice};
use live::{EndLook, Live, Opened, Pass, Report, Roll, Unnamed, Worker, work_together};
use machine::command::{Actor, Command, Reply};
use machine::config::Config;
use machine::page_size::PageSize;
use printer::{Options, paths_of, write_bytes};
use script_faults::{
    Fault, MOST_ACTORS, Wanted, faulty, new_device, read_script, status_of, unwritten, wanted_by,
};
use scripts::{Mode, Script, each_actor_has_its_row, number_of, one_answer};
use shown_groups::{Missing, Shows, write_looks};
use std::alloc::{AllocError, Global};
use std::collections::HashSet;
use std::io;
use std::io::{Read, Write};
use std::marker::Brand;
use std::sync::Wait;
use std::thread::Threads;

const FAILED: u8 = 1;

/// What a run says at its end.
#[derive(Clone, Copy, Debug, PartialEq, Eq)]
pub enum Verdict {
    /// Each worker's answers are the ones that the trace has for it, and an audit of the trace finds nothing wrong.
    Fine,
    /// An audit finds something wrong. This is the place of the first wrong entry, counted from 1.
    Wrong(usize),
}

/// The verdict on a run.
fn verdict_of<D>(report: &Report<D>) -> Verdict
    ensures { result ≡ verdict_by report.now.audit }
{
    match &report.audit {
        Ok(()) => Verdict::Fine,
        Err(first) => Verdict::Wrong(first.entry),
    }
}

/// Writes the line of the verdict.
fn tell<O: Write>(alloc: Global, verdict: Verdict, out: &mut O) -> io::Result<()>
    ensures { OnOk result (Appends (O.contents out.old) (O.contents out.new) (verdict_line verdict)) }
{
    match verdict {
        Verdict::Fine => write_bytes(out, b"audit ok\n"),
        Verdict::Wrong(entry) => {
            let text = format!(in alloc; "audit failed at entry {entry}\n")?;
            write_bytes(out, text.as_bytes())
        }
    }
}

/// Writes what one answer prints, in one piece.
fn print_answer<O: Write>(text: &mut String, reply: &Reply, out: &mut O) -> io::Result<()>
    ensures { OnOk result (Appends (O.contents out.old) (O.contents out.new) (texts (reply.now ∷ []))) }
{
    text.clear();
    reply.print(text)?;
    write_bytes(out, text.as_bytes())
}

/// Writes what answers print, one after the other.
fn print_answers<O: Write>(alloc: Global, answers: &[Reply], out: &mut O) -> io::Result<()>
    ensures { OnOk result (Appends (O.contents out.old) (O.contents out.new) (texts answers.now)) }
{
    let mut text = String::new(alloc);
    for reply in answers {
        print_answer(&mut text, reply, out)?;
    }
    Ok(())
}

/// How many actors have commands, before the threads start or on them.
fn count_actors(
    alloc: Global,
    setup: &[(Actor, Command)],
    work: &[(Actor, Vec<Command>)],
) -> Result<usize, AllocError>
    ensures { IfOk result (λ count. count ≡ actors_in setup.now (shown_rows work.now)) }
{
    let mut numbers = HashSet::new(alloc);
    for (actor, _) in setup {
        numbers.insert(number_of(*actor))?;
    }
    for (actor, _) in work {
        numbers.insert(number_of(*actor))?;
    }
    Ok(numbers.len())
}

/// Refuses a run of more actors than can run at once.
fn refuse_crowd(
    alloc: Global,
    wanted: Wanted,
    setup: &[(Actor, Command)],
    work: &[(Actor, Vec<Command>)],
) -> Result<(), Fault>
    ensures few { OnOk result (actors_in setup.now (shown_rows work.now) ≤ MOST_ACTORS) }
    ensures why { IfErr result (λ why. IsCrowd (actors_in setup.now (shown_rows work.now)) why ⊎ IsRunFault why) }
{
    match count_actors(alloc, setup, work) {
        Err(AllocError) => Err(Fault::Memory(wanted)),
        Ok(actors) if actors > MOST_ACTORS => Err(Fault::TooManyActors(actors)),
        Ok(_) => Ok(()),
    }
}

/// Hires a worker for each row, in their order.
fn hire_all<L: Opened, D: SharedDevice, R: Wait>(
    rt: &R,
    alloc: Global,
    live: &Live<L, D>,
    roll: &mut Roll<L>,
    work: Vec<(Actor, Vec<Command>)>,
) -> Result<Crew<L>, AllocError>
    requires { IsStrictlyIncreasing (numbers_of (shown_rows work.items)) }
    ensures hired { IfOk result (λ crew. HiredAll (shown_rows work.items) crew.workers.items) }
    ensures counted { IfOk result (λ crew. Counts roll.old.given [] roll.new.given crew.workers.items) }
{
    let mut crew = Crew::new(alloc);
    for (actor, commands) in work {
        crew.hire(rt, alloc, live, roll, actor, commands)?;
    }
    Ok(crew)
}

/// Runs one of the lines before the threads start.
fn set_up_one<L: Opened, D: SharedDevice, R: Wait, O: Write>(
    rt: &R,
    alloc: Global,
    live: &Live<L, D>,
    roll: &mut Roll<L>,
    crew: &mut Crew<L>,
    wanted: Wanted,
    actor: Actor,
    command: Command,
    notes: &mut Notes,
    out: &mut O,
) -> Result<(), Fault>
    ensures whole { OnOk result (SetsUp L.opening ((actor, command) ∷ []) crew.old.workers.items crew.new.workers.items (O.contents out.old) (O.contents out.new)) }
    ensures counted { OnOk result (Counts roll.old.given crew.old.workers.items roll.new.given crew.new.workers.items) }
    ensures why { IfErr result IsRunFault }
{
    match crew.ask(rt, alloc, live, roll, actor, command) {
        Err(AllocError) => Err(Fault::Memory(wanted)),
        Ok(answers) => {
            notes.add(&answers, false);
            match print_answers(alloc, &answers, out) {
                Ok(()) => Ok(()),
                Err(error) => Err(unwritten(wanted, error)),
            }
        }
    }
}

/// Runs the lines before the threads start, one after the other, and writes their answers at once.
fn set_up<L: Opened, D: SharedDevice, R: Wait, O: Write>(
    rt: &R,
    alloc: Global,
    live: &Live<L, D>,
    roll: &mut Roll<L>,
    crew: &mut Crew<L>,
    wanted: Wanted,
    setup: Vec<(Actor, Command)>,
    notes: &mut Notes,
    out: &mut O,
) -> Result<(), Fault>
    ensures whole { OnOk result (SetsUp L.opening setup.items crew.old.workers.items crew.new.workers.items (O.contents out.old) (O.contents out.new)) }
    ensures counted { OnOk result (Counts roll.old.given crew.old.workers.items roll.new.given crew.new.workers.items) }
    ensures why { IfErr result IsRunFault }
{
    for (actor, command) in setup {
        set_up_one(
            rt, alloc, live, roll, crew, wanted, actor, command, notes, out,
        )?;
    }
    Ok(())
}

/// Writes what a worker answered. It also fails if there was no memory for its answers.
fn print_row<L: Opened, O: Write>(
    alloc: Global,
    wanted: Wanted,
    worker: &Worker<L>,
    notes: &mut Notes,
    out: &mut O,
) -> Result<(), Fault>
    ensures whole { OnOk result (SaysRows (worker.now ∷ []) (O.contents out.old) (O.contents out.new)) }
    ensures why { IfErr result IsRunFault }
{
    match worker.answers() {
        Err(_) => Err(Fault::Memory(wanted)),
        Ok(answers) => {
            notes.add(answers, true);
            match print_answers(alloc, answers, out) {
                Ok(()) => Ok(()),
                Err(error) => Err(unwritten(wanted, error)),
            }
        }
    }
}

/// The same for workers, one after the other.
fn print_rows<L: Opened, O: Write>(
    alloc: Global,
    wanted: Wanted,
    workers: &[Worker<L>],
    notes: &mut Notes,
    out: &mut O,
) -> Result<(), Fault>
    ensures whole { OnOk result (SaysRows workers.now (O.contents out.old) (O.contents out.new)) }
    ensures why { IfErr result IsRunFault }
{
    for worker in workers {
        print_row(alloc, wanted, worker, notes, out)?;
    }
    Ok(())
}

/// Adds the workers' passes.
fn add_passes<L: Opened>(
    passes: &mut Vec<Pass<L>>,
    workers: Vec<Worker<L>>,
) -> Result<(), AllocError>
    ensures { OnOk result (passes.new.items ≡ passes.old.items ++ passes_in workers.items) }
{
    for worker in workers {
        passes.push(worker.into_pass())?;
    }
    Ok(())
}

/// All passes, the daemon's last.
fn all_passes<L: Opened>(
    alloc: Global,
    workers: Vec<Worker<L>>,
    others: Vec<Worker<L>>,
    daemon: Pass<L>,
) -> Result<Vec<Pass<L>>, AllocError>
    ensures { IfOk result (λ passes. passes.items ≡ passes_in workers.items ++ passes_in others.items ++ daemon ∷ []) }
{
    let mut passes = Vec::new(alloc);
    add_passes(&mut passes, workers)?;
    add_passes(&mut passes, others)?;
    passes.push(daemon)?;
    Ok(passes)
}

/// All that workers do: the lines before the threads start, and then all rows at once, together with the daemon.
/// Returns the workers' passes.
fn work_all<L: Opened + Send + Sync, D: SharedDevice + Sync, R: Threads + Wait + Sync, O: Write>(
    rt: &R,
    alloc: Global,
    live: &Live<L, D>,
    roll: &mut Roll<L>,
    wanted: Wanted,
    setup: Vec<(Actor, Command)>,
    work: Vec<(Actor, Vec<Command>)>,
    notes: &mut Notes,
    out: &mut O,
) -> Result<Vec<Pass<L>>, Fault>
    requires rows { IsStrictlyIncreasing (numbers_of (shown_rows work.items)) }
    requires fresh { roll.old.given ≡ 0 }
    ensures whole { IfOk result (λ passes. Ran L.opening setup.items (shown_rows work.items) passes.items (O.contents out.old) (O.contents out.new)) }
    ensures handed_in { IfOk result (λ passes. AreHandedIn roll.new.given passes.items) }
    ensures why { IfErr result IsRunFault }
{
    let Ok(mut crew) = hire_all(rt, alloc, live, roll, work) else {
        return Err(Fault::Memory(wanted));
    };
    let Ok(daemon) = new_pass(rt, live, roll) else {
        return Err(Fault::Memory(wanted));
    };
    let rows = crew.len();
    set_up(rt, alloc, live, roll, &mut crew, wanted, setup, notes, out)?;
    let Ok((workers, others)) = crew.split(rows) else {
        return Err(Fault::Memory(wanted));
    };
    let (workers, daemon) = work_together(rt, live, workers, daemon);
    print_rows(alloc, wanted, &workers, notes, out)?;
    match all_passes(alloc, workers, others, daemon) {
        Ok(passes) => Ok(passes),
        Err(AllocError) => Err(Fault::Memory(wanted)),
    }
}

/// Writes the line of the verdict, and returns it.
fn say<O: Write>(
    alloc: Global,
    wanted: Wanted,
    verdict: Verdict,
    out: &mut O,
) -> Result<Verdict, Fault>
    ensures whole { IfOk result (λ said. (said ≡ verdict) × Appends (O.contents out.old) (O.contents out.new) (verdict_line verdict)) }
    ensures why { IfErr result IsRunFault }
{
    match tell(alloc, verdict, out) {
        Ok(()) => Ok(verdict),
        Err(error) => Err(unwritten(wanted, error)),
    }
}

/// Writes what the looks at these paths say.
fn show<O: Write>(
    alloc: Global,
    wanted: Wanted,
    page_size: PageSize,
    missing: Missing,
    paths: &[&str],
    looks: &[Option<EndLook>],
    out: &mut O,
) -> Result<(), Fault>
    requires { length looks.now ≡ length paths.now }
    ensures whole { OnOk result (Appends (O.contents out.old) (O.contents out.new) (looks_text page_size.bytes missing (map (λ p. p.now) paths.now) looks.now)) }
    ensures why { IfErr result IsRunFault }
{
    match write_looks(alloc, page_size, missing, paths, looks, out) {
        Ok(()) => Ok(()),
        Err(error) => Err(unwritten(wanted, error)),
    }
}

/// Ends a run. Writes what the groups of these paths are at its end, and its verdict.
fn conclude<L: Opened, D: SharedDevice + Drop, O: Write>(
    alloc: Global,
    live: Live<L, D>,
    wanted: Wanted,
    passes: Vec<Pass<L>>,
    roll: Roll<L>,
    missing: Missing,
    paths: &[&str],
    notes: &mut Notes,
    out: &mut O,
) -> Result<Verdict, Fault>
    requires { AreHandedIn roll.given passes.items }
    ensures whole { IfOk result (λ verdict. Concluded L.opening passes.items (λ s. paths_text missing s (map (λ p. p.now) paths.now)) verdict (O.contents out.old) (O.contents out.new)) }
    ensures why { IfErr result IsRunFault }
{
    let mut room = Vec::new(alloc);
    if room.reserve(paths.len()).is_err() {
        live.give_up(roll);
        return Err(Fault::Memory(wanted));
    }
    let page_size = live.page_size();
    match live.finish_with_looks(passes, roll, paths, room) {
        Ok((report, looks)) => {
            notes.count_moved(report.trace.entries());
            show(alloc, wanted, page_size, missing, paths, &looks, out)?;
            say(alloc, wanted, verdict_of(&report), out)
        }
        Err((live, _passes, _cause, roll)) => {
            live.give_up(roll);
            unreachable!()
        }
    }
}

/// Runs all workers and ends the run, without a last flush.
fn run_live<
    L: Opened + Send + Sync,
    D: SharedDevice + Sync + Drop,
    R: Threads + Wait + Sync,
    O: Write,
>(
    rt: &R,
    alloc: Global,
    live: Live<L, D>,
    roll: Roll<L>,
    wanted: Wanted,
    setup: Vec<(Actor, Command)>,
    work: Vec<(Actor, Vec<Command>)>,
    missing: Missing,
    paths: &[&str],
    notes: &mut Notes,
    out: &mut O,
) -> Result<Verdict, Fault>
    requires rows { IsStrictlyIncreasing (numbers_of (shown_rows work.items)) }
    requires fresh { roll.given ≡ 0 }
    ensures whole { IfOk result (λ verdict. RanAll L.opening setup.items (shown_rows work.items) (λ s. paths_text missing s (map (λ p. p.now) paths.now)) verdict (O.contents out.old) (O.contents out.new)) }
    ensures why { IfErr result IsRunFault }
{
    let mut roll = roll;
    match work_all(rt, alloc, &live, &mut roll, wanted, setup, work, notes, out) {
        Ok(passes) => conclude(
            alloc, live, wanted, passes, roll, missing, paths, notes, out,
        ),
        Err(fault) => {
            live.give_up(roll);
            Err(fault)
        }
    }
}

/// The same as [`run_over`], and before the verdict it writes what the groups of these paths are at the end.
fn show_over<
    L: Opened + Send + Sync,
    D: SharedDevice + Sync + Drop,
    R: Threads + Wait + Sync,
    O: Write,
>(
    rt: &R,
    alloc: Global,
    script: Script,
    device: D,
    unnamed: Unnamed,
    missing: Missing,
    paths: &[&str],
    notes: &mut Notes,
    out: &mut O,
) -> Result<Verdict, Fault>
    requires named { unnamed ≡ L.table }
    requires opened { opening_of script.config ≡ L.opening }
    requires fits { blocks_in L.opening ≤ D.extent device }
    requires rows { IsStrictlyIncreasing (numbers_of (shown_rows script.work.items)) }
    ensures whole { IfOk result (λ verdict. PrintsShowing script.config script.setup.items (shown_rows script.work.items) (λ s. paths_text missing s (map (λ p. p.now) paths.now)) verdict (O.contents out.old) (O.contents out.new)) }
    ensures crowd { MOST_ACTORS < actors_in script.setup.items (shown_rows script.work.items) → IsErr result × (O.contents out.new ≡ O.contents out.old) }
    ensures why { IfErr result (λ why. IsCrowd (actors_in script.setup.items (shown_rows script.work.items)) why ⊎ IsRunFault why) }
    ensures unrun { IfErr result (λ why. IsOfScript why → O.contents out.new ≡ O.contents out.old) }
{
    let Script {
        config,
        setup,
        work,
        ..
    } = script;
    let wanted = Wanted::of(&config, device.blocks());
    refuse_crowd(alloc, wanted, &setup, &work)?;
    let Ok((live, roll)) = Live::<L, D>::open(alloc, config, device, unnamed) else {
        return Err(Fault::Memory(wanted));
    };
    let ran = run_live(
        rt, alloc, live, roll, wanted, setup, work, missing, paths, notes, out,
    );
    let flushed = out.flush();
    match ran {
        Err(fault) => Err(fault),
        Ok(verdict) => match flushed {
            Ok(()) => Ok(verdict),
            Err(error) => Err(unwritten(wanted, error)),
        },
    }
}

/// Runs a script on threads, over a device that has the blocks that the script's header asks for. The lines before the
/// first `go` are run one after the other, and each answer is written at once. Then each actor's row is run in a thread
/// of its own, together with the daemon, and the answers are written row by row. The last line says what the trace
/// shows. A script with more than [`MOST_ACTORS`] actors is refused before anything runs.
///
/// `L` says how the machine was opened, and which history has the exchanges of its workers. A caller with `Brand` picks
/// both in the proof of the call.
pub fn run_over<
    L: Opened + Send + Sync,
    D: SharedDevice + Sync + Drop,
    R: Threads + Wait + Sync,
    O: Write,
>(
    rt: &R,
    alloc: Global,
    script: Script,
    device: D,
    unnamed: Unnamed,
    out: &mut O,
) -> Result<Verdict, Fault>
    requires named { unnamed ≡ L.table }
    requires opened { opening_of script.config ≡ L.opening }
    requires fits { blocks_in L.opening ≤ D.extent device }
    requires rows { IsStrictlyIncreasing (numbers_of (shown_rows script.work.items)) }
    ensures whole { IfOk result (λ verdict. PrintsThreads script.config script.setup.items (shown_rows script.work.items) verdict (O.contents out.old) (O.contents out.new)) }
    ensures crowd { MOST_ACTORS < actors_in script.setup.items (shown_rows script.work.items) → IsErr result × (O.contents out.new ≡ O.contents out.old) }
    ensures why { IfErr result (λ why. IsCrowd (actors_in script.setup.items (shown_rows script.work.items)) why ⊎ IsRunFault why) }
    // It says so only where nothing was run.
    ensures unrun { IfErr result (λ why. IsOfScript why → O.contents out.new ≡ O.contents out.old) }
{
    let notes = &mut Notes::new(alloc, false);
    let (missing, paths): (Missing, &[&str]) = (Missing::Told, &[]);
    show_over::<L, D, R, O>(
        rt, alloc, script, device, unnamed, missing, paths, notes, out,
    )
}

/// Runs a script that was read, over a new device.
fn run_new<R: Threads + Wait + Sync, O: Write>(
    rt: &R,
    alloc: Global,
    script: Script,
    missing: Missing,
    paths: &[&str],
    notes: &mut Notes,
    out: &mut O,
) -> Result<Verdict, Fault>
    requires limits { is_config script.config ≡ true }
    requires rows { IsStrictlyIncreasing (numbers_of (shown_rows script.work.items)) }
    ensures whole { IfOk result (λ verdict. PrintsShowing script.config script.setup.items (shown_rows script.work.items) (λ s. paths_text missing s (map (λ p. p.now) paths.now)) verdict (O.contents out.old) (O.contents out.new)) }
    ensures crowd { MOST_ACTORS < actors_in script.setup.items (shown_rows script.work.items) → IsErr result × (O.contents out.new ≡ O.contents out.old) }
    ensures why { IfErr result (λ why. IsCrowd (actors_in script.setup.items (shown_rows script.work.items)) why ⊎ IsRunFault why) }
    ensures unrun { IfErr result (λ why. IsOfScript why → O.contents out.new ≡ O.contents out.old) }
{
    let made = new_device(
        alloc,
        &script.config,
        &script.read_faults,
        &script.write_faults,
    );
    let device = match made {
        Ok(device) => Locked::new(device),
        Err(wanted) => return Err(Fault::Memory(wanted)),
    };
    let Ok(unnamed) = Unnamed::new(alloc) else {
        let wanted = Wanted::of(&script.config, device.blocks());
        return Err(Fault::Memory(wanted));
    };
    show_over::<Brand, Locked<MemDevice>, R, O>(
        rt, alloc, script, device, unnamed, missing, paths, notes, out,
    )
}

/// Runs a script that was read from these bytes, and shows all groups that it makes and that exist at the end.
fn show_all<R: Threads + Wait + Sync, O: Write>(
    rt: &R,
    alloc: Global,
    bytes: &[u8],
    script: Script,
    notes: &mut Notes,
    out: &mut O,
) -> Result<Verdict, Fault>
    requires limits { is_config script.config ≡ true }
    requires rows { IsStrictlyIncreasing (numbers_of (shown_rows script.work.items)) }
    ensures whole { IfOk result (λ verdict. PrintsShowing script.config script.setup.items (shown_rows script.work.items) (shown_text Shows.All bytes.now) verdict (O.contents out.old) (O.contents out.new)) }
    ensures crowd { MOST_ACTORS < actors_in script.setup.items (shown_rows script.work.items) → IsErr result × (O.contents out.new ≡ O.contents out.old) }
    ensures why { IfErr result (λ why. IsCrowd (actors_in script.setup.items (shown_rows script.work.items)) why ⊎ IsRunFault why) }
    ensures unrun { IfErr result (λ why. IsOfScript why → O.contents out.new ≡ O.contents out.old) }
{
    let wanted = wanted_by(&script.config);
    // No line is faulty in a schedule and sound on threads. So this fails only if memory runs out.
    let Ok(scheduled) = scripts::read(alloc, bytes, Mode::Schedule) else {
        return Err(Fault::Memory(wanted));
    };
    let Ok(paths) = paths_of(alloc, &scheduled.schedule) else {
        return Err(Fault::Memory(wanted));
    };
    run_new(rt, alloc, script, Missing::Skipped, &paths, notes, out)
}

/// Runs a script on threads, over a new device, which has the blocks and the faults that the script asks for. In the
/// fault, the script's file has the name `file`.
///
/// When all actors have ended, and before the verdict, it writes the files of the groups that are to be shown. They
/// say what they say in the state in which the run ended. `notes` gets what the run did, in numbers.
pub fn run_script_showing<R: Threads + Wait + Sync, O: Write>(
    rt: &R,
    alloc: Global,
    options: Options,
    shows: Shows<'_>,
    file: &str,
    script: &[u8],
    notes: &mut Notes,
    out: &mut O,
) -> Result<Verdict, Fault>
    ensures whole { IfOk result (λ verdict. PrintsScriptShowing options.placement script.now (shown_text shows.entry script.now) verdict (O.contents out.old) (O.contents out.new)) }
    ensures faulty { (n : ℕ) (cause : Cause) → IsFirstFault Run (lines script.now) n cause → IsErr result × (O.contents out.new ≡ O.contents out.old) }
    // A script with more actors than can run at once is refused, and nothing is run.
    ensures crowd { MOST_ACTORS < actors_of_script script.now → IsErr result × (O.contents out.new ≡ O.contents out.old) }
    ensures why { IfErr result (ExplainsOnThreads options file.now script.now) }
    // It is the script's only where nothing was run.
    ensures unrun { IfErr result (λ why. IsOfScript why → O.contents out.new ≡ O.contents out.old) }
{
    one_answer();
    each_actor_has_its_row();
    match scripts::read(alloc, script, Mode::Run) {
        Ok(mut read) => {
            read.config.placement = options.placement;
            match shows {
                Shows::All => show_all(rt, alloc, script, read, notes, out),
                Shows::These(paths) => {
                    run_new(rt, alloc, read, Missing::Told, paths, notes, out)
                }
            }
        }
        Err(fault) => Err(faulty(alloc, options, file, script, Mode::Run, fault)),
    }
}

/// The same, and shows no groups.
pub fn run_script_on_threads<R: Threads + Wait + Sync, O: Write>(
    rt: &R,
    alloc: Global,
    options: Options,
    file: &str,
    script: &[u8],
    out: &mut O,
) -> Result<Verdict, Fault>
    ensures whole { IfOk result (λ verdict. PrintsScriptOnThreads options.placement script.now verdict (O.contents out.old) (O.contents out.new)) }
    ensures faulty { (n : ℕ) (cause : Cause) → IsFirstFault Run (lines script.now) n cause → IsErr result × (O.contents out.new ≡ O.contents out.old) }
    ensures crowd { MOST_ACTORS < actors_of_script script.now → IsErr result × (O.contents out.new ≡ O.contents out.old) }
    ensures why { IfErr result (ExplainsOnThreads options file.now script.now) }
    ensures unrun { IfErr result (λ why. IsOfScript why → O.contents out.new ≡ O.contents out.old) }
{
    let mut notes = Notes::new(alloc, false);
    let shows = Shows::These(&[]);
    run_script_showing(rt, alloc, options, shows, file, script, &mut notes, out)
}

/// The exit status of a run on threads: 0 for the verdict that all is fine, and 1 for another verdict or a fault.
/// For a fault, `err` gets the lines that say why, as [`Fault::report`] writes them. The status reports the failure
/// even if they can't be written.
pub fn status_of_run<E: Write>(ran: Result<Verdict, Fault>, err: &mut E) -> u8
    ensures judged { IfOk ran (λ verdict. (result ≡ status_by verdict) × (E.contents err.new ≡ E.contents err.old)) }
    ensures failed { IfErr ran (λ why. (result ≡ 1) × StartsReport why (E.contents err.old) (E.contents err.new)) }
{
    match ran {
        Ok(Verdict::Fine) => 0,
        Ok(Verdict::Wrong(_)) => FAILED,
        Err(fault) => status_of(Err(fault), err),
    }
}

fn read_and_run<R: Threads + Wait + Sync, I: Read, O: Write>(
    rt: &R,
    alloc: Global,
    script: &mut I,
    out: &mut O,
) -> Result<Verdict, Fault>
    ensures whole { IfOk result (λ verdict. IfSome (I.remaining script.old) (λ all. PrintsScriptOnThreads Own all verdict (O.contents out.old) (O.contents out.new))) }
    ensures faulty { IfSome (I.remaining script.old) (λ all. (n : ℕ) (cause : Cause) → IsFirstFault Run (lines all) n cause → IsErr result × Keeps (O.contents out.old) (O.contents out.new)) }
    ensures crowd { IfSome (I.remaining script.old) (λ all. MOST_ACTORS < actors_of_script all → IsErr result × Keeps (O.contents out.old) (O.contents out.new)) }
    ensures why { IfErr result (λ why. IfSome (I.remaining script.old) (λ all. IsUnread all why ⊎ ExplainsOnThreads plain [] all why)) }
{
    match read_script(alloc, script) {
        Ok(bytes) => run_script_on_threads(rt, alloc, Options::default(), "", &bytes, out),
        Err(fault) => Err(fault),
    }
}

/// `memcgrun run FILE`, for a reader of the script and two writers: runs the script on threads, and writes its answers to
/// `out`. The answers to the lines before the first `go` are written as they come. Then the answers of each actor's row
/// are written, and after them the verdict, in one line.
///
/// The exit status is 0 if the verdict is `audit ok`. It is 1 for another verdict, and then `err` gets nothing. It is also
/// 1 if the run fails, as [`crate::schedule`] does. The call is [`read_script`], [`run_script_on_threads`] and
/// [`status_of_run`].
///
/// The clauses are about readers whose bytes are known, and writers whose contents are known.
pub fn run<R: Threads + Wait + Sync, I: Read, O: Write, E: Write>(
    rt: &R,
    alloc: Global,
    script: &mut I,
    out: &mut O,
    err: &mut E,
) -> u8
    ensures success_or_failure { result ≤ 1 }
    // If it is 0, `out` got what a run of the script prints and then `audit ok`, and `err` got nothing.
    ensures sound { result ≡ 0 → IfSome (I.remaining script.old) (λ all. PrintsScriptOnThreads Own all Verdict.Fine (O.contents out.old) (O.contents out.new)) }
    ensures silent { result ≡ 0 → Keeps (E.contents err.old) (E.contents err.new) }
    // For a script with a faulty line it is 1, and `out` got nothing.
    ensures faulty { IfSome (I.remaining script.old) (λ all. (n : ℕ) (cause : Cause) → IsFirstFault Run (lines all) n cause → (result ≡ 1) × Keeps (O.contents out.old) (O.contents out.new)) }
    // The same holds for a script with more actors than can run at once.
    ensures crowd { IfSome (I.remaining script.old) (λ all. MOST_ACTORS < actors_of_script all → (result ≡ 1) × Keeps (O.contents out.old) (O.contents out.new)) }
{
    let ran = read_and_run(rt, alloc, script, out);
    status_of_run(ran, err)
}
