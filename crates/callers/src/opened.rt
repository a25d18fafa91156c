//! A caller of `live`: a machine from nothing, two tasks on threads, and the end of their run.

ghost use Rattle.std.specs.Prelude.{◌≡◌, ◌≤◌, ◌+◌, ◌∷◌, [], false, length, reverse, All, IfOk};
ghost use Rattle.machine.specs.declared.command.Actor.TheVariants.{Control, Task};
ghost use Rattle.machine.specs.State.{opening_of};
ghost use Rattle.turns.specs.Tickets.{blocks_in};
ghost use Rattle.live.specs.Works.{Worked};
ghost use Rattle.live.specs.Matching.{has_share};
ghost use Rattle.live.specs.Reports.{IsLegal};
ghost use Rattle.live.specs.OneRun.{IsOneRun};
ghost use Rattle.callers.specs.Opened.{Answered, AreOfOneRun};

use block_store::{Locked, MemDevice, SharedDevice};
use files::blocks_for;
use live::{Live, Opened, Pass, Report, Roll, Unnamed};
use machine::command::{Answer, Command, Reply};
use machine::config::{Config, FileList, Placement, Watermarks};
use machine::event::{Op, Place};
use machine::page_size::PageSize;
use machine::refusal::Refusal;
use machine::text::Text;
use std::alloc::{AllocError, Global};
use std::marker::Brand;
use std::sync::Wait;
use std::test::Fail;
use std::thread;
use std::thread::Threads;

/// A worker's pass, and what it answered.
#[derive(Drop)]
struct Row<L: Opened> {
    pass: Pass<L>,
    answers: Vec<Reply>,
}

/// What the workers answered.
#[derive(Drop)]
struct Answers {
    shell: Vec<Reply>,
    one: Vec<Reply>,
    two: Vec<Reply>,
}

/// The same, and their passes.
#[derive(Drop)]
struct Crew<L: Opened> {
    passes: Vec<Pass<L>>,
    answers: Answers,
}

/// The same, and the report of their run.
#[derive(Drop)]
struct Ended<D: Drop> {
    answers: Answers,
    report: Report<D>,
}

fn control<L: Opened, D: SharedDevice, R: Wait>(
    rt: &R,
    live: &Live<L, D>,
    pass: Pass<L>,
    commands: &[Command],
) -> Result<Row<L>, Refusal>
    ensures works { IfOk result (λ row. Worked L.opening Control commands.now pass.exchanges row.pass.exchanges row.answers.items) }
    ensures rest { IfOk result (λ row. has_share pass.kept ≡ false → has_share row.pass.kept ≡ false) }
{
    let mut pass = pass;
    let answers = live.control(rt, &mut pass, commands)?;
    Ok(Row { pass, answers })
}

fn task<L: Opened, D: SharedDevice, R: Wait>(
    rt: &R,
    live: &Live<L, D>,
    pass: Pass<L>,
    number: u32,
    commands: &[Command],
) -> Result<Row<L>, Refusal>
    ensures works { IfOk result (λ row. Worked L.opening (Task number) commands.now pass.exchanges row.pass.exchanges row.answers.items) }
    ensures rest { IfOk result (λ row. has_share pass.kept ≡ false → has_share row.pass.kept ≡ false) }
{
    let mut pass = pass;
    let answers = live.task(rt, &mut pass, number, commands)?;
    Ok(Row { pass, answers })
}

/// All passes, and what was answered with them.
fn gather<L: Opened>(
    alloc: Global,
    shell: Row<L>,
    one: Row<L>,
    two: Row<L>,
) -> Result<Crew<L>, Refusal>
    ensures passes { IfOk result (λ crew. crew.passes.items ≡ shell.pass ∷ one.pass ∷ two.pass ∷ []) }
    ensures shell { IfOk result (λ crew. crew.answers.shell.items ≡ shell.answers.items) }
    ensures one { IfOk result (λ crew. crew.answers.one.items ≡ one.answers.items) }
    ensures two { IfOk result (λ crew. crew.answers.two.items ≡ two.answers.items) }
{
    let mut passes = Vec::new(alloc);
    if passes.reserve(3).is_err() {
        return Err(Refusal::NoMemory);
    }
    passes.push_reserved(shell.pass);
    passes.push_reserved(one.pass);
    passes.push_reserved(two.pass);
    let answers = Answers {
        shell: shell.answers,
        one: one.answers,
        two: two.answers,
    };
    Ok(Crew { passes, answers })
}

/// The shell's commands, and then those of tasks 1 and 2, at the same time.
fn work<L: Opened + Send + Sync, D: SharedDevice + Sync, R: Threads + Wait + Sync>(
    rt: &R,
    alloc: Global,
    live: &Live<L, D>,
    roll: &mut Roll<L>,
    setup: &[Command],
    first: &[Command],
    second: &[Command],
) -> Result<Crew<L>, Refusal>
    requires { roll.old.given ≡ 0 }
    ensures answered { IfOk result (λ crew. Answered L.opening setup.now first.now second.now crew.answers.shell.items crew.answers.one.items crew.answers.two.items crew.passes.items) }
    ensures all { IfOk result (λ crew. length crew.passes.items ≡ roll.new.given) }
    ensures rest { IfOk result (λ crew. All (λ p. has_share p.kept ≡ false) crew.passes.items) }
{
    let shell = live.pass(rt, roll)?;
    let one = live.pass(rt, roll)?;
    let two = live.pass(rt, roll)?;
    let shell = control(rt, live, shell, setup)?;
    let (one, two) = thread::join(
        rt,
        move || task(rt, live, one, 1, first),
        move || task(rt, live, two, 2, second),
    );
    gather(alloc, shell, one?, two?)
}

/// Ends the run. Each pass that was given out is here, and none has a ticket out.
fn end<L: Opened, D: SharedDevice + Drop>(
    live: Live<L, D>,
    roll: Roll<L>,
    passes: Vec<Pass<L>>,
) -> Report<D>
    requires all { length passes.items ≡ roll.given }
    requires rest { All (λ p. has_share p.kept ≡ false) passes.items }
    ensures one_run { IsOneRun L.opening result.trace.entries passes.items }
    ensures legal { IsLegal L.opening (reverse result.trace.entries) }
{
    match live.finish(passes, roll) {
        Ok(report) => report,
        Err((live, _passes, _cause, roll)) => {
            live.give_up(roll);
            unreachable!()
        }
    }
}

/// Opens the machine, runs the commands, and ends the run.
fn run_over<L: Opened + Send + Sync, D: SharedDevice + Sync + Drop, R: Threads + Wait + Sync>(
    rt: &R,
    alloc: Global,
    config: Config,
    device: D,
    unnamed: Unnamed,
    setup: &[Command],
    first: &[Command],
    second: &[Command],
) -> Result<Ended<D>, Refusal>
    requires named { unnamed ≡ L.table }
    requires opened { opening_of config ≡ L.opening }
    requires fits { blocks_in L.opening ≤ D.extent device }
    ensures answers { IfOk result (λ ended. AreOfOneRun L.opening setup.now first.now second.now ended.answers.shell.items ended.answers.one.items ended.answers.two.items ended.report.trace.entries) }
    ensures legal { IfOk result (λ ended. IsLegal L.opening (reverse ended.report.trace.entries)) }
{
    let (live, mut roll) = match Live::<L, D>::open(alloc, config, device, unnamed) {
        Ok(opened) => opened,
        Err((_device, why)) => return Err(why),
    };
    match work(rt, alloc, &live, &mut roll, setup, first, second) {
        Ok(Crew { passes, answers }) => Ok(Ended {
            answers,
            report: end(live, roll, passes),
        }),
        Err(why) => {
            live.give_up(roll);
            Err(why)
        }
    }
}

/// Runs commands of the shell, and then those of tasks 1 and 2 at the same time, on a machine over a new device.
fn run_two<R: Threads + Wait + Sync>(
    rt: &R,
    alloc: Global,
    config: Config,
    setup: &[Command],
    first: &[Command],
    second: &[Command],
) -> Result<Ended<Locked<MemDevice>>, Refusal>
    ensures answers { IfOk result (λ ended. AreOfOneRun (opening_of config) setup.now first.now second.now ended.answers.shell.items ended.answers.one.items ended.answers.two.items ended.report.trace.entries) }
    ensures legal { IfOk result (λ ended. IsLegal (opening_of config) (reverse ended.report.trace.entries)) }
{
    let Some(blocks) = blocks_for(&config) else {
        return Err(Refusal::Invalid);
    };
    let Ok(device) = MemDevice::new(alloc, blocks, &[], &[]) else {
        return Err(Refusal::NoMemory);
    };
    let Ok(unnamed) = Unnamed::new(alloc) else {
        return Err(Refusal::NoMemory);
    };
    let device = Locked::new(device);
    run_over::<Brand, Locked<MemDevice>, R>(
        rt, alloc, config, device, unnamed, setup, first, second,
    )
}

/// One frame and two swap blocks.
fn machine(alloc: Global) -> Config {
    Config {
        frames: 1,
        swap: 2,
        files: FileList::new(alloc),
        watermarks: Watermarks { low: 0, high: 0 },
        trace: 10_000,
        turns: 1000,
        recursive: false,
        placement: Placement::Own,
        page_size: PageSize::of_4k(),
    }
}

fn group(alloc: Global) -> Result<Text, AllocError> {
    let path = String::from_str(alloc, "/a")?;
    Ok(Text::new(path))
}

/// Makes a group with two tasks.
fn setup(alloc: Global) -> Result<Vec<Command>, AllocError> {
    let mut commands = Vec::new(alloc);
    commands.push(Command::Group(group(alloc)?))?;
    for task in 1..3 {
        let path = group(alloc)?;
        commands.push(Command::Task { task, path })?;
    }
    Ok(commands)
}

/// Writes a byte to a page, and reads it back.
fn keep(byte: u8) -> [Command; 2] {
    let place = Place::Virtual { page: 0, offset: 0 };
    [
        Command::Access {
            place,
            op: Op::Write(byte),
        },
        Command::Access {
            place,
            op: Op::Read,
        },
    ]
}

/// Whether the answers are that all is done.
fn are_done(answers: &[Reply]) -> bool {
    answers
        .iter()
        .all(|reply| matches!(reply.answer, Answer::Done))
}

fn is_kept(answers: &[Reply], byte: u8) -> bool {
    match answers {
        [
            Reply {
                actor: _,
                answer: Answer::Done,
            },
            Reply {
                actor: _,
                answer: Answer::Byte(read),
            },
        ] => *read == byte,
        _ => false,
    }
}

#[test]
fn two_tasks_share_a_frame(rt: HostRuntime) -> Result<(), Fail> {
    let alloc = rt.alloc();
    let commands = setup(alloc)?;
    let ended = run_two(&rt, alloc, machine(alloc), &commands, &keep(5), &keep(6))?;
    let answers = &ended.answers;
    assert!(rt; answers.shell.len() == 3 && are_done(&answers.shell));
    assert!(rt; is_kept(&answers.one, 5) && is_kept(&answers.two, 6));
    assert!(rt; ended.report.audit.is_ok());
    Ok(())
}
