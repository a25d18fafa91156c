//! A whole schedule.

ghost use Rattle.std.specs.Prelude.{◌≡◌, ◌⊎◌, ◌+◌, ◌≤◌, true, false, length, IfOk, IfErr, OnOk, OnErr};
ghost use Rattle.driver.specs.Schedule.{Schedules, fits, errors};
ghost use Rattle.driver.specs.Sinks.{GivesStart, IsCut};
ghost use Rattle.driver.specs.Traced.{GivesTrace};
ghost use Rattle.schedules.specs.Steps.{all_steps};

use crate::desk::Desk;
use crate::sink::{Cut, Sink, Stop};
use block_store::BlockDevice;
use files::blocks_for;
use machine::command::{Reply, Step};
use machine::config::Config;
use machine::refusal::Refusal;
use schedules::Steps;
use std::alloc::Global;
use trace::Trace;

/// The answers to a list of steps, in order: those of the plain machine over this device. Its first blocks are swap:
/// what they held is lost. The blocks after them are the homes of the files' pages: their contents are those of the
/// files at first.
///
/// `Invalid` if the configuration is out of its limits or the device has too few blocks. Otherwise `NoMemory` if memory
/// is refused and no command answers with that refusal.
pub fn run<D: BlockDevice>(
    alloc: Global,
    config: Config,
    device: &mut D,
    steps: &[Step],
) -> Result<Vec<Reply>, Refusal>
    ensures schedules { IfOk result (λ answers. Schedules config (D.disk device.old) steps.now answers.items (D.disk device.new)) }
    ensures sized { IfOk result (λ answers. fits config (D.disk device.old) ≡ true) }
    ensures errors { IfOk result (λ answers. errors answers.items + (D.disk device.old).failures ≤ (D.disk device.new).failures) }
    ensures err { IfErr result (λ cause. (cause ≡ Refusal.Invalid) × (fits config (D.disk device.old) ≡ false) ⊎ (cause ≡ Refusal.NoMemory) × (fits config (D.disk device.old) ≡ true)) }
    ensures untouched { fits config (D.disk device.old) ≡ false → D.disk device.new ≡ D.disk device.old }
    ensures blocks { length (D.disk device.new).contents ≡ length (D.disk device.old).contents }
    ensures limit { (D.disk device.new).fault_limit ≡ (D.disk device.old).fault_limit }
{
    let mut answers = Vec::new(alloc);
    match run_into(alloc, config, device, Steps::List(steps), &mut answers) {
        Ok(_) => Ok(answers),
        Err(Stop::Refused(cause)) => Err(cause),
        Err(Stop::Closed) => Err(Refusal::NoMemory),
    }
}

/// The same, but the sink gets each answer as it comes. The answers are known while the run continues, and also if it
/// fails. After each step the sink sees the book. A run that succeeds returns its trace: what the run did, and after
/// that the ends of the transfers that it left open, which fail.
///
/// `Closed` if the sink takes no more answers; the run ends then.
pub fn run_into<D: BlockDevice, S: Sink>(
    alloc: Global,
    config: Config,
    device: &mut D,
    steps: Steps<'_>,
    sink: &mut S,
) -> Result<Trace, Stop>
    ensures gives { IfOk result (λ trace. GivesTrace S.took S.saw config (D.disk device.old) (all_steps steps.entry) sink.old sink.new (D.disk device.new) trace.entries) }
    ensures starts { OnErr result (fits config (D.disk device.old) ≡ true → GivesStart S.took S.failed config (D.disk device.old) (all_steps steps.entry) sink.old sink.new (D.disk device.new)) }
    ensures sized { OnOk result (fits config (D.disk device.old) ≡ true) }
    ensures err { IfErr result (λ stop. (stop ≡ Stop.Refused Refusal.Invalid) × (fits config (D.disk device.old) ≡ false) ⊎ IsCut stop × (fits config (D.disk device.old) ≡ true)) }
    ensures untouched { fits config (D.disk device.old) ≡ false → D.disk device.new ≡ D.disk device.old }
    ensures unheard { fits config (D.disk device.old) ≡ false → sink.new ≡ sink.old }
    ensures blocks { length (D.disk device.new).contents ≡ length (D.disk device.old).contents }
    ensures limit { (D.disk device.new).fault_limit ≡ (D.disk device.old).fault_limit }
{
    let Some(blocks) = blocks_for(&config) else {
        return Err(Stop::Refused(Refusal::Invalid));
    };
    if device.blocks() < blocks {
        return Err(Stop::Refused(Refusal::Invalid));
    }
    let mut desk = match Desk::open(alloc, config) {
        Ok(desk) => desk,
        Err(cause) => return Err(Stop::Refused(cause)),
    };
    let ran = desk.run_all(device, steps, sink);
    desk.book.history_is_right();
    let trace = desk.close();
    match ran {
        Ok(()) => Ok(trace),
        Err(cut) => Err(stop_of(cut)),
    }
}

/// Why a run into a sink fails if it was cut short.
pub fn stop_of(cut: Cut) -> Stop
    ensures { IsCut result }
{
    match cut {
        Cut::NoMemory => Stop::Refused(Refusal::NoMemory),
        Cut::Closed => Stop::Closed,
    }
}
