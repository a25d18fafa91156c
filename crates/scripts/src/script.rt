//! Scripts.

ghost use Rattle.std.specs.Prelude.{◌≡◌, ◌<◌, ◌⊎◌, ℕ, List, [], length, slice_index_or, true, IfOk, IfErr, OnOk};
ghost use Rattle.std.specs.Str.Lines.{lines};
ghost use Rattle.machine.specs.State.{is_config};
ghost use Rattle.scripts.specs.declared.fault.Cause.{Cause};
ghost use Rattle.scripts.specs.declared.forms.DeviceCall.TheVariants.{Read, Write};
ghost use Rattle.scripts.specs.declared.meaning.Item.TheVariants.{Does};
ghost use Rattle.scripts.specs.declared.mode.Mode.{Mode};
ghost use Rattle.scripts.specs.Words.{words_of};
ghost use Rattle.scripts.specs.Faults.{fault};
ghost use Rattle.scripts.specs.Meaning.{meaning};
ghost use Rattle.scripts.specs.Lines.{Adds};
ghost use Rattle.scripts.specs.Header.{config_of, frames_line, own_fault};
ghost use Rattle.scripts.specs.Script.{items_of, faults_of, steps_in, lines_in, fault_at, IsFaultless, IsFirstFault, NamesFirstFault};
ghost use Rattle.schedules.specs.Schedule.{steps_of_entry};
ghost use Rattle.scripts.specs.Work.{setup_in, work_in, shown_rows};
ghost use Rattle.scripts.specs.Reading.{known_by, at_start, with_fault, with_steps, after, IsSaid};

use crate::context::Context;
use crate::fault::{LineError, ScriptFault};
use crate::forms::{DeviceCall, Word};
use crate::header::{default_config, header_frames};
use crate::line::read_line;
use crate::lines::first_line;
use crate::meaning::Item;
use crate::mode::Mode;
use crate::work::Work;
use machine::command::{Actor, Command, Step};
use machine::config::Config;
use schedules::{Entry, Schedule};
use std::alloc::{AllocError, Global};

/// What a script says.
#[derive(Drop)]
pub struct Script {
    /// What the header fixes.
    pub config: Config,
    /// Which reads of the device fail, counted from 1, in the order of the header's lines.
    pub read_faults: Vec<u64>,
    /// Which writes, likewise.
    pub write_faults: Vec<u64>,
    /// For a schedule, what the other lines ask for, in their order, with their numbers, from 1.
    pub schedule: Schedule,
    /// For a run on threads, what the lines before the first `go` ask for, in their order.
    pub setup: Vec<(Actor, Command)>,
    /// What the lines after it ask for, in their order. Each actor that is asked for something has a row, by rising
    /// number; the shell's comes before those of the tasks.
    pub work: Vec<(Actor, Vec<Command>)>,
}

/// What has been read of a script.
#[derive(Drop)]
struct Reading {
    context: Context,
    /// A `go` came.
    gone: bool,
    read_faults: Vec<u64>,
    write_faults: Vec<u64>,
    schedule: Schedule,
    setup: Vec<(Actor, Command)>,
    work: Work,
}

impl Reading {
    fn new(alloc: Global, mode: Mode, frames: u32) -> Reading
        ensures { known_by result ≡ at_start mode frames }
    {
        Reading {
            context: Context {
                mode,
                frames,
                commands: false,
                given: Vec::new(alloc),
                config: default_config(alloc),
            },
            gone: false,
            read_faults: Vec::new(alloc),
            write_faults: Vec::new(alloc),
            schedule: Schedule::new(alloc),
            setup: Vec::new(alloc),
            work: Work::new(alloc),
        }
    }

    fn add_fault(&mut self, call: DeviceCall, number: u32) -> Result<(), AllocError>
        ensures { OnOk result (known_by self.new ≡ with_fault (known_by self.old) call number) }
    {
        self.context.given.push(Word::Fault)?;
        match call {
            DeviceCall::Read => self.read_faults.push(u64::from(number))?,
            DeviceCall::Write => self.write_faults.push(u64::from(number))?,
        }
        Ok(())
    }

    /// In a run on threads there are no steps.
    fn add_entry(&mut self, line: usize, entry: Entry) -> Result<(), AllocError>
        ensures { OnOk result (known_by self.new ≡ with_steps (known_by self.old) line (steps_of_entry entry)) }
    {
        self.context.commands = true;
        match self.context.mode {
            Mode::Schedule => self.schedule.add(line, entry)?,
            Mode::Run => {}
        }
        Ok(())
    }

    /// The command of the line with this number, which is done from its beginning to its end.
    fn add_command(
        &mut self,
        alloc: Global,
        line: usize,
        actor: Actor,
        command: Command,
    ) -> Result<(), AllocError>
        ensures { OnOk result (known_by self.new ≡ after (known_by self.old) line (Does actor command)) }
    {
        self.context.commands = true;
        match self.context.mode {
            Mode::Schedule => self.schedule.add(line, Entry::Whole(actor, command))?,
            Mode::Run if self.gone => self.work.add(alloc, actor, command)?,
            Mode::Run => self.setup.push((actor, command))?,
        }
        Ok(())
    }

    /// What the line with this number says.
    fn add(&mut self, alloc: Global, line: usize, item: Item) -> Result<(), AllocError>
        ensures { OnOk result (known_by self.new ≡ after (known_by self.old) line item) }
    {
        match item {
            Item::Nothing => {}
            Item::Frames(frames) => {
                self.context.given.push(Word::Frames)?;
                self.context.config.frames = frames;
            }
            Item::Swap(swap) => {
                self.context.given.push(Word::Swap)?;
                self.context.config.swap = swap;
            }
            Item::File(file) => {
                self.context.given.push(Word::File)?;
                self.context.config.files.push(file)?;
            }
            Item::Marks(marks) => {
                self.context.given.push(Word::Watermarks)?;
                self.context.config.watermarks = marks;
            }
            Item::Trace(trace) => {
                self.context.given.push(Word::Trace)?;
                self.context.config.trace = trace;
            }
            Item::Fails(call, number) => self.add_fault(call, number)?,
            Item::Recursive => {
                self.context.given.push(Word::RecursiveProtection)?;
                self.context.config.recursive = true;
            }
            Item::PageSize(page_size) => {
                self.context.given.push(Word::PageSize)?;
                self.context.config.page_size = page_size;
            }
            Item::Does(actor, command) => self.add_command(alloc, line, actor, command)?,
            Item::Begins(actor, command) => self.add_entry(
                line,
                Entry::Step(Step::Begin(actor, command)),
            )?,
            Item::Advances(actor) => self.add_entry(line, Entry::Step(Step::Advance(actor)))?,
            Item::Finishes(actor) => self.add_entry(line, Entry::Step(Step::Finish(actor)))?,
            Item::EndsSetup => {
                self.context.commands = true;
                self.gone = true;
            }
        }
        Ok(())
    }

    /// The line with this number.
    fn add_line(&mut self, alloc: Global, number: usize, line: &[u8]) -> Result<(), LineError>
        ensures { Adds result
            (fault (known_by self.old).mode (known_by self.old).around line.now)
            (known_by self.new ≡ after (known_by self.old) number (meaning (known_by self.old).around.config.files (words_of line.now))) }
    {
        let item = read_line(alloc, &self.context, line)?;
        self.add(alloc, number, item)?;
        Ok(())
    }

    /// What all lines of a script said.
    fn into_script(self, alloc: Global) -> Result<Script, AllocError>
        ensures { IfOk result (λ s. IsSaid s (known_by self)) }
    {
        let Reading {
            context,
            gone: _,
            read_faults,
            write_faults,
            schedule,
            setup,
            work,
        } = self;
        let Context { config, .. } = context;
        Ok(Script {
            config,
            read_faults,
            write_faults,
            schedule,
            setup,
            work: work.into_rows(alloc)?,
        })
    }
}

/// What a script says, or its first faulty line and the first of that line's causes.
///
/// Unless memory runs out, the result is `Ok` exactly if no line of the text is faulty.
pub fn read(alloc: Global, text: &[u8], mode: Mode) -> Result<Script, ScriptFault>
    ensures faultless { IfOk result (λ _. IsFaultless mode (lines text.now)) }
    ensures config { IfOk result (λ s. s.config ≡ config_of (items_of (lines text.now))) }
    ensures limits { IfOk result (λ s. is_config s.config ≡ true) }
    ensures read_faults { IfOk result (λ s. s.read_faults.items ≡ faults_of Read (items_of (lines text.now))) }
    ensures write_faults { IfOk result (λ s. s.write_faults.items ≡ faults_of Write (items_of (lines text.now))) }
    ensures steps { IfOk result (λ s. s.schedule.steps ≡ steps_in mode (items_of (lines text.now))) }
    ensures lines { IfOk result (λ s. s.schedule.numbers ≡ lines_in mode (items_of (lines text.now))) }
    ensures setup { IfOk result (λ s. s.setup.items ≡ setup_in mode (items_of (lines text.now))) }
    ensures work { IfOk result (λ s. shown_rows s.work.items ≡ work_in mode (items_of (lines text.now))) }
    ensures fault { IfErr result (λ e. NamesFirstFault mode e (lines text.now)) }
{
    let Ok(frames) = header_frames(alloc, text) else {
        return Err(ScriptFault::Memory);
    };
    let mut reading = Reading::new(alloc, mode, frames);
    let mut rest = text;
    let mut number = 0;
    while !rest.is_empty() {
        let (line, after) = first_line(rest);
        number += 1;
        match reading.add_line(alloc, number, line) {
            Ok(()) => rest = after,
            Err(LineError::Memory) => return Err(ScriptFault::Memory),
            Err(LineError::Fault(cause)) => return Err(ScriptFault::At {
                line: number,
                cause,
            }),
        }
    }
    match reading.into_script(alloc) {
        Ok(script) => Ok(script),
        Err(AllocError) => Err(ScriptFault::Memory),
    }
}

/// A law, whatever a script is read for: it is faultless or has a first fault, not both. It has only one first fault.
pub fn one_answer()
    ensures some { (mode : Mode) (ls : List (List ℕ)) → IsFaultless mode ls ⊎ ((n : ℕ) × (c : Cause) × IsFirstFault mode ls n c) }
    ensures not_both { (mode : Mode) (ls : List (List ℕ)) (n : ℕ) (c : Cause) → IsFirstFault mode ls n c → IsFaultless mode ls → ⊥ }
    ensures one { (mode : Mode) (ls : List (List ℕ)) (m n : ℕ) (c d : Cause) → IsFirstFault mode ls m c → IsFirstFault mode ls n d → (m ≡ n) × (c ≡ d) }
{}

/// A law: the `frames` line that the daemon's watermarks are compared with is one of the script's lines. Whether it has
/// a fault, and which, is decided as for every line, whatever the script is read for.
pub fn frames_line_has_its_own_fault()
    ensures { (mode : Mode) (ls : List (List ℕ)) (l : List ℕ) → frames_line ls ≡ Some l → (k : ℕ) × (k < length ls) × (slice_index_or ls k [] ≡ l) × (fault_at mode ls k ≡ own_fault l) }
{}
