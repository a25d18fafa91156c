//! A trial of the setup.

ghost use Rattle.std.specs.Prelude.{◌≡◌, [], true, IfOk, IfErr, OnOk};
ghost use Rattle.std.specs.Option.{option_copied, option_map};
ghost use Rattle.std.specs.List.{find, before_first};
ghost use Rattle.std.specs.String.{string_bytes};
ghost use Rattle.machine.specs.State.{is_config};
ghost use Rattle.driver.specs.Schedule.{first_world};
ghost use Rattle.explorer.specs.Outcome.{disk_of};
ghost use Rattle.explorer.specs.Carried.{Carries};
ghost use Rattle.division.specs.Reasons.{refuses, refusal_text};
ghost use Rattle.division.specs.Sorting.{goes, steps_asked};
ghost use Rattle.division.specs.Trial.{Accepts, IsAccepted, IsTrialFault};

use crate::fault::Fault;
use crate::said::Said;
use crate::script::divided;
use block_store::MemDevice;
use driver::Stepper;
use explorer::{Parts, carry_one, close_run, open_run};
use machine::command::{Answer, Reply, Step, Word};
use std::alloc::{AllocError, Global};

/// Whether the answer refuses its line. A task that is killed is no refusal.
fn refuses(reply: &Reply) -> bool
    ensures { result ≡ refuses reply.now }
{
    match &reply.answer {
        Answer::Word(Word::Killed) => false,
        Answer::Word(_) => true,
        Answer::Byte(_)
        | Answer::Text(_)
        | Answer::Done
        | Answer::Kill(_)
        | Answer::KillAll { .. } => false,
    }
}

/// The first answer that refuses its line.
fn first_refusal(said: &[Reply]) -> Option<&Reply>
    ensures { option_copied result ≡ find refuses said.now }
{
    for reply in said {
        if refuses(reply) {
            return Some(reply);
        }
    }
    None
}

/// What the first answer that refuses its line prints, if there is one.
fn refusal_in(alloc: Global, said: &[Reply]) -> Result<Option<String>, AllocError>
    ensures { IfOk result (λ refusal. option_map string_bytes refusal ≡ option_map refusal_text (find refuses said.now)) }
{
    let Some(reply) = first_refusal(said) else {
        return Ok(None);
    };
    let mut text = String::new(alloc);
    reply.print(&mut text)?;
    Ok(Some(String::from_str(alloc, text.trim_end())?))
}

/// Carries out a line of the setup or of the looks.
pub fn carry_line(
    alloc: Global,
    run: &mut Stepper<MemDevice>,
    line: &Said,
    said: &mut Vec<Reply>,
) -> Result<(), AllocError>
    ensures { OnOk result (Carries run.old (steps_asked line.now) said.old.items said.new.items run.new) }
{
    match line {
        Said::Nothing | Said::Go => Ok(()),
        Said::Does(actor, command) => {
            carry_one(run, &Step::Begin(*actor, command.copy(alloc)?), said)?;
            carry_one(run, &Step::Finish(*actor), said)
        }
        Said::Step(step) => carry_one(run, step, said),
    }
}

/// Carries out the lines of the setup, up to the first one that is refused.
fn try_lines(alloc: Global, run: &mut Stepper<MemDevice>, setup: &[Said]) -> Result<(), Fault>
    ensures accepts { OnOk result (Accepts run.old setup.now run.new) }
    ensures why { IfErr result (IsTrialFault run.old setup.now) }
{
    let mut said = Vec::new(alloc);
    for (place, line) in setup.iter().enumerate() {
        carry_line(alloc, run, line, &mut said)?;
        if let Some(refusal) = refusal_in(alloc, &said)? {
            return Err(Fault::SetupFails(place + 1, refusal));
        }
        said.clear();
    }
    Ok(())
}

/// Carries out the setup, to see whether a line of it is refused. These are all lines of the script.
pub fn try_setup(alloc: Global, parts: &Parts, lines: &[Said]) -> Result<(), Fault>
    requires { is_config parts.now.config ≡ true }
    ensures accepts { OnOk result (IsAccepted (first_world parts.now.config (disk_of parts.now)) (before_first goes lines.now)) }
    ensures why { IfErr result (IsTrialFault (first_world parts.now.config (disk_of parts.now)) (before_first goes lines.now)) }
{
    let (setup, _) = divided(lines);
    let mut run = open_run(alloc, parts)?;
    let tried = try_lines(alloc, &mut run, setup);
    close_run(Some(run));
    tried
}
