//! Prints the answers of a run as they come.

ghost use Rattle.std.specs.Prelude.{◌≡◌, ◌⊎◌, ◌∷◌, [], IsErr, IfOk, IfErr, OnOk, OnErr, true, false, None, reverse};
ghost use Rattle.std.specs.Io.KnownBytes.{Appends, Keeps};
ghost use Rattle.machine.specs.FirstBytes.{first_of};
ghost use Rattle.machine.specs.Audit.{Passes};
ghost use Rattle.driver.specs.Schedule.{fits};
ghost use Rattle.printer.specs.Asked.{marks_lines, speaks};
ghost use Rattle.printer.specs.Prints.{behind_answers, is_end, refuses, AppendsStart, PrintsRun, PrintsStart, EndsRun};
ghost use Rattle.printer.specs.Sinks.{OutTakes, OutBegins, IsQuiet, GoesOn, is_ended, EndsAt};

use crate::amounts::add_reply;
use crate::begun::Begun;
use crate::judged::{is_minor, refusal_of};
use crate::killing::{GroupKill, Killed, Killing, killed_in};
use crate::metered::{Calls, Metered, Moved};
use crate::observed::Observed;
use crate::options::{Options, Printing};
use crate::output::{write_bytes, write_line};
use crate::source::{Line, Source, Texts, lines_for};
use crate::stopped::Stopped;
use crate::tally::{Summary, Tally};
use block_store::BlockDevice;
use book::Book;
use driver::{
    Actor, Answer, Closed, Command, Config, FailedCall, Reply, Sink, Steps, Stop, Word, run_into,
};
use explain::{Reason, Told, Words, reason_of};
use machine::event::Cause;
use machine::refusal::Refusal;
use std::alloc::{AllocError, Global};
use std::io;
use std::io::Write;
use trace::{Trace, audit};

/// What a line is answered if the trace has no room.
const TRACE_FULL: Word = Word::Refused(Refusal::TraceFull);

/// After so many lines of the script, a line says how many are done.
const PROGRESS_LINES: usize = 10_000;

/// Makes a terminal erase its current line.
pub const ERASE: &[u8] = b"\r\x1b[K";

/// The sink of a run's answers. Each is written as it comes, in one piece.
///
/// It owns no memory: the proof of [`print_run`] knows what its writers hold only if it has no memory besides them.
#[derive(Drop)]
struct Printer<'o, 'e, 's, 'l, 't, 'b, 'g, 'p, 'f, O: Write, E: Write> {
    out: &'o mut O,
    err: &'e mut E,
    asked: Printing,
    source: Source<'s>,
    texts: Texts<'l, 's>,
    /// What is written next.
    text: &'t mut String,
    /// Which command each actor is at, if something asks for it.
    begun: &'b mut Begun,
    /// What was seen of groups, if something asks for it.
    observed: &'g mut Observed<'p>,
    /// How many hundredths of the lines a terminal shows as done, if it shows any.
    shown: Option<usize>,
    /// How often a line has said how many lines are done, if it had been said after each 10,000 lines.
    told: usize,
    /// How many of the steps are done, as far as is known.
    done: usize,
    tally: Tally,
    /// Why no more answers are taken.
    stopped: &'f mut Option<Stopped>,
}

impl<'o, 'e, 's, 'l, 't, 'b, 'g, 'p, 'f, O: Write, E: Write> Printer<
    'o,
    'e,
    's,
    'l,
    't,
    'b,
    'g,
    'p,
    'f,
    O,
    E,
> {
    /// The number of the line that was done last.
    fn line_done(&self) -> usize {
        self.source.line_of(self.done.saturating_sub(1))
    }

    /// Writes the answer, if it prints anything.
    fn write(&mut self, step: usize, reply: &Reply) -> io::Result<()>
        ensures out { self.new.out.ghost_name ≡ self.old.out.ghost_name }
        ensures err { self.new.err.ghost_name ≡ self.old.err.ghost_name }
        ensures asked { self.new.asked ≡ self.old.asked }
        ensures stopped { self.new.stopped.now ≡ self.old.stopped.now }
        ensures whole { OnOk result (OutTakes self.old.asked (O.contents self.old.out.now) (O.contents self.new.out.now) (reply.now ∷ [])) }
        ensures start { OnErr result (OutBegins self.old.asked (O.contents self.old.out.now) (O.contents self.new.out.now) (reply.now ∷ [])) }
        ensures quiet { IsQuiet self.old.asked self.old.shown self.new.shown (E.contents self.old.err.now) (E.contents self.new.err.now) }
    {
        if self.asked.options.quiet && is_minor(&reply.answer) {
            return Ok(());
        }
        self.text.clear();
        add_reply(
            self.text,
            self.asked.page_size,
            self.asked.options.amounts,
            reply,
        )?;
        if self.text.is_empty() {
            return Ok(());
        }
        self.hide();
        if !self.asked.options.marks_lines() {
            return write_bytes(self.out, self.text.as_bytes());
        }
        let killing = match killed_in(&reply.answer) {
            Some(killed) if self.asked.options.labels => self.observed.killing_of(killed),
            _ => None,
        };
        self.write_marked(step, killing)
    }

    /// Writes the lines that are to be written next. Each begins with the number of its line of the script, and
    /// with that line's words if they are asked for. Then a kill gets more words, too.
    fn write_marked(&mut self, step: usize, killing: Option<Killing<'_>>) -> io::Result<()>
        requires { marks_lines self.old.asked.options ≡ true }
        ensures out { self.new.out.ghost_name ≡ self.old.out.ghost_name }
        ensures err { self.new.err ≡ self.old.err }
        ensures asked { self.new.asked ≡ self.old.asked }
        ensures stopped { self.new.stopped.now ≡ self.old.stopped.now }
        ensures shown { self.new.shown ≡ self.old.shown }
    {
        let number = self.source.line_of(step);
        let words = Words(self.texts.of(number));
        let alloc = *self.text.allocator();
        let mut marked = String::new(alloc);
        for line in self.text.lines() {
            if self.asked.options.labels {
                write!(marked, "{number}: {words}: {line}")?;
                if let Some(killing) = &killing {
                    write!(marked, "{}", GroupKill(killing))?;
                }
                marked.push('\n')?;
            } else {
                writeln!(marked, "{number}: {line}")?;
            }
        }
        write_bytes(self.out, marked.as_bytes())
    }

    /// Erases what a terminal shows.
    fn hide(&mut self)
        ensures out { self.new.out ≡ self.old.out }
        ensures err { self.new.err.ghost_name ≡ self.old.err.ghost_name }
        ensures asked { self.new.asked ≡ self.old.asked }
        ensures text { self.new.text.now ≡ self.old.text.now }
        ensures stopped { self.new.stopped.now ≡ self.old.stopped.now }
        ensures quiet { IsQuiet self.old.asked self.old.shown self.new.shown (E.contents self.old.err.now) (E.contents self.new.err.now) }
    {
        if self.shown.take().is_some() {
            // Nothing depends on it: the run continues if it can't be written.
            let _ = self.err.write_all(ERASE);
        }
    }

    /// Shows on a terminal how many lines are done, if the number of hundredths has changed.
    fn show(&mut self, step: usize)
        ensures out { self.new.out ≡ self.old.out }
        ensures err { self.new.err.ghost_name ≡ self.old.err.ghost_name }
        ensures asked { self.new.asked ≡ self.old.asked }
        ensures stopped { self.new.stopped.now ≡ self.old.stopped.now }
    {
        let source = self.source;
        let done = source.line_of(step);
        let last = source.last_line();
        let hundredth = done.saturating_mul(100).checked_div(last).unwrap_or(100);
        if self.shown != Some(hundredth) {
            let _ = write!(self.err, "\r{done} of {last} lines");
            self.shown = Some(hundredth);
        }
    }

    /// Says in a line how many lines are done, if the answer is the first after another 10,000 lines.
    fn tell_progress(&mut self, step: usize)
        ensures out { self.new.out ≡ self.old.out }
        ensures err { self.new.err.ghost_name ≡ self.old.err.ghost_name }
        ensures asked { self.new.asked ≡ self.old.asked }
        ensures stopped { self.new.stopped.now ≡ self.old.stopped.now }
    {
        let source = self.source;
        let done = source.line_of(step);
        let told = done / PROGRESS_LINES;
        if told > self.told {
            self.told = told;
            let last = source.last_line();
            // Nothing depends on it: the run continues if it can't be written.
            let _ = writeln!(self.err, "progress: line {done} of {last}");
        }
    }

    /// Leaves on a terminal how many lines were done when the run was cut short.
    fn leave_shown(&mut self)
        ensures out { self.new.out ≡ self.old.out }
        ensures err { self.new.err.ghost_name ≡ self.old.err.ghost_name }
        ensures asked { self.new.asked ≡ self.old.asked }
        ensures stopped { self.new.stopped.now ≡ self.old.stopped.now }
    {
        let source = self.source;
        let done = source.line_of(self.done.saturating_sub(1));
        let last = source.last_line();
        let _ = writeln!(self.err, "{done} of {last} lines");
    }

    /// Makes the text say which line was refused, and why.
    fn say_why(&mut self, step: usize, actor: Actor, word: Word) -> io::Result<()>
        ensures out { self.new.out ≡ self.old.out }
        ensures err { self.new.err ≡ self.old.err }
        ensures asked { self.new.asked ≡ self.old.asked }
        ensures stopped { self.new.stopped.now ≡ self.old.stopped.now }
        ensures shown { self.new.shown ≡ self.old.shown }
    {
        self.begun.look(self.source, step)?;
        if word == Word::Underway {
            self.begun.pass_by(step);
        }
        let source = self.source;
        let texts = self.texts;
        let number = source.line_of(step);
        let words = Words(texts.of(number));
        self.text.clear();
        write!(self.text, "{}:{number}: {words}: {word}", source.name)?;
        let alloc = *self.text.allocator();
        let told = told_of(alloc, source, texts, self.begun.of(actor), actor, number);
        if word == Word::Io
            && let Some(failure) = self.observed.failure(is_access(told))
        {
            write!(self.text, ", {failure}")?;
        } else if let Some(reason) = reason_for(actor, told, word) {
            write!(self.text, ", {reason}")?;
        }
        Ok(())
    }

    /// Handles an answer that refuses something: it ends a strict run, or a line says why.
    fn heed(&mut self, step: usize, actor: Actor, word: Word) -> Result<(), Stopped>
        ensures out { self.new.out.ghost_name ≡ self.old.out.ghost_name }
        ensures err { self.new.err.ghost_name ≡ self.old.err.ghost_name }
        ensures asked { self.new.asked ≡ self.old.asked }
        ensures stopped { self.new.stopped.now ≡ self.old.stopped.now }
        ensures kept { Keeps (O.contents self.old.out.now) (O.contents self.new.out.now) }
        ensures goes_on { OnOk result (self.old.asked.options.strict ≡ false) }
        ensures ends { IfErr result (λ why. is_end why ≡ true → self.old.asked.options.strict ≡ true) }
        ensures quiet { IsQuiet self.old.asked self.old.shown self.new.shown (E.contents self.old.err.now) (E.contents self.new.err.now) }
    {
        if self.asked.options.strict {
            return Err(self.end_at(step, actor, word));
        }
        let source = self.source;
        self.tally = self.tally.with_failed(source.line_of(step));
        if self.asked.options.explain && !self.is_told(word) {
            self.tell_why(step, actor, word)?;
        }
        Ok(())
    }

    /// Whether an explanation of this word would be the same as one before. The line about failures counts the others.
    fn is_told(&self, word: Word) -> bool {
        word == TRACE_FULL && self.tally.times(word) > 1
    }

    /// Ends a strict run at this step.
    fn end_at(&mut self, step: usize, actor: Actor, word: Word) -> Stopped
        ensures out { self.new.out ≡ self.old.out }
        ensures err { self.new.err ≡ self.old.err }
        ensures asked { self.new.asked ≡ self.old.asked }
        ensures stopped { self.new.stopped.now ≡ self.old.stopped.now }
        ensures shown { self.new.shown ≡ self.old.shown }
    {
        if let Err(error) = self.say_why(step, actor, word) {
            return Stopped::Unwritten(error);
        }
        let alloc = *self.text.allocator();
        match String::from_str(alloc, self.text.as_str()) {
            Ok(told) => Stopped::Refused(told),
            Err(error) => Stopped::Unwritten(error.into()),
        }
    }

    /// Says which line was refused, and why, after all answers are out.
    fn tell_why(&mut self, step: usize, actor: Actor, word: Word) -> Result<(), Stopped>
        requires { self.old.asked.options.explain ≡ true }
        ensures out { self.new.out.ghost_name ≡ self.old.out.ghost_name }
        ensures err { self.new.err.ghost_name ≡ self.old.err.ghost_name }
        ensures asked { self.new.asked ≡ self.old.asked }
        ensures stopped { self.new.stopped.now ≡ self.old.stopped.now }
        ensures kept { Keeps (O.contents self.old.out.now) (O.contents self.new.out.now) }
        ensures ends { IfErr result (λ why. is_end why ≡ false) }
    {
        if let Err(error) = self.say_why(step, actor, word) {
            return Err(Stopped::Unwritten(error));
        }
        self.say()
    }

    /// Writes the text as a line of messages, after all answers are out.
    fn say(&mut self) -> Result<(), Stopped>
        requires { self.old.asked.options.explain ≡ true }
        ensures out { self.new.out.ghost_name ≡ self.old.out.ghost_name }
        ensures err { self.new.err.ghost_name ≡ self.old.err.ghost_name }
        ensures asked { self.new.asked ≡ self.old.asked }
        ensures stopped { self.new.stopped.now ≡ self.old.stopped.now }
        ensures kept { Keeps (O.contents self.old.out.now) (O.contents self.new.out.now) }
        ensures ends { IfErr result (λ why. is_end why ≡ false) }
    {
        if let Err(error) = self.out.flush() {
            return Err(Stopped::Unwritten(error));
        }
        // Nothing depends on it: the run continues if it can't be written.
        let _ = write_line(self.err, self.text.as_bytes());
        Ok(())
    }

    /// Says why a task was killed, if that was the answer and the options ask for it.
    fn tell_kill(&mut self, step: usize, answer: &Answer) -> Result<(), Stopped>
        ensures out { self.new.out.ghost_name ≡ self.old.out.ghost_name }
        ensures err { self.new.err.ghost_name ≡ self.old.err.ghost_name }
        ensures asked { self.new.asked ≡ self.old.asked }
        ensures stopped { self.new.stopped.now ≡ self.old.stopped.now }
        ensures kept { Keeps (O.contents self.old.out.now) (O.contents self.new.out.now) }
        ensures ends { IfErr result (λ why. is_end why ≡ false) }
        ensures quiet { IsQuiet self.old.asked self.old.shown self.new.shown (E.contents self.old.err.now) (E.contents self.new.err.now) }
    {
        let Some(killed) = killed_in(answer) else {
            return Ok(());
        };
        if !self.asked.options.explain {
            return Ok(());
        }
        match self.say_kill(step, killed) {
            Ok(false) => Ok(()),
            Ok(true) => self.say(),
            Err(error) => Err(Stopped::Unwritten(error)),
        }
    }

    /// Makes the text say why the task was killed, and returns whether anything is known of it.
    fn say_kill(&mut self, step: usize, killed: Killed) -> io::Result<bool>
        ensures out { self.new.out ≡ self.old.out }
        ensures err { self.new.err ≡ self.old.err }
        ensures asked { self.new.asked ≡ self.old.asked }
        ensures stopped { self.new.stopped.now ≡ self.old.stopped.now }
        ensures shown { self.new.shown ≡ self.old.shown }
    {
        let Some(killing) = self.observed.killing_of(killed) else {
            return Ok(false);
        };
        let source = self.source;
        let texts = self.texts;
        let number = source.line_of(step);
        let words = Words(texts.of(number));
        self.text.clear();
        let name = source.name;
        write!(self.text, "{name}:{number}: {words}: {killed}: {killing}")?;
        Ok(true)
    }

    /// Writes an answer, and what is to be said about it. The error says why no more answers are taken.
    fn serve(&mut self, step: usize, reply: &Reply) -> Result<(), Stopped>
        ensures out { self.new.out.ghost_name ≡ self.old.out.ghost_name }
        ensures err { self.new.err.ghost_name ≡ self.old.err.ghost_name }
        ensures asked { self.new.asked ≡ self.old.asked }
        ensures stopped { self.new.stopped.now ≡ self.old.stopped.now }
        ensures whole { OnOk result (OutTakes self.old.asked (O.contents self.old.out.now) (O.contents self.new.out.now) (reply.now ∷ [])) }
        ensures start { OnErr result (OutBegins self.old.asked (O.contents self.old.out.now) (O.contents self.new.out.now) (reply.now ∷ [])) }
        ensures goes_on { OnOk result (GoesOn self.old.asked (reply.now ∷ [])) }
        ensures ends { IfErr result (λ why. is_end why ≡ true → EndsAt self.old.asked (O.contents self.old.out.now) (O.contents self.new.out.now) (reply.now ∷ [])) }
        ensures quiet { IsQuiet self.old.asked self.old.shown self.new.shown (E.contents self.old.err.now) (E.contents self.new.err.now) }
    {
        match self.write(step, reply) {
            Ok(()) => {}
            Err(error) => return Err(Stopped::Unwritten(error)),
        }
        match refusal_of(&reply.answer) {
            Some(word) => self.heed(step, reply.actor, word)?,
            None => self.tell_kill(step, &reply.answer)?,
        }
        if self.asked.options.progress {
            self.show(step);
        }
        if self.asked.options.progress_lines {
            self.tell_progress(step);
        }
        Ok(())
    }

    /// How many commands were begun, including those that were begun over another.
    fn count_begun(&self) -> u64 {
        let done = self.done;
        self.source
            .schedule
            .lines()
            .iter()
            .filter(|line| line.first < done && line.entry.begins().is_some())
            .count() as u64
    }

    /// Says what is left to say after the run has ended or was cut short. The error says why not all answers were
    /// taken.
    fn end(&mut self, moved: Option<Moved>) -> Result<(), Stopped>
        ensures out { self.new.out.ghost_name ≡ self.old.out.ghost_name }
        ensures err { self.new.err.ghost_name ≡ self.old.err.ghost_name }
        ensures kept { Keeps (O.contents self.old.out.now) (O.contents self.new.out.now) }
        ensures ends { IfErr result (λ why. is_end why ≡ true → is_ended self.old.stopped.now ≡ true) }
        ensures quiet { speaks self.old.asked.options ≡ false → self.old.shown ≡ None → E.contents self.new.err.now ≡ E.contents self.old.err.now }
    {
        self.hide();
        // The answers that the writer still has come before any message, even if the writer took no more.
        let flushed = self.out.flush();
        let stopped = self.stopped.take();
        if moved.is_none() && self.asked.options.progress {
            self.leave_shown();
        }
        if moved.is_some() {
            self.done = self.source.schedule.len();
        }
        if self.asked.options.summary {
            self.sum_up(moved);
        }
        if self.tells_failed() {
            let tally = self.tally;
            let lines = self.line_done();
            // Nothing depends on them.
            let _ = tally.write_failed(self.err, lines);
            if self.asked.options.quiet {
                let _ = tally.write_late(self.err);
            }
        }
        stopped_by(stopped, flushed)
    }

    /// Whether a line says how many lines failed.
    fn tells_failed(&self) -> bool
        ensures { speaks self.now.asked.options ≡ false → result ≡ false }
    {
        !self.asked.options.strict
            && (self.asked.options.refusals
                || self.asked.options.summary
                || (self.asked.options.explain && self.tally.times(TRACE_FULL) > 1))
    }

    /// Writes what an audit of the run says, if it is asked for.
    fn tell_audit(&mut self, trace: &Trace) -> io::Result<()>
        requires { Passes (first_of (reverse trace.now.entries)) (reverse trace.now.entries) }
        ensures out { self.new.out.ghost_name ≡ self.old.out.ghost_name }
        ensures err { self.new.err.ghost_name ≡ self.old.err.ghost_name }
        ensures asked { self.new.asked ≡ self.old.asked }
        ensures stopped { self.new.stopped.now ≡ self.old.stopped.now }
        ensures whole { OnOk result (Appends (O.contents self.old.out.now) (O.contents self.new.out.now) (behind_answers self.old.asked.options)) }
        ensures start { AppendsStart (O.contents self.old.out.now) (O.contents self.new.out.now) (behind_answers self.old.asked.options) }
        ensures quiet { IsQuiet self.old.asked self.old.shown self.new.shown (E.contents self.old.err.now) (E.contents self.new.err.now) }
    {
        if !self.asked.options.audit {
            return Ok(());
        }
        self.hide();
        match audit(trace) {
            Ok(()) => write_bytes(self.out, b"audit ok\n"),
            // It finds nothing wrong if the device keeps its promise.
            Err(_) => unreachable!(),
        }
    }

    /// Writes what an audit of the run says, and what is left to say, after the run has ended or was cut short. The
    /// error says why an answer or the line of the audit could not be written, or that a strict run ended.
    fn conclude(&mut self, ran: &Result<Trace, Stop>, moved: Option<Moved>) -> Result<(), Stopped>
        requires { IfOk ran.now (λ trace. Passes (first_of (reverse trace.entries)) (reverse trace.entries)) }
        ensures out { self.new.out.ghost_name ≡ self.old.out.ghost_name }
        ensures err { self.new.err.ghost_name ≡ self.old.err.ghost_name }
        ensures whole { OnOk ran.now (OnOk result (Appends (O.contents self.old.out.now) (O.contents self.new.out.now) (behind_answers self.old.asked.options))) }
        ensures short { OnOk ran.now (AppendsStart (O.contents self.old.out.now) (O.contents self.new.out.now) (behind_answers self.old.asked.options)) }
        ensures kept { OnErr ran.now (Keeps (O.contents self.old.out.now) (O.contents self.new.out.now)) }
        ensures ends { IfErr result (λ why. is_end why ≡ true → is_ended self.old.stopped.now ≡ true) }
        ensures quiet { speaks self.old.asked.options ≡ false → self.old.shown ≡ None → E.contents self.new.err.now ≡ E.contents self.old.err.now }
    {
        let told = match ran {
            Ok(trace) => self.tell_audit(trace),
            Err(_) => return self.end(None),
        };
        let ended = self.end(moved);
        match told {
            Ok(()) => ended,
            Err(error) => Err(Stopped::Unwritten(error)),
        }
    }

    /// Says how much was done. If the run was cut short, nothing is known about pages.
    fn sum_up(&mut self, moved: Option<Moved>)
        ensures out { self.new.out ≡ self.old.out }
        ensures err { self.new.err.ghost_name ≡ self.old.err.ghost_name }
    {
        let summary = Summary {
            tally: self.tally,
            line: self.line_done(),
            begun: self.count_begun(),
            moved,
        };
        // Nothing depends on it.
        let _ = summary.write(self.err, self.asked.options.amounts, self.observed);
    }
}

/// The command that this step began, if it began one, as it is when a line with this number is answered.
fn told_of<'s>(
    alloc: Global,
    source: Source<'s>,
    texts: Texts<'_, 's>,
    step: Option<usize>,
    actor: Actor,
    line: usize,
) -> Option<Told<'s>> {
    let command = source.command_at(step?)?;
    let number = source.line_of(step?);
    Some(Told {
        actor,
        command,
        line: texts.of(number),
        number,
        in_turns: number != line,
        turns: source.turns,
        alloc,
    })
}

/// Whether the command reads or writes a byte.
fn is_access(told: Option<Told<'_>>) -> bool {
    match told {
        Some(told) => matches!(told.command, Command::Access { place: _, op: _ }),
        None => false,
    }
}

/// Why the actor's line was refused.
fn reason_for<'s>(actor: Actor, told: Option<Told<'s>>, word: Word) -> Option<Reason<'s>> {
    match word {
        Word::Idle => Some(Reason::Idle(actor)),
        _ => reason_of(told?, word),
    }
}

/// Why not all answers were taken, if they were not. A failed write of an answer counts first.
fn stopped_by(stopped: Option<Stopped>, flushed: io::Result<()>) -> Result<(), Stopped>
    ensures { IfErr result (λ why. is_end why ≡ true → is_ended stopped ≡ true) }
{
    match stopped {
        None => match flushed {
            Ok(()) => Ok(()),
            Err(error) => Err(Stopped::Unwritten(error)),
        },
        Some(Stopped::Unwritten(error)) => Err(Stopped::Unwritten(error)),
        Some(Stopped::Refused(told)) => match flushed {
            Ok(()) => Err(Stopped::Refused(told)),
            Err(error) => Err(Stopped::Unwritten(error)),
        },
    }
}

/// How a run ended, with its trace if it went through, and whether all its answers were taken.
#[derive(Drop)]
pub struct Ended {
    pub ran: Result<Trace, Stop>,
    pub written: Result<(), Stopped>,
}

/// What is kept of the script besides its steps, if the options ask for it.
fn kept_of<'s>(
    alloc: Global,
    options: Options,
    source: Source<'s>,
    config: &Config,
) -> Result<(Vec<Line<'s>>, Observed<'s>), AllocError> {
    let lines = lines_for(alloc, options, source.script)?;
    let observed = Observed::asked(alloc, options, source.schedule, config)?;
    Ok((lines, observed))
}

/// Runs steps over a device. Each answer is written to `out` as it comes. `err` gets what the options ask for, and
/// nothing else.
pub fn print_run<D: BlockDevice, O: Write, E: Write>(
    alloc: Global,
    options: Options,
    config: Config,
    device: &mut D,
    source: Source<'_>,
    out: &mut O,
    err: &mut E,
) -> Ended
    requires { fits config (D.disk device.old) ≡ true }
    ensures whole { OnOk result.ran (OnOk result.written (marks_lines options ≡ false → PrintsRun config (D.disk device.old) source.entry.schedule.now.steps options (O.contents out.old) (O.contents out.new))) }
    ensures short { OnOk result.ran (marks_lines options ≡ false → PrintsStart config (D.disk device.old) source.entry.schedule.now.steps options (O.contents out.old) (O.contents out.new)) }
    ensures start { OnErr result.ran (marks_lines options ≡ false → PrintsStart config (D.disk device.old) source.entry.schedule.now.steps options (O.contents out.old) (O.contents out.new)) }
    ensures ends { IfErr result.written (λ why. is_end why ≡ true → IsErr result.ran × (options.strict ≡ true) × (marks_lines options ≡ false → EndsRun config (D.disk device.old) source.entry.schedule.now.steps options (O.contents out.old) (O.contents out.new))) }
    ensures quiet { speaks options ≡ false → E.contents err.new ≡ E.contents err.old }
{
    let (lines, mut observed) = match kept_of(alloc, options, source, &config) {
        Ok(kept) => kept,
        Err(_) => {
            return Ended {
                ran: Err(Stop::Refused(Refusal::NoMemory)),
                written: Ok(()),
            };
        }
    };
    let mut device = Metered {
        device,
        swap: config.swap,
        calls: Calls::default(),
    };
    let page_size = config.page_size;
    let mut text = String::new(alloc);
    let mut begun = Begun::new(alloc);
    let mut stopped = None;
    let mut printer = Printer {
        out,
        err,
        asked: Printing { options, page_size },
        source,
        texts: Texts { lines: &lines },
        text: &mut text,
        begun: &mut begun,
        observed: &mut observed,
        shown: None,
        told: 0,
        done: 0,
        tally: Tally::new(),
        stopped: &mut stopped,
    };
    let ran = run_into(
        alloc,
        config,
        &mut device,
        Steps::Lines(source.schedule),
        &mut printer,
    );
    let moved = moved_by(&ran, device.calls);
    let written = printer.conclude(&ran, moved);
    Ended { ran, written }
}

/// How many pages a run moved, if it went through.
fn moved_by(ran: &Result<Trace, Stop>, written: Calls) -> Option<Moved> {
    match ran {
        Ok(trace) => Some(Moved::of(trace.entries(), written)),
        Err(_) => None,
    }
}

impl<'o, 'e, 's, 'l, 't, 'b, 'g, 'p, 'f, O: Write, E: Write> Sink
    for Printer<'o, 'e, 's, 'l, 't, 'b, 'g, 'p, 'f, O, E> {
    // What both writers got, and when a strict run continues. Both stay the same writers.
    ghost took = { λ a b xs. (b.out.ghost_name ≡ a.out.ghost_name) × (b.err.ghost_name ≡ a.err.ghost_name) × (b.asked ≡ a.asked)
        × OutTakes a.asked (O.contents a.out.now) (O.contents b.out.now) xs
        × IsQuiet a.asked a.shown b.shown (E.contents a.err.now) (E.contents b.err.now)
        × (b.stopped.now ≡ a.stopped.now)
        × GoesOn a.asked xs };

    ghost failed = { λ a b begun. (b.out.ghost_name ≡ a.out.ghost_name) × (b.err.ghost_name ≡ a.err.ghost_name) × (b.asked ≡ a.asked)
        × OutBegins a.asked (O.contents a.out.now) (O.contents b.out.now) begun
        × IsQuiet a.asked a.shown b.shown (E.contents a.err.now) (E.contents b.err.now)
        × (is_ended b.stopped.now ≡ true → (is_ended a.stopped.now ≡ true) ⊎ EndsAt a.asked (O.contents a.out.now) (O.contents b.out.now) begun) };

    ghost saw = { λ a b pasts. Unit {0} };

    fn take(&mut self, step: usize, reply: Reply) -> Result<(), Closed> {
        self.tally.count(&reply.answer);
        self.done = step.saturating_add(1);
        match self.serve(step, &reply) {
            Ok(()) => Ok(()),
            Err(stopped) => {
                *self.stopped = Some(stopped);
                Err(Closed)
            }
        }
    }

    fn look(&mut self, _step: usize, book: &Book) {
        if self.asked.options.summary {
            self.observed.look(book);
        }
    }

    fn see_relief(&mut self, _step: usize, book: &Book, cause: Cause) {
        if self.asked.options.tells_kills() {
            self.observed.see_relief(book, cause);
        }
    }

    fn see_failure(&mut self, _step: usize, book: &Book, call: FailedCall) {
        if self.asked.options.tells_reasons() {
            self.observed.see_failure(book, call);
        }
    }

    ghost use Rattle.std.proofs.Common.{refl, ◌∙◌, inl};
    ghost use Rattle.printer.specs.SinkLaws.{out_takes-nil, out_takes-more, out_begins-nil, quiet-refl, quiet-more, goes_on-nil, goes_on-more};

    ghost nothing = { λ s. (refl, refl, refl, out_takes-nil s.asked (O.contents s.out.now), quiet-refl s.asked s.shown (E.contents s.err.now), refl, goes_on-nil s.asked) };

    ghost more = { λ a b c xs ys first second. (
      second.0 ∙ first.0,
      second.1 ∙ first.1,
      second.2 ∙ first.2,
      out_takes-more a.asked b.asked first.2 (O.contents a.out.now) (O.contents b.out.now) (O.contents c.out.now) xs ys first.3 second.3,
      quiet-more a.asked b.asked first.2 a.shown b.shown c.shown (E.contents a.err.now) (E.contents b.err.now) (E.contents c.err.now) first.4 second.4,
      second.5 ∙ first.5,
      goes_on-more a.asked b.asked first.2 xs ys first.6 second.6,
    ) };

    ghost stays = { λ s. (refl, refl, refl, out_begins-nil s.asked (O.contents s.out.now), quiet-refl s.asked s.shown (E.contents s.err.now), λ ended. inl ended) };

    ghost unseen = { λ s. tt };

    ghost further = { λ a b c ps qs first second. tt };
}
