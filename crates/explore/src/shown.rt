//! An order as a script that `schedule` runs.

ghost use Rattle.std.specs.Prelude.{◌≡◌, true};
ghost use Rattle.machine.specs.State.{is_config};

use block_store::MemDevice;
use division::{Goes, Said, carry_line};
use driver::Stepper;
use explorer::{Parts, carry_one, close_run, next_line, open_run};
use machine::command::{Actor, Reply, Step};
use scripts::lines::{as_text, first_line};
use std::alloc::{AllocError, Global};

/// The text of the lines of a script, in their order.
fn texts_of<'s>(alloc: Global, script: &'s [u8]) -> Result<Vec<&'s str>, AllocError> {
    let mut texts = Vec::new(alloc);
    let mut rest = script;
    // Each line takes a byte at least.
    for _ in 0..script.len() {
        if rest.is_empty() {
            break;
        }
        let (line, after) = first_line(rest);
        // A faultless script is text.
        texts.push(as_text(line).unwrap_or(""))?;
        rest = after;
    }
    Ok(texts)
}

/// Adds the lines of answers, as a script expects them, and forgets them.
fn add_expected(alloc: Global, said: &mut Vec<Reply>, text: &mut String) -> Result<(), AllocError> {
    let mut lines = String::new(alloc);
    for reply in said.iter() {
        reply.print(&mut lines)?;
    }
    said.clear();
    for line in lines.lines() {
        text.push_str("#> ")?;
        text.push_str(line)?;
        text.push('\n')?;
    }
    Ok(())
}

/// How an actor is named in a line that takes a turn of it.
fn add_name(text: &mut String, actor: Actor) -> Result<(), AllocError> {
    match actor {
        Actor::Shell => text.push_str("shell"),
        Actor::Control => text.push_str("control"),
        Actor::Daemon => text.push_str("daemon"),
        Actor::Task(task) => write!(text, "{task}"),
    }
}

/// An order that is written as a script.
#[derive(Drop)]
struct Writing<'s> {
    alloc: Global,
    /// The lines of the script that is explored.
    texts: &'s [&'s str],
    /// What each of them asks for.
    lines: &'s [Said],
    parts: &'s Parts,
    /// For each row, how many of its lines were begun.
    begun: Vec<usize>,
    said: Vec<Reply>,
    text: String,
}

impl<'s> Writing<'s> {
    /// The text of the line with this number.
    fn line(&self, number: usize) -> &'s str {
        match self.texts.get(number.saturating_sub(1)) {
            Some(text) => *text,
            None => "",
        }
    }

    /// The lines with numbers from `from` up to but not including `to`, carried out, each with its answers. Lines that
    /// expect answers are left out.
    fn add_lines(
        &mut self,
        run: &mut Stepper<MemDevice>,
        from: usize,
        to: usize,
    ) -> Result<(), AllocError> {
        for number in from..to.min(self.texts.len().saturating_add(1)) {
            let text = self.line(number);
            if !text.starts_with("#>") {
                self.text.push_str(text)?;
                self.text.push('\n')?;
            }
            if let Some(line) = self.lines.get(number.saturating_sub(1)) {
                carry_line(self.alloc, run, line, &mut self.said)?;
            }
            add_expected(self.alloc, &mut self.said, &mut self.text)?;
        }
        Ok(())
    }

    /// The actor at this place begins its next line, if it can.
    fn go_on(&mut self, run: &mut Stepper<MemDevice>, place: usize) -> Result<(), AllocError> {
        let (Some(row), Some(begun)) = (self.parts.rows.get(place), self.begun.get_mut(place))
        else {
            return Ok(());
        };
        let Some(step) = next_line(run, row, *begun) else {
            return Ok(());
        };
        let number = row.numbers.get(*begun).copied().unwrap_or(0);
        *begun = begun.saturating_add(1);
        carry_one(run, step, &mut self.said)?;
        let text = self.line(number);
        self.text.push_str("begin ")?;
        self.text.push_str(text)?;
        self.text.push('\n')?;
        add_expected(self.alloc, &mut self.said, &mut self.text)
    }

    /// A turn of the actor at this place.
    fn add_turn(&mut self, run: &mut Stepper<MemDevice>, place: usize) -> Result<(), AllocError> {
        let Some(row) = self.parts.rows.get(place) else {
            return Ok(());
        };
        carry_one(run, &Step::Advance(row.actor), &mut self.said)?;
        self.text.push_str("step ")?;
        add_name(&mut self.text, row.actor)?;
        self.text.push('\n')?;
        add_expected(self.alloc, &mut self.said, &mut self.text)?;
        self.go_on(run, place)
    }

    /// The whole order.
    fn write(
        &mut self,
        run: &mut Stepper<MemDevice>,
        goes: Goes,
        path: &[u32],
    ) -> Result<(), AllocError> {
        self.add_lines(run, 1, goes.first)?;
        for place in 0..self.parts.rows.len() {
            self.go_on(run, place)?;
        }
        for who in path {
            self.add_turn(run, *who as usize)?;
        }
        self.add_lines(run, goes.second.saturating_add(1), usize::MAX)
    }
}

/// An order of a script's work, as a script for `schedule` that expects its answers.
pub fn shown(
    alloc: Global,
    script: &[u8],
    goes: Goes,
    parts: &Parts,
    lines: &[Said],
    path: &[u32],
) -> Result<String, AllocError>
    requires { is_config parts.now.config ≡ true }
{
    let texts = texts_of(alloc, script)?;
    let mut begun = Vec::new(alloc);
    begun.resize(parts.rows.len(), 0)?;
    let mut writing = Writing {
        alloc,
        texts: &texts,
        lines,
        parts,
        begun,
        said: Vec::new(alloc),
        text: String::new(alloc),
    };
    let mut run = open_run(alloc, parts)?;
    let written = writing.write(&mut run, goes, path);
    close_run(Some(run));
    written?;
    let Writing { text, .. } = writing;
    Ok(text)
}
