//! What a run has answered and done, in numbers, and the lines that say so.

use crate::amounts::Amounts;
use crate::metered::Moved;
use crate::observed::Observed;
use driver::{Answer, Word};
use machine::limit::MOST_ENTRIES;
use machine::refusal::Refusal;
use std::io;
use std::io::Write;

/// The words that refuse something, in the order in which they are printed.
const REFUSING: [Word; 18] = [
    Word::Busy,
    Word::Io,
    Word::Again,
    Word::OutOfMemory,
    Word::TurnLimit,
    Word::Underway,
    Word::Idle,
    Word::Refused(Refusal::Exists),
    Word::Refused(Refusal::NoEntry),
    Word::Refused(Refusal::Busy),
    Word::Refused(Refusal::NoSpace),
    Word::Refused(Refusal::Invalid),
    Word::Refused(Refusal::NumberUsed),
    Word::Refused(Refusal::NoTask),
    Word::Refused(Refusal::BadPlace),
    Word::Refused(Refusal::TraceFull),
    Word::Refused(Refusal::NoMemory),
    Word::Refused(Refusal::Stranger),
];

/// What a run has answered.
#[derive(Clone, Copy)]
pub struct Tally {
    /// Commands that have ended.
    ended: u64,
    /// Tasks that were killed.
    kills: u64,
    /// Commands of killed tasks.
    late: u64,
    /// How often each of the words that refuse something was answered, in their order.
    refused: [u64; REFUSING.len()],
    /// Commands that were begun over another, and so not begun.
    underway: u64,
    /// Lines that failed, and the number of the last of them.
    failed: u64,
    last_failed: usize,
}

impl Tally {
    /// Nothing was answered yet.
    pub fn new() -> Tally {
        Tally {
            ended: 0,
            kills: 0,
            late: 0,
            refused: [0; REFUSING.len()],
            underway: 0,
            failed: 0,
            last_failed: 0,
        }
    }

    /// Counts an answer.
    pub fn count(&mut self, answer: &Answer) {
        match answer {
            Answer::Kill(_) => bump(&mut self.kills),
            Answer::KillAll { victim: _, tasks } => {
                self.kills = self.kills.saturating_add(u64::from(*tasks));
            }
            Answer::Word(word) => self.count_word(*word),
            Answer::Done | Answer::Text(_) | Answer::Byte(_) => bump(&mut self.ended),
        }
    }

    /// With the line of this number as one that failed. Its answers come in a row.
    pub fn with_failed(self, line: usize) -> Tally {
        if self.last_failed == line {
            return self;
        }
        Tally {
            failed: self.failed.saturating_add(1),
            last_failed: line,
            ..self
        }
    }

    /// How often this word was answered, which refuses something.
    pub fn times(&self, word: Word) -> u64 {
        for (refusing, count) in REFUSING.iter().zip(self.refused.iter()) {
            if *refusing == word {
                return *count;
            }
        }
        0
    }

    /// Writes one line: how many of this number of lines failed, how often with each word, and what to do. It writes
    /// nothing if none failed.
    pub fn write_failed<W: Write>(&self, to: &mut W, lines: usize) -> io::Result<()> {
        if self.failed == 0 {
            return Ok(());
        }
        write!(to, "{} of {lines} lines failed", self.failed)?;
        let mut before = ':';
        for (word, count) in REFUSING.iter().zip(self.refused.iter()) {
            if *count > 0 {
                write!(to, "{before} {word} {count}")?;
                write_tip(to, *word)?;
                before = ',';
            }
        }
        writeln!(to, "; --strict stops at the first")
    }

    /// Writes one line: how many answers say that the task of a line was killed. It writes nothing if there is no such
    /// answer.
    pub fn write_late<W: Write>(&self, to: &mut W) -> io::Result<()> {
        match self.late {
            0 => Ok(()),
            1 => writeln!(to, "1 line of a killed task was not carried out"),
            late => writeln!(to, "{late} lines of killed tasks were not carried out"),
        }
    }

    fn count_word(&mut self, word: Word) {
        match word {
            Word::Underway => bump(&mut self.underway),
            Word::Idle | Word::TurnLimit => {}
            Word::Killed => {
                bump(&mut self.ended);
                bump(&mut self.late);
            }
            _ => bump(&mut self.ended),
        }
        for (refusing, count) in REFUSING.iter().zip(self.refused.iter_mut()) {
            if *refusing == word {
                bump(count);
            }
        }
    }

    /// How many of the begun commands have not ended.
    fn unfinished(&self, begun: u64) -> u64 {
        begun
            .saturating_sub(self.underway)
            .saturating_sub(self.ended)
    }
}

/// Writes what to do about a word that is answered again and again, in parentheses.
fn write_tip<W: Write>(to: &mut W, word: Word) -> io::Result<()> {
    match word {
        Word::Refused(Refusal::TraceFull) => write!(
            to,
            " (the trace is full: put \"trace {MOST_ENTRIES}\" at the top of the script)"
        ),
        Word::TurnLimit => to.write_all(b" (--turns 0 sets no limit)"),
        _ => Ok(()),
    }
}

/// Adds one, up to the greatest number that there is.
fn bump(count: &mut u64) {
    *count = count.saturating_add(1);
}

/// How much was done, with a line for each number. If the run was cut short, it says nothing about pages.
#[derive(Clone, Copy)]
pub struct Summary {
    pub tally: Tally,
    /// Up to which line the script was run.
    pub line: usize,
    /// How many commands began, including those that began over another.
    pub begun: u64,
    pub moved: Option<Moved>,
}

impl Summary {
    /// Writes all lines, and then the lines about what was seen of groups.
    pub fn write<W: Write>(
        &self,
        to: &mut W,
        amounts: Amounts,
        observed: &Observed<'_>,
    ) -> io::Result<()> {
        writeln!(to, "lines: {}", self.line)?;
        writeln!(to, "kills: {}", self.tally.kills)?;
        self.write_refused(to)?;
        writeln!(to, "unfinished: {}", self.tally.unfinished(self.begun))?;
        if let Some(moved) = self.moved {
            moved.write(to)?;
        }
        observed.write(to, amounts)
    }

    /// Writes how many lines were refused, and with which words.
    fn write_refused<W: Write>(&self, to: &mut W) -> io::Result<()> {
        let all = self
            .tally
            .refused
            .iter()
            .fold(0u64, |sum, count| sum.saturating_add(*count));
        writeln!(to, "refused: {all}")?;
        for (word, count) in REFUSING.iter().zip(self.tally.refused.iter()) {
            if *count > 0 {
                writeln!(to, "refused with {word}: {count}")?;
            }
        }
        Ok(())
    }
}
