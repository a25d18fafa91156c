//! What a run on threads did, in numbers.

use machine::command::{Answer, Reply, Word};
use machine::entry::Entry;
use machine::event::Event;
use machine::limit::MOST_ENTRIES;
use machine::refusal::Refusal;
use machine::reply;
use std::io;
use std::io::Write;

/// The words that refuse something on threads, in the order in which they are printed.
const REFUSING: [Word; 14] = [
    Word::Io,
    Word::Again,
    Word::OutOfMemory,
    Word::Refused(Refusal::Exists),
    Word::Refused(Refusal::NoEntry),
    Word::Refused(Refusal::Busy),
    Word::Refused(Refusal::NoSpace),
    Word::Refused(Refusal::Invalid),
    Word::Refused(Refusal::NumberUsed),
    Word::Refused(Refusal::NoTask),
    Word::Refused(Refusal::BadPlace),
    Word::Refused(Refusal::TraceFull),
    Word::Refused(Refusal::NoMemory),
    Word::Refused(Refusal::Stranger),
];

/// How much a run on threads did.
#[derive(Clone, Copy)]
pub struct Summary {
    /// Tasks that were killed.
    kills: u64,
    /// How often each of the words that refuse something was answered, in their order.
    refused: [u64; REFUSING.len()],
    /// Pages that arrived from the device.
    read_in: u64,
    /// Pages that were written to the device.
    written_out: u64,
    /// Clean pages of files that were dropped.
    dropped: u64,
}

impl Summary {
    /// Nothing was done yet.
    pub fn new() -> Summary {
        Summary {
            kills: 0,
            refused: [0; REFUSING.len()],
            read_in: 0,
            written_out: 0,
            dropped: 0,
        }
    }

    /// Counts answers.
    pub fn count(&mut self, answers: &[Reply]) {
        for reply in answers {
            match &reply.answer {
                Answer::Kill(_) => self.kills = self.kills.saturating_add(1),
                Answer::KillAll { victim: _, tasks } => {
                    self.kills = self.kills.saturating_add(u64::from(*tasks));
                }
                Answer::Word(word) => self.count_word(*word),
                Answer::Done | Answer::Text(_) | Answer::Byte(_) => {}
            }
        }
    }

    fn count_word(&mut self, word: Word) {
        for (refusing, count) in REFUSING.iter().zip(self.refused.iter_mut()) {
            if *refusing == word {
                *count = count.saturating_add(1);
            }
        }
    }

    /// Counts the pages that the entries moved.
    pub fn count_moved(&mut self, entries: &[Entry]) {
        for entry in entries {
            match (&entry.event, entry.reply) {
                (
                    Event::Arrived {
                        ticket: _,
                        bytes: _,
                    },
                    _,
                ) => self.read_in = self.read_in.saturating_add(1),
                (Event::Left(_), _) => self.written_out = self.written_out.saturating_add(1),
                (_, reply::Reply::Dropped) => self.dropped = self.dropped.saturating_add(1),
                _ => {}
            }
        }
    }

    /// Writes a line for each number. If the trace was full, a last line says what to do.
    pub fn write<W: Write>(&self, to: &mut W) -> io::Result<()> {
        writeln!(to, "kills: {}", self.kills)?;
        let all = self
            .refused
            .iter()
            .fold(0u64, |sum, count| sum.saturating_add(*count));
        writeln!(to, "refused: {all}")?;
        for (word, count) in REFUSING.iter().zip(self.refused.iter()) {
            if *count > 0 {
                writeln!(to, "refused with {word}: {count}")?;
            }
        }
        writeln!(to, "pages read in: {}", self.read_in)?;
        writeln!(to, "pages written out: {}", self.written_out)?;
        writeln!(to, "pages dropped: {}", self.dropped)?;
        if self.times(Word::Refused(Refusal::TraceFull)) > 0 {
            writeln!(
                to,
                "the trace is full: put \"trace {MOST_ENTRIES}\" at the top of the script"
            )?;
        }
        Ok(())
    }

    /// How often this word was answered, which refuses something.
    fn times(&self, word: Word) -> u64 {
        for (refusing, count) in REFUSING.iter().zip(self.refused.iter()) {
            if *refusing == word {
                return *count;
            }
        }
        0
    }
}
