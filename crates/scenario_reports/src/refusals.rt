//! Lines that were refused, until the `expect refused` that is about them.

use drafts::Draft;
use machine::command::Word;
use scenario_lines::awaited::Awaited;
use scenario_pictures::add_place;
use std::alloc::{AllocError, Global};

/// An answer that refused a line which an `expect refused` is about.
#[derive(Drop)]
struct Refusal {
    word: Word,
    line: usize,
    rounds: Vec<u32>,
    /// The numbers of the lines that are about it, the innermost first.
    awaited: Vec<usize>,
}

/// The refusals that a line may still be about.
#[derive(Drop)]
pub struct Refusals {
    all: Vec<Refusal>,
}

/// Whether a refusal's answers are all as expected by the outermost line about it.
pub fn are_expected(
    alloc: Global,
    words: &[Word],
    awaited: &[Awaited],
) -> Result<bool, AllocError> {
    let Some(outermost) = awaited.last() else {
        return Ok(false);
    };
    for word in words {
        let text = format!(in alloc; "{word}")?;
        if text.as_str() != outermost.word.as_str() {
            return Ok(false);
        }
    }
    Ok(true)
}

/// Adds the words, with commas between them.
pub fn add_words(text: &mut Draft, words: &[Word]) {
    for (place, word) in words.iter().enumerate() {
        if place > 0 {
            text.text(", ");
        }
        write!(text, "{word}");
    }
}

impl Refusal {
    /// Whether the line with this number, in these rounds, is about it.
    fn is_of(&self, line: usize, rounds: &[u32]) -> bool {
        self.awaited.iter().any(|other| *other == line)
            && self.rounds.as_slice().starts_with(rounds)
    }

    /// Whether a later line is about it, too.
    fn is_awaited_after(&self, line: usize) -> bool {
        self.awaited.last() != Some(&line)
    }
}

impl Refusals {
    pub fn new(alloc: Global) -> Refusals {
        Refusals {
            all: Vec::new(alloc),
        }
    }

    /// Keeps the answers that refused a line in these rounds.
    pub fn add(
        &mut self,
        alloc: Global,
        words: &[Word],
        line: usize,
        rounds: &[u32],
        awaited: &[Awaited],
    ) -> Result<(), AllocError> {
        if awaited.is_empty() {
            return Ok(());
        }
        for word in words {
            let mut lines = Vec::new(alloc);
            for other in awaited {
                lines.push(other.line)?;
            }
            self.all.push(Refusal {
                word: *word,
                line,
                rounds: Vec::from_slice(alloc, rounds)?,
                awaited: lines,
            })?;
        }
        Ok(())
    }

    /// The answers that the line with this number, in these rounds, is about.
    pub fn words_of(
        &self,
        alloc: Global,
        line: usize,
        rounds: &[u32],
    ) -> Result<Vec<Word>, AllocError> {
        let mut words = Vec::new(alloc);
        for refusal in &self.all {
            if refusal.is_of(line, rounds) {
                words.push(refusal.word)?;
            }
        }
        Ok(words)
    }

    /// Adds the place of the first of them.
    pub fn add_first_place(&self, text: &mut Draft, line: usize, rounds: &[u32]) {
        for refusal in &self.all {
            if refusal.is_of(line, rounds) {
                add_place(text, refusal.line, refusal.rounds.as_slice());
                return;
            }
        }
    }

    /// Removes the refusals that this line is about and no later line waits for.
    pub fn remove_expected(&mut self, line: usize, rounds: &[u32]) {
        self.all.retain(|refusal| !refusal.is_of(line, rounds) || refusal.is_awaited_after(line));
    }
}
