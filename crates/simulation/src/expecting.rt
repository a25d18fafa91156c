//! Expectations.

ghost use Rattle.std.specs.Prelude.{◌≡◌, true, IfOk};
ghost use Rattle.expansion.specs.ToCome.{known};
ghost use Rattle.simulation.specs.Met.{is_charge, is_path_at, JudgesCharge, IsJudged, JudgesNote};

use crate::run::{Run, say};
use block_store::MemDevice;
use drafts::Draft;
use driver::{Answer, Command, Stepper};
use expansion::expansion::Expansion;
use machine::text::Text;
use scenario_faults::Problem;
use scenario_reports::asked::Prints;
use scenario_reports::notes::words_of;
use scenario_reports::refusals::add_words;
use scenario_reports::verdicts::{
    Verdict, compare_count, judge_alive, judge_group, judge_killed, judge_moved, no_group,
};
use scenario_words::amount::PageSize;
use scenario_words::paths::is_path;
use scenario_words::word::{Filled, is_at};
use std::alloc::AllocError;
use std::io::Write;

/// The number of a key in a text with a key and a number in each line.
fn number_in(text: &str, key: &str) -> Option<u64> {
    for line in text.lines() {
        if let Some((name, number)) = line.split_once(' ') {
            if name == key {
                return number.parse().ok();
            }
        }
    }
    None
}

/// Whether an `expect` of a group is about what is charged to it.
fn is_charge(words: &[Filled]) -> bool
    ensures { result ≡ is_charge words.now }
{
    is_at(words, 2, "current") || is_at(words, 2, "anon") || is_at(words, 2, "file")
}

/// The event that an `expect` of a group counts, or an empty text.
fn event_of(words: &[Filled]) -> &str {
    match words.get(2) {
        None => "",
        Some(key) => key.text().strip_prefix("events.").unwrap_or(""),
    }
}

impl<'p> Run<'p> {
    /// What is to be carried out before a note with these words is judged: `memory.events` is read for an `expect` of a
    /// count.
    pub fn asks(&self, expansion: &Expansion<'_>, text: &Text) -> Result<Option<Command>, Problem> {
        let words = words_of(self.alloc, text.as_str())?;
        let words = words.as_slice();
        let Some(word) = words.get(1) else {
            return Ok(None);
        };
        if !is_at(words, 0, "expect") || !is_path(word) || is_charge(words) {
            return Ok(None);
        }
        let scene = expansion.scene();
        let path = scene.script_path(&scene.group_below_root(word)?)?;
        let file = Text::new(String::from_str(self.alloc, "memory.events")?);
        Ok(Some(Command::Cat { path, file }))
    }

    /// The number of a key of the group's `memory.events`, which was read. `None` if the machine has no such group.
    fn count_in_events(&self, key: &str) -> Option<u64> {
        let mut found = None;
        for reply in self.watch.answers() {
            if let Answer::Text(text) = &reply.answer {
                found = number_in(text.as_str(), key);
            }
        }
        found
    }

    /// What an `expect` of a group finds. The group is the second word.
    fn judge_path(
        &self,
        expansion: &Expansion<'_>,
        stepper: &Stepper<MemDevice>,
        page: PageSize,
        words: &[Filled],
        word: &Filled,
    ) -> Result<Verdict, Problem>
        ensures met { is_charge words.now ≡ true → IfOk result (λ verdict. JudgesCharge page.bytes (known expansion.now) word.now words.now stepper.now.past.state verdict.met) }
    {
        let alloc = self.alloc;
        if is_charge(words) {
            let scene = expansion.scene();
            let path = scene.script_path(&scene.group_below_root(word)?)?;
            let book = stepper.book();
            return Ok(judge_group(alloc, page, book, path.as_str(), words)?);
        }
        match self.count_in_events(event_of(words)) {
            None => Ok(no_group(alloc)?),
            Some(count) => Ok(compare_count(alloc, words, 3, count)?),
        }
    }

    /// What an `expect` finds that is not of a group.
    fn judge_other(
        &mut self,
        expansion: &Expansion<'_>,
        stepper: &Stepper<MemDevice>,
        words: &[Filled],
    ) -> Result<Verdict, AllocError> {
        let alloc = self.alloc;
        let scene = expansion.scene();
        if is_at(words, 1, "in") || is_at(words, 1, "out") || is_at(words, 1, "dropped") {
            let moved = self.moved(stepper).since(self.phase_moved);
            return judge_moved(alloc, scene.page(), moved, words);
        }
        if is_at(words, 1, "alive") {
            return judge_alive(alloc, scene, &self.tasks, words);
        }
        judge_killed(alloc, scene, &self.tasks, words)
    }

    /// What an `expect refused` finds, and the place of the first refusal if it is met.
    fn judge_refused(
        &mut self,
        expansion: &Expansion<'_>,
        words: &[Filled],
    ) -> Result<(Verdict, String), AllocError> {
        let alloc = self.alloc;
        let line = expansion.line();
        let rounds = expansion.rounds();
        let refused = self.refusals.words_of(alloc, line, rounds)?;
        let wanted = match words.get(2) {
            None => "",
            Some(word) => word.text(),
        };
        let mut met = !refused.is_empty();
        for word in refused.as_slice() {
            let text = format!(in alloc; "{word}")?;
            met = met && text.as_str() == wanted;
        }
        let mut found = Draft::new(alloc);
        if refused.is_empty() {
            found.text("nothing was refused");
        } else {
            found.text("refused with ");
            add_words(&mut found, refused.as_slice());
        }
        let mut place = Draft::new(alloc);
        if met {
            self.refusals.add_first_place(&mut place, line, rounds);
            writeln!(place, ": refused with {wanted}, as expected");
        }
        self.refusals.remove_expected(line, rounds);
        let verdict = Verdict {
            met,
            found: found.finish()?,
            number: None,
        };
        Ok((verdict, place.finish()?))
    }

    /// The line of an expectation.
    fn verdict_text(
        &self,
        expansion: &Expansion<'_>,
        words: &Text,
        verdict: &Verdict,
    ) -> Result<String, AllocError> {
        let mut text = self.place(expansion);
        text.text("  ");
        text.text(words.as_str());
        text.text(": ");
        if verdict.met {
            text.text("as expected");
        } else {
            text.text("NOT MET, ");
            text.text(verdict.found.as_str());
        }
        text.text("\n");
        text.finish()
    }

    /// Tells whether an expectation is met.
    fn tell_verdict<O: Write>(
        &self,
        expansion: &Expansion<'_>,
        words: &Text,
        verdict: &Verdict,
        out: &mut O,
    ) -> Result<(), Problem> {
        match self.asked.prints {
            Prints::Report => {}
            Prints::Unmet if !verdict.met => {}
            Prints::Json => {
                let bytes = self.expect_object(expansion, words, verdict)?;
                out.write_all(bytes.as_slice())?;
                return Ok(());
            }
            Prints::Chart | Prints::Csv | Prints::Unmet => return Ok(()),
        }
        let text = self.verdict_text(expansion, words, verdict)?;
        say(out, text.as_str())
    }

    /// Judges an `expect refused`, and tells whether it is met. The result is the same.
    fn expect_refused<O: Write>(
        &mut self,
        expansion: &Expansion<'_>,
        text: &Text,
        words: &[Filled],
        out: &mut O,
    ) -> Result<bool, Problem> {
        let (verdict, place) = self.judge_refused(expansion, words)?;
        if verdict.met && self.asked.prints == Prints::Report {
            say(out, place.as_str())?;
        } else {
            self.tell_verdict(expansion, text, &verdict, out)?;
        }
        Ok(verdict.met)
    }

    /// Judges an `expect` of a group, and tells whether it is met. The result is the same.
    fn expect_of_group<O: Write>(
        &mut self,
        expansion: &Expansion<'_>,
        stepper: &Stepper<MemDevice>,
        page: PageSize,
        text: &Text,
        words: &[Filled],
        word: &Filled,
        out: &mut O,
    ) -> Result<bool, Problem>
        ensures met { is_charge words.now ≡ true → IfOk result (λ met. JudgesCharge page.bytes (known expansion.now) word.now words.now stepper.now.past.state met) }
    {
        let verdict = self.judge_path(expansion, stepper, page, words, word)?;
        self.watch.clear();
        self.tell_verdict(expansion, text, &verdict, out)?;
        Ok(verdict.met)
    }

    /// The same of any other `expect`.
    fn expect_other<O: Write>(
        &mut self,
        expansion: &Expansion<'_>,
        stepper: &Stepper<MemDevice>,
        text: &Text,
        words: &[Filled],
        out: &mut O,
    ) -> Result<bool, Problem> {
        if is_at(words, 1, "refused") {
            return self.expect_refused(expansion, text, words, out);
        }
        let verdict = self.judge_other(expansion, stepper, words)?;
        self.tell_verdict(expansion, text, &verdict, out)?;
        Ok(verdict.met)
    }

    /// Judges an `expect`, and tells whether it is met. The result is the same.
    fn expect<O: Write>(
        &mut self,
        expansion: &Expansion<'_>,
        stepper: &Stepper<MemDevice>,
        page: PageSize,
        text: &Text,
        words: &[Filled],
        out: &mut O,
    ) -> Result<bool, Problem>
        ensures met { is_path_at words.now ≡ true → is_charge words.now ≡ true → IfOk result (λ met. IsJudged page.bytes (known expansion.now) words.now stepper.now.past.state met) }
    {
        match words.get(1) {
            Some(word) if is_path(word) => {
                self.expect_of_group(expansion, stepper, page, text, words, word, out)
            }
            _ => self.expect_other(expansion, stepper, text, words, out),
        }
    }

    /// An `expect`, a `show` or a `mark`. Of an `expect` the result says whether it is met.
    pub fn note<O: Write>(
        &mut self,
        expansion: &Expansion<'_>,
        stepper: &Stepper<MemDevice>,
        page: PageSize,
        text: &Text,
        out: &mut O,
    ) -> Result<Option<bool>, Problem>
        ensures judged { IfOk result (λ met. JudgesNote page.bytes (known expansion.now) text.now stepper.now.past.state met) }
    {
        let words = words_of(self.alloc, text.as_str())?;
        let words = words.as_slice();
        if is_at(words, 0, "expect") {
            Ok(Some(self.expect(expansion, stepper, page, text, words, out)?))
        } else if is_at(words, 0, "show") {
            self.show(expansion, stepper, words, out)?;
            Ok(None)
        } else {
            self.mark(expansion, stepper, words, out)?;
            Ok(None)
        }
    }
}
