//! What is noted of the answers of a run on threads: which line of the script each one belongs to, and why a line was
//! refused.

use explain::{Told, Words, reason_of};
use machine::command::{Actor, Answer, Command, Reply, Word};
use machine::entry::Entry as Traced;
use machine::id::TaskId;
use machine::limit::USUAL_TURNS;
use machine::refusal::Refusal;
use printer::{Options, write_bytes, write_line};
use schedules::{Entry, Line, Schedule};
use scripts::lines::{as_text, first_line};
use scripts::{Mode, Script, number_of};
use shown_groups::Summary;
use std::alloc::{AllocError, Global};
use std::collections::HashMap;
use std::io;
use std::io::Write;

/// What an answer says.
#[derive(Clone, Copy)]
enum Said {
    /// A task was killed to make room. The line is not answered yet.
    Kill(TaskId),
    /// So was a group, with this number of tasks.
    KillAll(TaskId, u32),
    /// The line was answered with this word.
    Word(Word),
    /// It was answered with something else.
    Other,
}

/// What is noted of an answer.
#[derive(Clone, Copy)]
struct Noted {
    actor: Actor,
    said: Said,
    /// How many bytes it prints.
    bytes: usize,
    /// Other actors may have taken turns between the beginning of the line and its answer.
    in_turns: bool,
}

/// What is noted of the answers of a run, in the order in which they are printed.
#[derive(Drop)]
pub struct Notes {
    summary: Summary,
    /// Whether each answer is noted, and not only counted.
    notes_each: bool,
    noted: Vec<Noted>,
    text: String,
    /// Memory for a note was refused. Then no later answer is noted.
    is_cut_off: bool,
}

impl Notes {
    /// Nothing is noted yet. The answers are only counted, unless `notes_each` is set.
    pub fn new(alloc: Global, notes_each: bool) -> Notes {
        Notes {
            summary: Summary::new(),
            notes_each,
            noted: Vec::new(alloc),
            text: String::new(alloc),
            is_cut_off: false,
        }
    }

    /// What the run did, in numbers.
    pub fn summary(&self) -> &Summary {
        &self.summary
    }

    /// Notes answers that are about to be printed.
    pub(crate) fn add(&mut self, answers: &[Reply], in_turns: bool) {
        self.summary.count(answers);
        if self.notes_each && !self.is_cut_off && self.note_all(answers, in_turns).is_err() {
            self.is_cut_off = true;
        }
    }

    /// Counts the pages that the entries moved.
    pub(crate) fn count_moved(&mut self, entries: &[Traced]) {
        self.summary.count_moved(entries);
    }

    fn note_all(&mut self, answers: &[Reply], in_turns: bool) -> Result<(), AllocError> {
        for reply in answers {
            self.text.clear();
            reply.print(&mut self.text)?;
            self.noted.push(Noted {
                actor: reply.actor,
                said: said_by(&reply.answer),
                bytes: self.text.len(),
                in_turns,
            })?;
        }
        Ok(())
    }
}

fn said_by(answer: &Answer) -> Said {
    match answer {
        Answer::Kill(task) => Said::Kill(*task),
        Answer::KillAll { victim, tasks } => Said::KillAll(*victim, *tasks),
        Answer::Word(word) => Said::Word(*word),
        Answer::Done | Answer::Text(_) | Answer::Byte(_) => Said::Other,
    }
}

/// Whether the line is answered.
fn ends(said: Said) -> bool {
    match said {
        Said::Kill(_) | Said::KillAll(_, _) => false,
        Said::Word(_) | Said::Other => true,
    }
}

/// The lines of a script, in their order. A line that is not text is empty here. No script with such a line can be run.
fn texts_of(alloc: Global, script: &[u8]) -> Result<Vec<&str>, AllocError> {
    let mut texts = Vec::new(alloc);
    let mut rest = script;
    // Each line takes a byte at least.
    for _ in 0..script.len() {
        if rest.is_empty() {
            break;
        }
        let (line, after) = first_line(rest);
        texts.push(as_text(line).unwrap_or(""))?;
        rest = after;
    }
    Ok(texts)
}

/// The next line of each actor.
#[derive(Drop)]
struct Upcoming {
    /// For each line of the schedule, the place of its actor's next line.
    after: Vec<Option<usize>>,
    /// By an actor's number, the place of its line that is to be answered next.
    next: HashMap<u64, usize>,
}

impl Upcoming {
    /// Nothing is answered yet.
    fn new(alloc: Global, schedule: &Schedule) -> Result<Upcoming, AllocError> {
        let lines = schedule.lines();
        let mut after = Vec::new(alloc);
        after.resize(lines.len(), None)?;
        let mut next = HashMap::new(alloc);
        for back in 0..lines.len() {
            let place = lines.len() - 1 - back;
            if let Entry::Whole(actor, _) = &lines[place].entry {
                after[place] = next.insert(number_of(*actor), place)?;
            }
        }
        Ok(Upcoming { after, next })
    }

    /// The place of the line that an answer belongs to.
    fn place_of(&mut self, noted: Noted) -> Result<Option<usize>, AllocError> {
        let number = number_of(noted.actor);
        let Some(place) = self.next.get(&number).copied() else {
            return Ok(None);
        };
        if ends(noted.said) {
            match self.after.get(place).copied().flatten() {
                Some(later) => {
                    self.next.insert(number, later)?;
                }
                None => {
                    self.next.remove(&number);
                }
            }
        }
        Ok(Some(place))
    }
}

/// A line of the script, and what it asks for.
#[derive(Clone, Copy)]
struct Source<'s> {
    number: usize,
    text: &'s str,
    actor: Actor,
    command: &'s Command,
}

/// The line at this place of the schedule.
fn source_at<'s>(lines: &'s [Line], texts: &[&'s str], place: Option<usize>) -> Option<Source<'s>> {
    let line = lines.get(place?)?;
    match &line.entry {
        Entry::Whole(actor, command) => Some(Source {
            number: line.number,
            text: texts.get(line.number.saturating_sub(1)).copied()?,
            actor: *actor,
            command,
        }),
        // A run on threads takes no command apart.
        Entry::Step(_) => None,
    }
}

/// Writes the lines of an answer. Each begins with the number of the line that it belongs to, and with that line's words
/// if they are asked for.
fn write_marked<O: Write>(
    alloc: Global,
    options: Options,
    source: Source<'_>,
    answer: &[u8],
    out: &mut O,
) -> io::Result<()> {
    let mut marked = String::new(alloc);
    let number = source.number;
    for line in as_text(answer).unwrap_or("").lines() {
        if options.labels {
            writeln!(marked, "{number}: {}: {line}", Words(source.text))?;
        } else {
            writeln!(marked, "{number}: {line}")?;
        }
    }
    write_bytes(out, marked.as_bytes())
}

/// The line that says why a line was refused, or why a task was killed. An answer that did what was asked has none.
fn reason_text(
    alloc: Global,
    file: &str,
    source: Source<'_>,
    noted: Noted,
) -> io::Result<Option<String>> {
    let mut text = String::new(alloc);
    let Source {
        number,
        text: line,
        actor,
        command,
    } = source;
    write!(text, "{file}:{number}: {}: ", Words(line))?;
    match noted.said {
        Said::Other | Said::Word(Word::Killed) => return Ok(None),
        Said::Kill(task) => write!(
            text,
            "killed {}: nothing can be reclaimed, and no task that may be killed has more pages",
            task.0
        )?,
        Said::KillAll(task, tasks) => write!(
            text,
            "killed group {} {tasks}: nothing can be reclaimed, and no task that may be killed has more pages than task {}; all tasks of its group are killed, since its memory.oom.group is 1",
            task.0, task.0
        )?,
        Said::Word(word) => {
            write!(text, "{word}")?;
            let told = Told {
                actor,
                command,
                line,
                number,
                in_turns: noted.in_turns,
                turns: USUAL_TURNS,
                alloc,
            };
            if let Some(reason) = reason_of(told, word) {
                write!(text, ", {reason}")?;
            }
        }
    }
    Ok(Some(text))
}

/// The first bytes, this many, and those behind them.
fn divided(bytes: &[u8], first: usize) -> (&[u8], &[u8]) {
    if first <= bytes.len() {
        (&bytes[..first], &bytes[first..])
    } else {
        (bytes, &[])
    }
}

/// The answers of a run, each with the line of the script that it belongs to.
#[derive(Drop)]
pub struct Attributed<'n, 's> {
    noted: &'n [Noted],
    schedule: Schedule,
    texts: Vec<&'s str>,
    /// For each answer, the place of its line in the schedule.
    places: Vec<Option<usize>>,
}

impl Notes {
    /// Says which line each answer belongs to. It fails if memory runs out.
    pub fn attributed<'n, 's>(
        &'n self,
        alloc: Global,
        script: &'s [u8],
    ) -> Result<Attributed<'n, 's>, AllocError> {
        // The script was run on threads. So no line is faulty in a schedule, and this fails only if memory runs out.
        let Ok(read) = scripts::read(alloc, script, Mode::Schedule) else {
            return Err(AllocError);
        };
        let Script { schedule, .. } = read;
        let texts = texts_of(alloc, script)?;
        let mut upcoming = Upcoming::new(alloc, &schedule)?;
        let mut places = Vec::new(alloc);
        for noted in self.noted.iter() {
            places.push(upcoming.place_of(*noted)?)?;
        }
        Ok(Attributed {
            noted: &self.noted,
            schedule,
            texts,
            places,
        })
    }
}

impl Attributed<'_, '_> {
    /// Writes what the run printed. Each line of an answer begins with the number of its line of the script, and with that
    /// line's words if the options ask for labels. What is not an answer, and an answer that was not noted, is written as it
    /// was printed.
    pub fn write_marked<O: Write>(
        &self,
        alloc: Global,
        options: Options,
        printed: &[u8],
        out: &mut O,
    ) -> io::Result<()> {
        let lines = self.schedule.lines();
        let mut rest = printed;
        for (noted, place) in self.noted.iter().zip(self.places.iter()) {
            let (answer, after) = divided(rest, noted.bytes);
            rest = after;
            match source_at(lines, &self.texts, *place) {
                Some(source) => write_marked(alloc, options, source, answer, out)?,
                None => write_bytes(out, answer)?,
            }
        }
        write_bytes(out, rest)
    }

    /// Writes a line for each line of the script that was refused and each task that was killed, which says why. Of the
    /// lines that a full trace refused, only the first has one. In these lines, the script's file has the name `file`.
    pub fn explain<E: Write>(&self, alloc: Global, file: &str, err: &mut E) -> io::Result<()> {
        let lines = self.schedule.lines();
        let mut was_full = false;
        for (noted, place) in self.noted.iter().zip(self.places.iter()) {
            let Some(source) = source_at(lines, &self.texts, *place) else {
                continue;
            };
            if was_full && is_full(noted.said) {
                continue;
            }
            was_full = was_full || is_full(noted.said);
            if let Some(text) = reason_text(alloc, file, source, *noted)? {
                write_line(err, text.as_bytes())?;
            }
        }
        Ok(())
    }
}

/// Whether the trace was full.
fn is_full(said: Said) -> bool {
    match said {
        Said::Word(word) => word == Word::Refused(Refusal::TraceFull),
        Said::Kill(_) | Said::KillAll(_, _) | Said::Other => false,
    }
}
