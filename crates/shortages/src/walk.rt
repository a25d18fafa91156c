//! A machine that takes steps: each is asked, and asked again if memory is refused for it.

use crate::asking::said;
use crate::hunt::{Hunt, Told};
use crate::shows::{Shows, finds_the_same, look};
use crate::step::Step;
use crate::tour::{Plan, end};
use block_store::MemDevice;
use book::{Book, Pass};
use machine::config::{Config, File, FileList, Placement, Watermarks};
use machine::page_size::PageSize;
use machine::refusal::Refusal;
use machine::text::Text;
use std::alloc::{AllocError, Global};

/// Room in a pass for a step, with two looks at the book.
const ROOM: usize = 200;

/// Room in a pass, and in a trace, for all steps.
const ALL_ROOM: u32 = 20_000;

/// How many answers are kept.
const ANSWERS: usize = 400;

/// The reads of the device that fail, counted from 1: that of the file's second page, for the tour's write to it.
const READ_FAULTS: [u64; 1] = [3];

/// The writes that fail: that of the first page that the tour evicts, after two at the set-up.
const WRITE_FAULTS: [u64; 1] = [3];

/// A book, with the pass that asks it, and its device.
///
/// [`Machine::close`] must spend it.
pub struct Machine {
    pub(crate) book: Book,
    pub(crate) pass: Pass,
    pub(crate) device: MemDevice,
    steps: Vec<Step>,
    /// How many of these were taken.
    taken: usize,
    /// The path of the next group, so that it takes no memory.
    pub(crate) path: Option<Text>,
    /// What was answered since the machine was set up.
    pub(crate) told: Vec<Told>,
    /// It takes no more steps after this number of answers.
    last: usize,
}

/// What a machine is made of: all that needs memory, except the book.
#[derive(Drop)]
struct Parts {
    config: Config,
    device: MemDevice,
    path: Text,
    start: Vec<Step>,
    steps: Vec<Step>,
    told: Vec<Told>,
}

impl Parts {
    fn new(alloc: Global, plan: Plan) -> Result<Parts, AllocError> {
        Ok(Parts {
            config: config(alloc)?,
            device: MemDevice::new(alloc, 5, &READ_FAULTS, &WRITE_FAULTS)?,
            path: text(alloc, "/d")?,
            start: plan.start(alloc)?,
            steps: plan.steps(alloc)?,
            told: Vec::with_capacity(alloc, ANSWERS)?,
        })
    }
}

/// Eight frames, three blocks of swap, and a file of two pages.
pub fn config(alloc: Global) -> Result<Config, AllocError> {
    let mut files = FileList::new(alloc);
    let name = text(alloc, "f")?;
    files.push(File { name, pages: 2 })?;
    Ok(Config {
        frames: 8,
        swap: 3,
        files,
        watermarks: Watermarks { low: 0, high: 0 },
        trace: ALL_ROOM,
        turns: 1000,
        recursive: false,
        placement: Placement::Own,
        page_size: PageSize::of_4k(),
    })
}

pub fn text(alloc: Global, words: &str) -> Result<Text, AllocError> {
    let string = String::from_str(alloc, words)?;
    Ok(Text::new(string))
}

impl Machine {
    /// A machine that was set up by the plan. It keeps the path of the next group.
    pub fn open(alloc: Global, plan: Plan) -> Result<Machine, Refusal> {
        match Parts::new(alloc, plan) {
            Ok(parts) => Machine::of(alloc, parts),
            Err(_) => Err(Refusal::NoMemory),
        }
    }

    fn of(alloc: Global, parts: Parts) -> Result<Machine, Refusal> {
        let Parts {
            config,
            device,
            path,
            start,
            steps,
            told,
        } = parts;
        let mut book = Book::open(alloc, config)?;
        match ready_pass(&mut book) {
            Err(cause) => {
                let _ = book.close();
                Err(cause)
            }
            Ok(pass) => {
                let mut machine = Machine {
                    book,
                    pass,
                    device,
                    steps,
                    taken: 0,
                    path: None,
                    told,
                    last: ANSWERS,
                };
                let mut none = Hunt::none(alloc);
                machine.take_all(&mut none, &start);
                machine.told.clear();
                machine.path = Some(path);
                if none.wrong().is_some() {
                    machine.close();
                    return Err(Refusal::NoMemory);
                }
                Ok(machine)
            }
        }
    }

    /// Takes one step after the other.
    pub fn take_all(&mut self, hunt: &mut Hunt, steps: &[Step]) {
        for step in steps {
            self.take(hunt, *step);
        }
    }

    pub fn close(self) {
        let Machine {
            book,
            pass: _,
            device: _,
            steps: _,
            taken: _,
            path: _,
            told: _,
            last: _,
        } = self;
        let _ = book.close();
    }

    /// What was answered since it was set up, the oldest first.
    pub fn told(&self) -> &[Told] {
        self.told.as_slice()
    }

    /// It continues no further than the other did.
    pub fn follow(&mut self, other: &Machine) {
        self.last = other.told.len();
    }

    /// The next step of its plan.
    fn next(&self) -> Option<Step> {
        self.steps.get(self.taken).copied()
    }

    /// Takes the steps of its plan before the one of this name, with ample memory.
    pub fn lead_to(&mut self, hunt: &mut Hunt, name: &str) {
        let mut none = Hunt::none(hunt.alloc());
        for _step in 0..self.steps.len() {
            match self.next() {
                Some(step) if step.name != name => self.take_next(&mut none, step),
                _ => break,
            }
        }
        hunt.demand(self.next().is_some(), "there is no such step");
        hunt.demand(none.wrong().is_none(), "memory is refused before the step");
    }

    /// Takes the steps of its plan that are left, until the refusal is met, or it has gone far enough.
    pub fn walk(&mut self, hunt: &mut Hunt) {
        for _step in 0..self.steps.len() {
            if hunt.is_over() || self.told.len() >= self.last {
                return;
            }
            if let Some(step) = self.next() {
                self.take_next(hunt, step);
            }
        }
    }

    fn take_next(&mut self, hunt: &mut Hunt, step: Step) {
        self.taken = self.taken.saturating_add(1);
        self.take(hunt, step);
    }

    /// Asks what every machine is asked at the end.
    pub fn end(&mut self, hunt: &mut Hunt) {
        match end(hunt.alloc()) {
            Ok(steps) => self.take_all(hunt, &steps),
            Err(_) => hunt.demand(false, "there is no end"),
        }
    }

    /// Takes one step. If memory is refused, everything has to be as it was before, and the step is asked again.
    pub fn take(&mut self, hunt: &mut Hunt, step: Step) {
        if self.pass.reserve(ROOM).is_err() {
            hunt.demand(false, "a pass has no room");
            return;
        }
        if !hunt.is_on() {
            self.ask(hunt, step);
            return;
        }
        let before = look(&mut self.book, &mut self.pass);
        let tallied = self.book.tally();
        self.ask(hunt, step);
        if hunt.is_refusal(said(&self.pass)) {
            hunt.refused(step.name);
            hunt.demand(
                self.book.tally() == tallied,
                "the book tallies something else",
            );
            self.compare(hunt, &before);
            self.ask(hunt, step);
        }
    }

    /// Everything has to be as it was before.
    fn compare(&mut self, hunt: &mut Hunt, before: &Shows) {
        let now = look(&mut self.book, &mut self.pass);
        hunt.demand(now == *before, "a group shows something else");
        let found = finds_the_same(hunt.alloc(), &self.book, &mut self.pass, &now);
        hunt.demand(found, "a path is another group's");
    }
}

/// A pass with room for all steps.
fn ready_pass(book: &mut Book) -> Result<Pass, Refusal> {
    let mut pass = book.pass()?;
    pass.reserve(ALL_ROOM as usize)?;
    Ok(pass)
}
