//! A run of a script's steps over a device.

use crate::hunt::{Hunt, Met};
use block_store::MemDevice;
use driver::{Answer, Config, Reply, Schedule, Steps, Stop, Word, run_into};
use machine::refusal::Refusal;
use scripts::{Mode, Script, read};
use std::alloc::{AllocError, Global};

/// There is room for two pages and a group. The third page takes the frame of the first.
const SCRIPT: &str =
    "frames 2\nswap 2\nfile f 1\ntrace 100\ngroup /a\ntask 1 /a\n1 write 0 0 7\n1 write 1 0 8\n1 write 2 0 9\n1 read 0 0\n1 fork 2\n1 fread f 0 0\ncat /a memory.current\nrmdir /a\n";

/// The bytes of the pages and of the file, the two frames in use, and the answer that a group with tasks stays.
const ANSWERS: &str = "1 7\n1 0\n8192\nerror EBUSY\n";

/// What a run is given.
#[derive(Drop)]
struct Run {
    config: Config,
    device: MemDevice,
    schedule: Schedule,
}

/// The result of a run.
#[derive(Drop)]
struct Ran {
    answers: Vec<Reply>,
    end: Option<Stop>,
}

fn is_refused(reply: &Reply) -> bool {
    matches!(reply.answer, Answer::Word(Word::Refused(Refusal::NoMemory)))
}

/// The text that is printed for these answers.
fn text(alloc: Global, answers: &[Reply]) -> Result<String, AllocError> {
    let mut text = String::new(alloc);
    for reply in answers {
        reply.print(&mut text)?;
    }
    Ok(text)
}

impl Run {
    fn new(alloc: Global) -> Option<Run> {
        match read(alloc, SCRIPT.as_bytes(), Mode::Schedule) {
            Ok(
                Script {
                    config,
                    schedule,
                    ..
                },
            ) => Some(Run {
                config,
                device: MemDevice::new(alloc, 3, &[], &[]).ok()?,
                schedule,
            }),
            Err(_) => None,
        }
    }

    /// Runs it.
    fn run(self, alloc: Global) -> Ran {
        let Run {
            config,
            mut device,
            schedule,
        } = self;
        let mut answers = Vec::new(alloc);
        let end = run_into(
            alloc,
            config,
            &mut device,
            Steps::Lines(&schedule),
            &mut answers,
        )
        .err();
        Ran { answers, end }
    }
}

impl Ran {
    /// The index of the answer that reports that memory was refused.
    fn refused_at(&self) -> Option<usize> {
        for (at, reply) in self.answers.iter().enumerate() {
            if is_refused(reply) {
                return Some(at);
            }
        }
        None
    }

    /// Takes note of a refusal.
    fn tell(&self, hunt: &mut Hunt) {
        match self.end {
            None => {}
            Some(Stop::Refused(Refusal::NoMemory)) | Some(Stop::Closed) => hunt.refused("run"),
            Some(_) => hunt.demand(false, "a run ends for another cause"),
        }
        if self.refused_at().is_some() {
            hunt.refused("run");
        }
    }

    /// The answers have to be those with ample memory, or their beginning if memory was refused.
    fn compare(&self, hunt: &mut Hunt) {
        let known = match self.refused_at() {
            Some(at) => self.answers.get(..at),
            None => Some(self.answers.as_slice()),
        };
        let Some(Ok(text)) = known.map(|known| text(hunt.alloc(), known)) else {
            hunt.demand(false, "answers are not printed");
            return;
        };
        let is_right = match hunt.met() {
            Some(Met::In("run")) => ANSWERS.starts_with(text.as_str()),
            _ => text.as_str() == ANSWERS,
        };
        hunt.demand(is_right, "a run answers otherwise");
    }
}

/// Runs it, and then again.
pub fn run_twice(hunt: &mut Hunt) {
    match Run::new(hunt.alloc()) {
        Some(run) if hunt.begins() => run_with(hunt, run),
        Some(_) => {}
        None => hunt.demand(false, "there is nothing to run"),
    }
}

fn run_with(hunt: &mut Hunt, run: Run) {
    let ran = run.run(hunt.alloc());
    ran.tell(hunt);
    hunt.burn_after();
    ran.compare(hunt);
    run_again(hunt);
}

/// Runs it again, with ample memory, to its end.
fn run_again(hunt: &mut Hunt) {
    let Some(run) = Run::new(hunt.alloc()) else {
        hunt.demand(false, "there is nothing to run");
        return;
    };
    let ran = run.run(hunt.alloc());
    hunt.demand(
        ran.end.is_none() && ran.refused_at().is_none(),
        "a run is refused again",
    );
    match text(hunt.alloc(), ran.answers.as_slice()) {
        Ok(text) => hunt.demand(text.as_str() == ANSWERS, "a second run answers otherwise"),
        Err(_) => hunt.demand(false, "answers are not printed"),
    }
}
