//! The one allocation that is refused, and where it is met.

use machine::refusal::Refusal;
use machine::reply::Reply;
use std::alloc::Global;

/// The number of allocations after the last step.
const AFTER_ALL: u32 = 1000;

/// Where the refusal is met.
#[derive(Clone, Copy)]
pub enum Met {
    /// Before the first step, after this number of allocations that the hunt makes.
    Before(u32),
    /// In this step, which reported it.
    In(&'static str),
    /// After all steps.
    After,
}

/// The name of what was asked, and the answer.
#[derive(Clone, Copy, PartialEq, Eq)]
pub struct Told {
    pub name: &'static str,
    pub reply: Reply,
}

/// Where the refusal is met, and what is wrong.
#[derive(Drop)]
pub struct Hunt {
    alloc: Global,
    /// How many allocations the hunt makes before the first step. `None` if no allocation is to be refused.
    ahead: Option<u32>,
    /// `None` if no allocation was refused yet.
    met: Option<Met>,
    /// The first thing that is wrong.
    wrong: Option<&'static str>,
}

/// Whether memory is given for one number. It is freed at once.
fn is_given(alloc: Global, number: u32) -> bool {
    match Box::new(alloc, number) {
        Ok(_) => true,
        Err(_) => false,
    }
}

impl Hunt {
    /// A hunt for the one allocation that is refused. It makes this number of allocations before the first step.
    pub fn new(alloc: Global, ahead: u32) -> Hunt {
        Hunt {
            alloc,
            ahead: Some(ahead),
            met: None,
            wrong: None,
        }
    }

    /// No hunt: no allocation is refused, and only the steps allocate.
    pub fn none(alloc: Global) -> Hunt {
        Hunt {
            alloc,
            ahead: None,
            met: None,
            wrong: None,
        }
    }

    pub fn alloc(&self) -> Global {
        self.alloc
    }

    pub fn met(&self) -> Option<Met> {
        self.met
    }

    /// Whether the refusal was met.
    pub fn is_over(&self) -> bool {
        self.met.is_some()
    }

    pub fn wrong(&self) -> Option<&'static str> {
        self.wrong
    }

    /// Keeps the first thing that is wrong.
    pub fn demand(&mut self, holds: bool, why: &'static str) {
        if !holds && self.wrong.is_none() {
            self.wrong = Some(why);
        }
    }

    /// Whether an allocation is to be refused, and none was yet.
    pub fn is_on(&self) -> bool {
        self.ahead.is_some() && self.met.is_none()
    }

    /// How many of these allocations succeed before one is refused. `None` if all do.
    fn burn(&self, allocations: u32) -> Option<u32> {
        for number in 0..allocations {
            if !is_given(self.alloc, number) {
                return Some(number);
            }
        }
        None
    }

    /// Makes the allocations that come before the first step. Returns whether the steps are to be taken: not if one of
    /// these allocations is refused.
    pub fn begins(&mut self) -> bool {
        let refused = self.ahead.and_then(|ahead| self.burn(ahead));
        self.met = refused.map(Met::Before);
        refused.is_none()
    }

    /// Makes allocations after the last step, if none was refused yet.
    pub fn burn_after(&mut self) {
        if self.is_on() && self.burn(AFTER_ALL).is_some() {
            self.met = Some(Met::After);
        }
    }

    /// This step reported that memory is refused. Only one may.
    pub fn refused(&mut self, name: &'static str) {
        let is_first = self.met.is_none();
        self.demand(is_first, "memory is refused again");
        self.met = Some(Met::In(name));
    }

    /// Whether this is the first answer that reports that memory is refused.
    pub fn is_refusal(&self, reply: Option<Reply>) -> bool {
        self.is_on() && reply == Some(Reply::Refused(Refusal::NoMemory))
    }
}
