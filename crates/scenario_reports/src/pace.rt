//! When rows are made: for each line and round, after it was carried out.

use scenario_pictures::Place;
use scenarios::lines::LineKind;
use scenarios::scenario::Scenario;
use std::alloc::{AllocError, Global};

/// A block whose lines are worked together.
#[derive(Clone, Copy)]
struct Block {
    /// The line that opens it.
    line: usize,
    /// The first and the last line in it.
    first: usize,
    last: usize,
    /// How many blocks with rounds it is in.
    depth: usize,
}

/// The line at work, or the block whose lines are worked together.
#[derive(Drop)]
struct Work {
    /// The place of the line, or of the block.
    place: Place,
    block: Option<Block>,
    /// The lines of the block that have begun, in their last rounds.
    members: Vec<Place>,
}

/// Says when rows are made.
#[derive(Drop)]
pub struct Pace {
    blocks: Vec<Block>,
    work: Option<Work>,
    every: u32,
    /// How many rows there were.
    rows: u64,
    /// The last row, if it was not kept.
    skipped: Option<Place>,
    /// Who died since the last row.
    died: Vec<String>,
}

/// How many blocks with rounds the line at this place of the scenario is in.
fn depth_at(scenario: &Scenario, at: usize) -> usize {
    let mut depth = 0usize;
    for (place, line) in scenario.lines.iter().enumerate() {
        let end = place.saturating_add(line.inside());
        if line.kind() == LineKind::Repeat && place < at && at <= end {
            depth = depth.saturating_add(1);
        }
    }
    depth
}

/// The blocks whose lines are worked together.
fn blocks_of(alloc: Global, scenario: &Scenario) -> Result<Vec<Block>, AllocError> {
    let mut blocks = Vec::new(alloc);
    for (place, line) in scenario.lines.iter().enumerate() {
        if line.kind() != LineKind::Together {
            continue;
        }
        let end = place.saturating_add(line.inside());
        if let Some(last) = scenario.lines.get(end) {
            blocks.push(Block {
                line: line.number(),
                first: line.number().saturating_add(1),
                last: last.number(),
                depth: depth_at(scenario, place),
            })?;
        }
    }
    Ok(blocks)
}

impl Block {
    fn has(self, line: usize) -> bool {
        self.first <= line && line <= self.last
    }
}

impl Work {
    fn new(
        alloc: Global,
        blocks: &[Block],
        line: usize,
        rounds: &[u32],
    ) -> Result<Work, AllocError> {
        for block in blocks {
            if block.has(line) {
                let around = rounds.get(..block.depth).unwrap_or(rounds);
                return Ok(Work {
                    place: Place::new(alloc, block.line, around)?,
                    block: Some(*block),
                    members: vec![in alloc; Place::new(alloc, line, rounds)?]?,
                });
            }
        }
        Ok(Work {
            place: Place::new(alloc, line, rounds)?,
            block: None,
            members: Vec::new(alloc),
        })
    }

    /// Whether an entry of this line, in these rounds, belongs to it.
    fn has(&self, line: usize, rounds: &[u32]) -> bool {
        match self.block {
            None => self.place.is(line, rounds),
            Some(block) => block.has(line) && rounds.starts_with(self.place.rounds.as_slice()),
        }
    }

    /// The place of the line among the members.
    fn member(&self, line: usize) -> Option<usize> {
        for (at, member) in self.members.iter().enumerate() {
            if member.line == line {
                return Some(at);
            }
        }
        None
    }

    /// An entry of it comes. The result is the place of the entry's line in its last round, if that has ended.
    fn meet(
        &mut self,
        alloc: Global,
        line: usize,
        rounds: &[u32],
    ) -> Result<Option<Place>, AllocError> {
        if self.block.is_none() {
            return Ok(None);
        }
        let mut ended = None;
        if let Some(at) = self.member(line) {
            if at < self.members.len() {
                let before = self.members.remove(at);
                if !before.is(line, rounds) {
                    ended = Some(before);
                }
            }
        }
        self.members.push(Place::new(alloc, line, rounds)?)?;
        Ok(ended)
    }
}

impl Pace {
    /// Of rows, each of this number is kept.
    pub fn new(alloc: Global, scenario: &Scenario, every: u32) -> Result<Pace, AllocError> {
        Ok(Pace {
            blocks: blocks_of(alloc, scenario)?,
            work: None,
            every,
            rows: 0,
            skipped: None,
            died: Vec::new(alloc),
        })
    }

    /// Whether an entry of this line, in these rounds, goes on with what is at work.
    pub fn goes_on(&self, line: usize, rounds: &[u32]) -> bool {
        match &self.work {
            None => false,
            Some(work) => work.has(line, rounds),
        }
    }

    /// An entry of this line, in these rounds, comes. The result is the place of the row that is made before it, if one
    /// is.
    pub fn meet(
        &mut self,
        alloc: Global,
        line: usize,
        rounds: &[u32],
    ) -> Result<Option<Place>, AllocError> {
        if let Some(work) = &mut self.work {
            if work.has(line, rounds) {
                return work.meet(alloc, line, rounds);
            }
        }
        let ended = self.close();
        self.work = Some(Work::new(alloc, self.blocks.as_slice(), line, rounds)?);
        Ok(ended)
    }

    /// No entry of what is at work comes any more. The result is its place.
    pub fn close(&mut self) -> Option<Place> {
        match self.work.take() {
            None => None,
            Some(work) => {
                let Work { place, .. } = work;
                Some(place)
            }
        }
    }

    /// A task of this name died.
    pub fn add_death(&mut self, name: String) -> Result<(), AllocError> {
        self.died.push(name)?;
        Ok(())
    }

    /// Who died since the last row.
    pub fn died(&self) -> &[String] {
        self.died.as_slice()
    }

    /// The row that now is made is shown. Another begins.
    pub fn clear(&mut self) {
        self.skipped = None;
        self.died.clear();
    }

    /// A row is made. The result says whether it is kept.
    pub fn keeps(&mut self) -> bool {
        self.rows = self.rows.saturating_add(1);
        let every = u64::from(self.every.max(1));
        let rest = self.rows.checked_rem(every).unwrap_or(0);
        rest == 0 || !self.died.is_empty()
    }

    /// The row of this place is kept only if it is the last one of its phase.
    pub fn skip(&mut self, place: Place) {
        self.skipped = Some(place);
    }

    /// The last row, if it was not kept.
    pub fn skipped(&mut self) -> Option<Place> {
        self.skipped.take()
    }
}
