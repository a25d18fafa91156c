//! The rows and phases of a run that its picture shows.

use crate::places::Place;
use crate::rows::Machine;
use std::alloc::{AllocError, Global};

/// What a group is charged with, and its max, in pages.
#[derive(Clone, Copy)]
pub struct Level {
    /// What it is charged with after the row.
    pub current: u64,
    /// The most since the last row.
    pub peak: u64,
    /// `None` is no limit.
    pub max: Option<u64>,
}

/// What the picture shows of a row.
#[derive(Drop)]
pub struct Told {
    /// The line of the row.
    pub place: Place,
    /// The numbers of the machine after it.
    pub machine: Machine,
    /// For each of the first groups, its level. `None` if the machine has no such group.
    pub levels: Vec<Option<Level>>,
    /// Who died.
    pub died: Vec<String>,
}

impl Told {
    /// The level of the group at this place, if the machine has it.
    pub fn level(&self, group: usize) -> Option<Level> {
        match self.levels.get(group) {
            Some(Some(level)) => Some(*level),
            _ => None,
        }
    }
}

/// A phase that begins with a row.
#[derive(Drop)]
pub struct Mark {
    /// The place of that row among all rows.
    pub row: usize,
    /// The name of the phase.
    pub name: String,
}

/// The rows and the phases of a run.
#[derive(Drop)]
pub struct Story {
    /// The rows, in the order in which they were made.
    pub rows: Vec<Told>,
    /// The phases, in the same order.
    pub marks: Vec<Mark>,
}

impl Story {
    /// Nothing has happened yet.
    pub fn new(alloc: Global) -> Story {
        Story {
            rows: Vec::new(alloc),
            marks: Vec::new(alloc),
        }
    }

    /// Adds a row.
    pub fn add(&mut self, told: Told) -> Result<(), AllocError> {
        self.rows.push(told)?;
        Ok(())
    }

    /// A phase of this name begins.
    pub fn mark(&mut self, name: String) -> Result<(), AllocError> {
        let row = self.rows.len();
        self.marks.push(Mark { row, name })?;
        Ok(())
    }

    /// The most that the group at this place was charged with.
    pub fn peak(&self, group: usize) -> u64 {
        let mut peak = 0u64;
        for told in self.rows.iter() {
            if let Some(level) = told.level(group) {
                peak = level.peak.max(peak);
            }
        }
        peak
    }

    /// The greatest max of the group at this place that is no more than `most`.
    pub fn greatest_max(&self, group: usize, most: u64) -> Option<u64> {
        let mut greatest = None;
        for told in self.rows.iter() {
            let max = match told.level(group) {
                None => None,
                Some(level) => level.max,
            };
            match (max, greatest) {
                (Some(max), None) if max <= most => greatest = Some(max),
                (Some(max), Some(before)) if max <= most && max > before => greatest = Some(max),
                _ => {}
            }
        }
        greatest
    }
}
