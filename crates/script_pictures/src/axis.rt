//! The places of a script's lines across the picture, in tenths of a pixel.

use charts::Row;
use pictures::{LEFT, RIGHT, Scale, line_marks};
use std::alloc::{AllocError, Global};
use std::str;

/// How far apart the numbers of two lines are, at least.
const APART: u64 = 450;

/// Lines that follow each other, and their place. All parts are equally wide.
#[derive(Clone, Copy)]
pub struct Part<'s> {
    /// The name of the phase. It is empty before the first phase.
    pub name: &'s str,
    /// The number of the first line, and that of the line after the last.
    first: u64,
    end: u64,
    /// The left and the right end.
    pub left: u64,
    right: u64,
}

/// A line, and how far across it begins.
#[derive(Clone, Copy)]
pub struct Place {
    pub line: u64,
    pub across: u64,
}

/// The lines whose numbers are shown.
#[derive(Drop)]
pub struct Ticks {
    pub places: Vec<Place>,
    /// Which part of the number is at the line's place. The dashed lines of phases leave it readable.
    pub anchor: &'static str,
}

/// The places of all lines.
#[derive(Drop)]
pub struct Axis<'s> {
    pub parts: Vec<Part<'s>>,
    /// For each step, the place of its line.
    pub steps: Vec<Place>,
}

impl<'s> Part<'s> {
    fn place(&self, line: u64) -> u64 {
        let scale = Scale {
            least: self.first,
            greatest: self.end,
            length: self.right.saturating_sub(self.left),
        };
        self.left.saturating_add(scale.place(line))
    }
}

/// Begins a part at this line, which ends the last one. A part without a line is left out.
fn begin<'s>(parts: &mut Vec<Part<'s>>, name: &'s str, first: u64) -> Result<(), AllocError> {
    if let Some(last) = parts.pop() {
        if last.first < first {
            parts.push(Part { end: first, ..last })?;
        }
    }
    parts.push(Part {
        name,
        first,
        end: first,
        left: LEFT,
        right: RIGHT,
    })?;
    Ok(())
}

/// The lines of each phase from the first of these lines to the last. They have no place yet.
fn parts_of<'s>(
    alloc: Global,
    phases: &[&'s [u8]],
    first: u64,
    last: u64,
) -> Result<Vec<Part<'s>>, AllocError> {
    let mut parts = Vec::new(alloc);
    begin(&mut parts, "", first)?;
    let mut known: &[u8] = b"";
    for (place, phase) in phases.iter().enumerate() {
        let line = (place as u64).saturating_add(1);
        if *phase != known && line <= last {
            known = *phase;
            begin(
                &mut parts,
                str::from_utf8(known).unwrap_or(""),
                line.max(first),
            )?;
        }
    }
    if let Some(part) = parts.last_mut() {
        part.end = last.saturating_add(1);
    }
    Ok(parts)
}

/// Gives each part the same width.
fn spread(parts: &mut Vec<Part<'_>>) {
    let scale = Scale {
        least: 0,
        greatest: parts.len() as u64,
        length: RIGHT - LEFT,
    };
    for (place, part) in parts.iter_mut().enumerate() {
        let place = place as u64;
        part.left = LEFT.saturating_add(scale.place(place));
        part.right = LEFT.saturating_add(scale.place(place.saturating_add(1)));
    }
}

/// The part of the line, from the part at this place on.
fn part_of(parts: &[Part<'_>], from: usize, line: u64) -> usize {
    let mut found = from;
    for next in from..parts.len() {
        match parts.get(next) {
            Some(part) if part.first <= line => found = next,
            _ => break,
        }
    }
    found
}

impl<'s> Axis<'s> {
    /// The places of these lines, one for each step. `phases` has the phase of each line of the script.
    pub fn new(
        alloc: Global,
        lines: &[usize],
        phases: &[&'s [u8]],
    ) -> Result<Axis<'s>, AllocError> {
        let first = lines.first().copied().unwrap_or(0) as u64;
        let last = lines.last().copied().unwrap_or(0) as u64;
        let mut parts = parts_of(alloc, phases, first, last)?;
        spread(&mut parts);
        let mut steps = Vec::new(alloc);
        let mut at = 0usize;
        for line in lines {
            let line = *line as u64;
            at = part_of(parts.as_slice(), at, line);
            let across = match parts.get(at) {
                None => LEFT,
                Some(part) => part.place(line),
            };
            steps.push(Place { line, across })?;
        }
        Ok(Axis { parts, steps })
    }

    /// The place of the step's line.
    pub fn step(&self, step: u64) -> Place {
        let end = Place {
            line: 0,
            across: RIGHT,
        };
        match usize::try_from(step) {
            Ok(step) => self.steps.get(step).copied().unwrap_or(end),
            Err(_) => end,
        }
    }

    /// For each row, the place of the line of its first step.
    pub fn rows(&self, alloc: Global, rows: &[Row]) -> Result<Vec<Place>, AllocError> {
        let mut places = Vec::new(alloc);
        let mut step = 0u64;
        for row in rows {
            places.push(self.step(step))?;
            step = step.saturating_add(row.steps);
        }
        Ok(places)
    }

    /// The lines whose numbers are shown: the first of each part; or round numbers, if all lines are of one part.
    pub fn ticks(&self, alloc: Global) -> Result<Ticks, AllocError> {
        let mut places = Vec::new(alloc);
        let parts = self.parts.as_slice();
        if let [part] = parts {
            let scale = Scale {
                least: part.first,
                greatest: part.end,
                length: 0,
            };
            for line in line_marks(alloc, scale)? {
                let across = part.place(line);
                places.push(Place { line, across })?;
            }
            return Ok(Ticks {
                places,
                anchor: "middle",
            });
        }
        let mut least = 0u64;
        for part in parts {
            if part.left >= least {
                places.push(Place {
                    line: part.first,
                    across: part.left,
                })?;
                least = part.left.saturating_add(APART);
            }
        }
        Ok(Ticks {
            places,
            anchor: "start",
        })
    }
}
