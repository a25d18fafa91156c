//! Curves of pictures, as SVG writes paths.

use crate::markup::{add_pixels, add_point};
use drafts::Draft;
use std::alloc::Global;

/// A curve that moves from left to right in steps. If several steps are at one place, it covers the least and the
/// greatest of them, and ends at the last.
#[derive(Drop)]
pub struct Pen {
    /// The path so far, in the words of SVG.
    pub path: Draft,
    /// Its position, if it is down: how far across, and how low.
    at: Option<(u64, u64)>,
    /// The highest and the lowest place that it has to cover there.
    high: u64,
    low: u64,
}

impl Pen {
    pub fn new(alloc: Global) -> Pen {
        Pen {
            path: Draft::new(alloc),
            at: None,
            high: 0,
            low: 0,
        }
    }

    /// Moves along a letter of a path to a place.
    fn draw(&mut self, letter: &str, place: u64) {
        self.path.text(letter);
        add_pixels(&mut self.path, place);
    }

    /// Draws what it has to cover at its position.
    fn settle(&mut self) {
        if let Some((_, down)) = self.at {
            if self.high < self.low {
                self.draw("V", self.high);
                self.draw("V", self.low);
            }
            self.draw("V", down);
        }
    }

    /// It is at this place now, and has covered nothing else there.
    fn stand(&mut self, across: u64, down: u64) {
        self.at = Some((across, down));
        self.high = down;
        self.low = down;
    }

    /// Moves to the place, or begins there.
    pub fn go(&mut self, across: u64, down: u64) {
        match self.at {
            Some((x, y)) if x == across => {
                if y != down {
                    self.high = down.min(self.high);
                    self.low = down.max(self.low);
                    self.at = Some((across, down));
                }
            }
            Some((_, y)) if y == down && self.high == self.low => {
                self.at = Some((across, down));
            }
            Some(_) => {
                self.settle();
                self.draw("H", across);
                self.stand(across, down);
            }
            None => {
                add_point(&mut self.path, "M", across, down);
                self.stand(across, down);
            }
        }
    }

    /// Is lifted at the place.
    pub fn lift(&mut self, across: u64) {
        if self.at.is_some() {
            self.settle();
            self.draw("H", across);
        }
        self.at = None;
    }
}
