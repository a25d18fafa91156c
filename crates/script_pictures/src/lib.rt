//! The picture of a script's run, as SVG: the groups as curves or as a heat map, the phases and the killed tasks above
//! them, and the frames and swap blocks of the machine below.
#![tactic(auto)]

mod axis;
mod bands;
mod curves;
mod drawing;
mod look;
mod moments;
mod refusals;
mod sheet;
mod usage;

pub use drawing::picture;
