//! What a run of a scenario is shown as, from its numbers: a picture, comma-separated values and JSON.
//!
//! [`picture_of`] draws the [`Story`] of a run as SVG. [`csv_row`] and [`row_object`] print a [`Row`].
#![tactic(auto)]

mod bands;
mod csv;
mod curves;
mod measures;
mod moments;
mod object;
mod objects;
mod picture;
mod places;
mod printing;
mod rows;
mod sheet;
mod story;
mod usage;

pub use csv::{add_csv_cell, add_csv_names, csv_head, csv_row};
pub use curves::MOST_CURVES;
pub use measures::{Meter, Moved, bump};
pub use object::Object;
pub use objects::{add_moved, open_group, row_object};
pub use picture::picture_of;
pub use places::Place;
pub use printing::{add_names, add_place, add_rounds};
pub use rows::{Chosen, Counts, Group, Machine, Row, Stats, finite};
pub use story::{Level, Story, Told};
