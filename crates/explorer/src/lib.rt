//! A machine that is run once for each order of its actors' turns, and the outcomes of these orders.
#![tactic(auto)]

mod choice;
mod copies;
mod explorer;
mod outcome;
mod parts;
mod plan;
mod table;

pub use choice::Choice;
pub use copies::copy_of_step;
pub use explorer::{Exploration, close_run, explore, open_run, sample};
pub use parts::{Parts, Row};
pub use plan::{carry_one, next_line};
pub use table::{Found, Table};
