//! Schedules: one turn of one actor after another, over a book and a block device.
//!
//! [`run`] takes any list of steps, in any order of actors. It returns the answers of the plain machine to that list,
//! in order. The crate `turns` says what a command asks in a turn, and what it makes of the answer. It knows no
//! schedule.
#![tactic(auto)]

pub use machine::command::{Actor, Answer, Command, Reply, Step, Word};
pub use machine::config::{Config, Placement};
pub use schedule::{run, run_into};
pub use schedules::{Entry, Line, Schedule, Steps};
pub use sink::{Closed, FailedCall, Sink, Stop};
pub use stepper::Stepper;

mod calls;
mod desk;
mod hits;
mod marked;
mod schedule;
mod seat;
mod seats;
mod sink;
mod stepper;
