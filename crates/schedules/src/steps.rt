//! Steps that are to be run.

use crate::schedule::Schedule;
use machine::command::Step;

/// Steps that are to be run, as a list or as a schedule.
#[derive(Clone, Copy)]
pub enum Steps<'s> {
    List(&'s [Step]),
    Lines(&'s Schedule),
}
