//! Scenarios: their scripts, and their runs.
//!
//! [`expand`] prints the script of a scenario. [`simulate`] carries a scenario out, entry by entry as the expansion
//! gives them, and prints what was seen. [`vary`] carries it out once for each value of a name, and prints a row for
//! each.
#![tactic(auto)]

mod expanding;
mod expecting;
mod outcomes;
mod records;
mod rows;
mod run;
mod simulating;
mod simulation;
mod summary;
mod tables;
mod varying;
mod watch;
mod why;

pub use expanding::{expand, try_expand};
pub use scenario_faults::{Failure, is_setting, looks_like_scenario};
pub use scenario_reports::asked::{Asked, Prints};
pub use scenario_reports::values::{MOST_VALUES, Values, ValuesFault, read_values};
pub use simulating::{simulate, try_simulate};
pub use varying::vary;
