//! Runs of scripts on threads.
#![tactic(auto)]

mod crew;
mod notes;
mod threads;
mod told;

pub use notes::Notes;
pub use script_faults::{Fault, MOST_ACTORS};
pub use shown_groups::{Shows, Summary};
pub use threads::{
    Verdict, run, run_over, run_script_on_threads, run_script_showing, status_of_run,
};
pub use told::run_script_told;
