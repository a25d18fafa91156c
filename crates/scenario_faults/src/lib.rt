//! Why a scenario can't be expanded or run: what is wrong, and what to write instead.
//!
//! A [`Problem`] says why. [`problem_of`] finds what is said of a faulty word. [`check_settings`] checks the names of settings.
#![tactic(auto)]

mod bounds;
mod expected;
mod fault;
mod fault_text;
mod near;
mod paths;
mod script_like;
mod settings;
mod size_texts;
mod written;

pub use fault::{Failure, Given, Problem, problem_of, read_scenario, reported};
pub use paths::add_path;
pub use script_like::looks_like_scenario;
pub use settings::{check_named, check_settings, is_setting, is_word, settings_of};
