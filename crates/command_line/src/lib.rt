//! The command line of `memcgrun`: its subcommands and options, what they ask for, and what is said of faulty words.
#![tactic(auto)]

mod explore_args;
mod forms;
mod options;
mod scenario_args;
mod told;
mod words;

pub use explore_args::Exploration;
pub use scenario_args::{Purpose, Scenario, Wish};
pub use told::{
    plain_name, tell_no_memory, tell_no_script, tell_no_setting, tell_no_text, tell_no_values,
    tell_scenario, tell_set_and_varied,
};
pub use words::{Asked, ChartForm, Refused, Request, Subcommand, read_words, text_about};
