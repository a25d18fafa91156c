//! The language of scripts: what the lines of a script mean, and which line is the first faulty one.
//!
//! A script is read whole before anything is run. Each line is judged by itself, except that it needs to know three
//! things of the others. These are how many frames the header asks for, whether a command came before, and which words
//! of the header came before. The meaning of a line is defined without regard to faults, and is used only for faultless
//! lines. What is kept of it depends on what the script is read for.
#![tactic(auto)]

pub mod check;
mod context;
mod fault;
pub mod forms;
pub mod header;
mod line;
pub mod lines;
mod meaning;
mod mode;
mod script;
pub mod words;
mod work;

pub use fault::{Cause, FaultText, ScriptFault};
pub use forms::{DeviceCall, Form, Kind, Speaker, Word, each_word_is_found};
pub use mode::Mode;
pub use script::{Script, frames_line_has_its_own_fault, one_answer, read};
pub use work::{each_actor_has_its_row, number_of};
