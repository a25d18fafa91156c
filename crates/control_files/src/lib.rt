//! Control files: their names, the amounts and flags that are written to them, and their texts (admin-guide/cgroup-v2,
//! "Memory Interface Files"; for amounts the kernel's page_counter_memparse and memparse).
//!
//! [`file_named`] and [`has_file`] say which file a name means and which groups have it. [`parse_amount`] and
//! [`parse_flag`] read what is written to a file. [`show_text`] writes a file's text from its numbers. None of them
//! knows a state of the machine. [`parse_page_size`] reads how many bytes a page stands for in amounts and texts.
#![tactic(auto)]

pub use amounts::{parse_amount, parse_page_size};
pub use files::{file_named, has_file};
pub use flags::parse_flag;
pub use texts::show_text;

mod amounts;
mod files;
mod flags;
mod texts;
