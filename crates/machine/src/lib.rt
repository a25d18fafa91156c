//! The plain machine of memory control groups: the types of its history, and in `specs/` what it may do.
//!
//! Nothing here runs a group. The types are plain data, of which events, replies and histories are made.
//! The definitions say which histories are right, over whole lists and with no counter, list link or
//! page byte. Every crate that uses this one cites them and adds none of its own.
#![tactic(auto)]

pub mod amount;
pub mod bytes;
pub mod command;
pub mod config;
pub mod control;
pub mod entry;
pub mod event;
pub mod id;
pub mod limit;
pub mod page_size;
pub mod print;
pub mod record;
pub mod refusal;
pub mod reply;
pub mod text;
