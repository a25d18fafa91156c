//! Counts of what happened to each group, as `memory.events` and `memory.events.local` show them.
#![tactic(auto)]

pub use events::Events;

mod events;
mod keys;
