//! What one line of a scenario does, in the machine as it is when the line is reached.
#![tactic(auto)]

pub mod access;
pub mod acts;
pub mod awaited;
pub mod burst;
pub mod joined;
pub mod lines;
pub mod marks;
pub mod notes;
pub mod pages;
pub mod rounded;
pub mod scene;
pub mod tasks;
