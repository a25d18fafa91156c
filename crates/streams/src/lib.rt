//! Callers of the program's public functions on threads. Also what is written during a run, in addition to its answers.
//!
//! What a test expects comes from the rules, never from a run.
#![tactic(auto)]

#[cfg(test)]
mod other_bytes;
#[cfg(test)]
mod printed;
#[cfg(test)]
mod printing;
#[cfg(test)]
mod shown;
#[cfg(test)]
mod threads;
#[cfg(test)]
mod told;
