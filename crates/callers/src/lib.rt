//! Callers of libraries, with a test each, as the pages of those crates show them. They are here and not in the
//! crates, since a crate with tests is proved twice.
//!
//! `crowd` and the modules that use it test `live`: workers whose transfers overlap, over devices that show it. A
//! device's manner (`gate`) says what it does besides reading and writing. A held call ends after a limited number of
//! turns of a loop. Each test ends by itself, unless a waiting worker is not woken.
#![tactic(auto)]

#[cfg(test)]
mod amounts;
#[cfg(test)]
mod audited;
#[cfg(test)]
mod cached;
#[cfg(test)]
mod charges;
#[cfg(test)]
mod counted;
#[cfg(test)]
mod crowd;
#[cfg(test)]
mod cut_short;
#[cfg(test)]
mod gate;
#[cfg(test)]
mod groups;
#[cfg(test)]
mod holder;
#[cfg(test)]
mod killed;
#[cfg(test)]
mod memory;
#[cfg(test)]
mod merged;
#[cfg(test)]
mod on_threads;
#[cfg(test)]
mod opened;
#[cfg(test)]
mod shared;
#[cfg(test)]
mod stepped;
#[cfg(test)]
mod stops;
#[cfg(test)]
mod tasks;
#[cfg(test)]
mod used;
#[cfg(test)]
mod words;
#[cfg(test)]
mod workers;
