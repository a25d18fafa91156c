//! Tests of scripts that no line of a file of cases can say, or that are very long. Each is run through the program's
//! public functions, and compared with what the program must write for it. There are also tests of charts, and of the
//! shares of small trees, which are compared with their rule. A script that can be written down is a case of the crate
//! `cases`: add it there.
//!
//! `words` and `faulty_words` test what command lines ask for, and what is said of faulty ones. `failing` has readers and
//! writers: some fail, some give and take little at a time, and some never end.
//!
//! What a test expects comes from the rules, never from a run.
#![tactic(auto)]

#[cfg(test)]
mod case;
#[cfg(test)]
mod drawn;
#[cfg(test)]
mod explanations;
#[cfg(test)]
mod failing;
#[cfg(test)]
mod faulty_scripts;
#[cfg(test)]
mod faulty_words;
#[cfg(test)]
mod generations;
#[cfg(test)]
mod reclaim_turns;
#[cfg(test)]
mod removal;
#[cfg(test)]
mod script_forms;
#[cfg(test)]
mod shares;
#[cfg(test)]
mod sharing;
#[cfg(test)]
mod sizes;
#[cfg(test)]
mod words;
