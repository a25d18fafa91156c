//! Turns: what a command under way asks of the book or of the device, turn by turn, and what it makes of the answer.
//!
//! A command is judged first, which is the crate `judging`. Then it passes through the states of the table of turns ([`turn`]).
//! [`automaton`] says what it asks in each state, and in which state it continues after an answer. There is no loop
//! here: the caller takes the turns one after another, or on threads.
#![tactic(auto)]

pub mod automaton;
pub mod turn;
