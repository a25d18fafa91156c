//! What an actor is doing, and what its turn shows.

use machine::command::{Actor, Answer, Command};
use turns::turn::{Kill, Stage};

/// What a turn shows.
#[derive(Drop)]
pub enum Outcome {
    Goes,
    Kills(Kill),
    Ends(Answer),
}

/// What an actor is doing.
#[must_use]
pub enum Activity {
    Rests,
    /// A command that has had no turn yet.
    Begun(Command),
    Does(Stage),
}

/// An actor, and what it is doing.
#[must_use]
pub struct Seat {
    pub actor: Actor,
    pub activity: Activity,
}
