//! What a pass keeps: its worker's requests and the answers.

ghost use Rattle.std.specs.Prelude.{◌≡◌};
ghost use Rattle.book.specs.Passes.{is_entry};

use machine::event::Event;
use machine::id::{GroupId, TicketId};
use machine::reply::Reply;
use machine::text::Text;

/// An event as a pass keeps it.
#[derive(Drop)]
pub enum Asked {
    /// As the trace contains it, or would if it had not been refused.
    Whole(Event),
    /// An arrival, with only its ticket's number: the trace has the bytes that it brought.
    Arrival(TicketId),
}

/// One request with a pass.
#[derive(Drop)]
pub enum Kept {
    /// An event and its answer, even a refusal.
    Call { asked: Asked, said: Reply },
    /// A path that was looked up, and the live group that it names, if there was one.
    Find { path: Text, found: Option<GroupId> },
}

impl Kept {
    /// Whether the trace has an entry for it.
    pub(crate) fn is_entry(&self) -> bool
        ensures { result ≡ is_entry self.now }
    {
        match self {
            Kept::Call { asked: _, said } => match said {
                Reply::Refused(_) => false,
                _ => true,
            },
            Kept::Find { path: _, found: _ } => false,
        }
    }
}
