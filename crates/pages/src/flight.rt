//! Transfers in flight.

use machine::id::PageId;
use machine::record::Direction;

/// A transfer in flight, identified by its ticket.
#[derive(Clone, Copy)]
pub struct Flight {
    /// The page that is in transfer.
    pub page: PageId,
    /// The direction of the transfer.
    pub direction: Direction,
}
