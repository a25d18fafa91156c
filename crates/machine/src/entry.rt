//! An entry of the trace.

use crate::event::Event;
use crate::id::WorkerId;
use crate::reply::Reply;

/// An event that was not refused, with its reply.
#[derive(Drop)]
pub struct Entry {
    /// The worker that made the request.
    pub worker: WorkerId,
    /// The place of this entry among the worker's entries, counted from 1.
    pub count: u64,
    pub event: Event,
    pub reply: Reply,
}
