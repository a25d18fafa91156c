//! Why a task is killed, and which page the device could not move.

use book::{PageLook, Victim};
use machine::amount::Amount;
use machine::event::Cause;
use machine::id::TaskId;
use machine::record::Direction;
use machine::text::Text;

/// Why a task is killed: the task and the group under which room is needed, as they were before.
#[derive(Clone, Copy)]
pub struct Doomed {
    pub victim: Victim,
    pub cause: Cause,
    /// Pages that are charged to a group whose max was lowered.
    pub usage: u64,
    /// The places among the paths of that group, and of the group that dies as one.
    pub limit: Option<usize>,
    pub group: Option<usize>,
    pub max: Amount,
    /// The first two of the other tasks that were as large.
    pub first_tied: Option<TaskId>,
    pub second_tied: Option<TaskId>,
}

/// A page that the device could not read in or write out.
#[derive(Clone, Copy)]
pub struct Unmoved {
    pub direction: Direction,
    /// The block of the device.
    pub block: u32,
    pub page: PageLook,
    /// The place among the paths of the group that is charged for the page.
    pub group: Option<usize>,
}

/// The path at this place.
pub fn path_at(paths: &[Text], place: usize) -> &str {
    match paths.get(place) {
        None => "/",
        Some(path) => path.as_str(),
    }
}
