//! Pages, and the places of bytes in them.

ghost use Rattle.std.specs.Prelude.{◌≡◌, ℕ};
ghost use Rattle.machine.specs.History.{spot_of, at_offset};
ghost use Rattle.trace.specs.Walks.{spot_in, offset_in, page_at};

use machine::event::Place;
use machine::id::TaskId;

/// A page of a task's memory, or of a file.
#[derive(Clone, Copy)]
pub enum Page {
    Memory { task: TaskId, page: u32 },
    File { file: u32, page: u32 },
}

/// The page that contains a place, for an access by this task.
pub fn page_of(task: TaskId, place: Place) -> Page
    ensures page { result ≡ page_at task place }
    ensures spot { spot_of task.0 place ≡ spot_in result (offset_in place) }
    ensures offsets { (o : ℕ) → at_offset o (spot_of task.0 place) ≡ spot_in result o }
{
    match place {
        Place::Virtual { page, offset: _ } => Page::Memory { task, page },
        Place::File {
            file,
            page,
            offset: _,
        } => Page::File { file, page },
    }
}

/// The offset of a place in its page.
pub fn offset_of(place: Place) -> u32
    ensures { result ≡ offset_in place }
{
    match place {
        Place::Virtual { page: _, offset } => offset,
        Place::File {
            file: _,
            page: _,
            offset,
        } => offset,
    }
}
