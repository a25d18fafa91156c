//! Unmapping virtual pages. A page that nothing maps any more is gone, with what it owned. A page in
//! transfer stays until the transfer ends.

ghost use Rattle.std.specs.Prelude.{◌≡◌, ℕ, ◌≤◌, ◌&&◌, not, None};
ghost use Rattle.machine.specs.Slots.{there_and};
ghost use Rattle.machine.specs.Tasks.{mapped_at};
ghost use Rattle.machine.specs.Pages.{page_at, is_anon, is_in_transfer};
ghost use Rattle.page_state.specs.Changes.{Unmaps, UnmapsAll};
ghost use Rattle.page_state.specs.Owned.{PartsAgree};
ghost use Rattle.page_state.specs.Parts.{DropsUnmapped};
ghost use Rattle.page_state.specs.Drops.{is_transfer};

use crate::joined::State;
use crate::parts::Parts;
use machine::id::{PageId, TaskId};
use machine::record::Kind;
use pages::{Pages, Residence};
use spaces::Spaces;

impl State {
    /// Unmaps a virtual page of a task. The page that it mapped is gone if nothing else maps it (kernel:
    /// zap_pte_range). Allocates no memory.
    pub fn unmap(&mut self, task: TaskId, at: u32)
        ensures { Unmaps self.old self.new task.0 at }
    {
        if let Some(page) = self.spaces.unmap(task, at) {
            drop_unmapped(&mut self.parts, &self.spaces, page);
        }
    }

    /// A number that is above those of all virtual pages of the task that map a page.
    fn bound(&self, task: TaskId) -> u32
        ensures { (at : ℕ) → result ≤ at → mapped_at self.now.tables.page_tables task.0 at ≡ None }
    {
        self.spaces.bound(task)
    }

    /// Unmaps all virtual pages of the task. Allocates no memory.
    pub(crate) fn unmap_all(&mut self, task: TaskId)
        ensures { UnmapsAll self.old self.new task.0 }
    {
        self.is_joined();
        for at in 0..self.bound(task) {
            self.unmap(task, at);
        }
    }
}

/// Removes the page if it is memory that nothing maps, unless it is in transfer or gone. Allocates no
/// memory.
pub fn drop_unmapped(parts: &mut Parts, spaces: &Spaces, page: PageId)
    requires { PartsAgree parts.old }
    ensures agree { PartsAgree parts.new }
    ensures drops { DropsUnmapped parts.old parts.new spaces.now.page_tables page.0 }
{
    if spaces.mappers(page) == 0 && is_settled_memory(&parts.pages, page) {
        parts.drop_page(page);
    }
}

/// Whether the page exists, is memory, and is not in transfer.
fn is_settled_memory(pages: &Pages, page: PageId) -> bool
    ensures { result ≡ there_and (λ page. is_anon page.content && not (is_in_transfer page)) (page_at pages.now.pages page.0) }
{
    match pages.kind(page) {
        Some(Kind::Anon) => match pages.residence(page) {
            Some(residence) => !is_transfer(residence),
            None => false,
        },
        _ => false,
    }
}

fn is_transfer(residence: Residence) -> bool
    ensures { result ≡ is_transfer residence }
{
    match residence {
        Residence::Coming | Residence::Going => true,
        Residence::Held(_) | Residence::Away(_) => false,
    }
}
