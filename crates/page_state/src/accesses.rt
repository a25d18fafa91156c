//! Making, copying, reading in and writing pages.

ghost use Rattle.std.specs.Prelude.{◌≡◌, ℕ, ◌<◌, None, true, slice_index, IfOk, IfErr, OnOk, OnErr};
ghost use Rattle.machine.specs.Tree.{is_live};
ghost use Rattle.machine.specs.Pages.{is_held_in};
ghost use Rattle.machine.specs.Tasks.{lives, mapped_at};
ghost use Rattle.machine.specs.Access.{page_size, task_pages};
ghost use Rattle.pages.specs.Transfers.{IsReadable};
ghost use Rattle.page_state.specs.Changes.{HasRoom, LacksRoom, SharesPage, MakesPage, WritesByte, MergesFrames, files_of, BeginsRead};

use crate::joined::State;
use crate::merging::merge_marks;
use crate::room::{NoRoom, take_room};
use frames::FRAME_BYTES;
use machine::id::{GroupId, PageId, TaskId};
use pages::{InTicket, Source};
use std::alloc::{AllocError, Global};

impl State {
    /// Whether a page can be charged to the group and brought into a frame, and if not, why. A max without room is
    /// reported before a lack of free frames (kernel: try_charge_memcg).
    pub fn room_for(&self, group: GroupId) -> Result<(), NoRoom>
        requires { is_live self.now.tables.tree group.0 ≡ true }
        ensures room { OnOk result (HasRoom self.now.tables group.0) }
        ensures lacks { IfErr result (λ why. LacksRoom self.now.tables group.0 why) }
    {
        self.parts.counters.are_counted();
        if let Some(limit) = self.parts.counters.over(group) {
            return Err(NoRoom::Over(limit));
        }
        if self.parts.pool.free() == 0 {
            return Err(NoRoom::NoFrame);
        }
        Ok(())
    }

    /// Makes a page of zeros except for one byte, for a virtual page of a task that maps nothing. It is charged to
    /// the group, which has room for it. Allocates no memory.
    pub fn hold(&mut self, task: TaskId, at: u32, group: GroupId, offset: u32, byte: u8)
        requires alive { lives self.old.tables.tasks task.0 ≡ true }
        requires inside { at < task_pages }
        requires unmapped { mapped_at self.old.tables.page_tables task.0 at ≡ None }
        requires live { is_live self.old.tables.tree group.0 ≡ true }
        requires room { HasRoom self.old.tables group.0 }
        requires within { offset < page_size }
        ensures { MakesPage self.old self.new task.0 at group.0 offset byte }
    {
        let page = self.parts.hold(None, group, offset as usize, byte);
        self.spaces.map(task, at, page);
    }

    /// Makes a copy of a page, with one byte replaced. A virtual page of a task maps the original, which is in a
    /// frame, and maps the copy from then on. Other virtual pages still map the original. The copy is charged to the
    /// group, which has room for it (kernel: `do_wp_page`, `wp_page_copy`). Allocates no memory.
    pub fn copy(
        &mut self,
        task: TaskId,
        at: u32,
        from: PageId,
        group: GroupId,
        offset: u32,
        byte: u8,
    )
        requires alive { lives self.old.tables.tasks task.0 ≡ true }
        requires shared { SharesPage self.old.tables task.0 at from.0 }
        requires live { is_live self.old.tables.tree group.0 ≡ true }
        requires room { HasRoom self.old.tables group.0 }
        requires within { offset < page_size }
        ensures { MakesPage self.old self.new task.0 at group.0 offset byte }
    {
        self.spaces.owners();
        let page = self.parts.hold(Some(from), group, offset as usize, byte);
        self.spaces.unmap(task, at);
        self.spaces.map(task, at, page);
    }

    /// Changes a byte of a page in a frame. A page of a file is dirty from then on.
    pub fn write(&mut self, page: PageId, offset: u32, byte: u8)
        requires held { is_held_in self.old.tables.pages page.0 ≡ true }
        requires within { offset < page_size }
        ensures { WritesByte self.old self.new page.0 offset byte }
    {
        self.parts.pages.write(page, offset as usize, byte);
    }

    /// Hits the pages that are held in the frames of these bits, which the placement marks as accessed after so many
    /// hits (kernel: a walk over the accessed bits of page tables, `walk_mm`; for a page of a file, `folio_inc_refs`).
    /// Bit b belongs to frame `64 * word + b`. Allocates no memory.
    pub fn merge_marks(&mut self, word: u32, bits: u64)
        ensures { MergesFrames self.old self.new word bits }
    {
        let placement = self.config.placement;
        merge_marks(
            &self.parts.pages,
            &mut self.parts.held,
            placement,
            word,
            bits,
        );
    }

    /// Begins to read in what the source names, charged to the group, which has room for it. The source is memory on
    /// its slot, which becomes a page of the group, or a page of a file that no page holds, on its home block (kernel:
    /// do_swap_page, filemap_add_folio). `AllocError` if memory runs out, and then nothing changes.
    pub fn start_in(
        &mut self,
        alloc: Global,
        from: Source,
        group: GroupId,
    ) -> Result<InTicket, AllocError>
        requires readable { IsReadable self.old.tables.pages (files_of self.old.tables.opening) from }
        requires live { is_live self.old.tables.tree group.0 ≡ true }
        requires room { HasRoom self.old.tables group.0 }
        ensures begins { IfOk result (λ ticket. BeginsRead self.old self.new from group.0 ticket) }
        ensures err { OnErr result (self.new ≡ self.old) }
    {
        self.parts.counters.are_counted();
        self.parts.pages.are_in_flight();
        self.parts.pages.are_filed();
        let buffer = buffer(alloc)?;
        let (frame, charge) = take_room(&mut self.parts.counters, &mut self.parts.pool, group);
        let (page, ticket) = self.parts.pages.start_in(from, frame, charge, buffer);
        self.parts.moving.push(page);
        Ok(ticket)
    }
}

/// The memory for the bytes of a page that will arrive: zeros until then.
fn buffer(alloc: Global) -> Result<Box<[u8; FRAME_BYTES]>, AllocError>
    ensures zeros { IfOk result (λ bytes. (o : ℕ) → slice_index bytes.value o ≡ 0) }
{
    let buffer = Box::new(alloc, [0; FRAME_BYTES])?;
    Ok(buffer)
}
