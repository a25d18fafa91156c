//! Hits by frame.

ghost use Rattle.std.specs.Prelude.{◌≡◌, ◌<◌};
ghost use Rattle.machine.specs.Lists.{HitsThose, MergesMarks};
ghost use Rattle.page_state.specs.Merging.{is_at_place};

use held_pages::HeldPages;
use machine::config::Placement;
use pages::Pages;

/// Hits the pages that are held in the frames of these bits: bit b belongs to frame `64 * word + b`. The placement
/// determines how many hits mark a page as accessed. Allocates no memory.
pub(crate) fn merge_marks(
    pages: &Pages,
    held: &mut HeldPages,
    placement: Placement,
    word: u32,
    bits: u64,
)
    requires { held.old.numbers ≡ pages.now.numbers }
    ensures merged { MergesMarks placement pages.now.pages word bits held.old.lists held.new.lists }
    ensures others { held.new ≡ record held.old { lists = held.new.lists } }
{
    for place in bits.trailing_zeros()..64 {
        if bits >> place == 0 {
            return;
        }
        merge_mark(pages, held, placement, word, bits, place);
    }
}

/// The same, for only the frame at one place of the word.
fn merge_mark(
    pages: &Pages,
    held: &mut HeldPages,
    placement: Placement,
    word: u32,
    bits: u64,
    place: u32,
)
    requires place { place < 64 }
    requires numbers { held.old.numbers ≡ pages.now.numbers }
    ensures merged { HitsThose placement (is_at_place word bits place) pages.now.pages held.old.lists held.new.lists }
    ensures others { held.new ≡ record held.old { lists = held.new.lists } }
{
    if (bits >> place) & 1 == 0 {
        return;
    }
    let frame = word as usize * 64 + place as usize;
    let Some(page) = pages.holder(frame) else {
        return;
    };
    let Some(kind) = pages.kind(page) else {
        return;
    };
    held.hit(page, kind, placement);
}
