//! A caller of `pages`: which page is held in a frame.

ghost use Rattle.std.specs.Prelude.{◌≡◌, true, nat_lt, slice_index};
ghost use Rattle.machine.specs.Pages.{is_in_flight};
ghost use Rattle.machine.specs.declared.record.Direction.TheVariants.{In};

use crate::shared::{is_alive, shown};
use files::blocks_for;
use machine::config::{Config, File, FileList, Placement, Watermarks};
use machine::id::{GroupId, TaskId, TicketId};
use machine::page_size::PageSize;
use machine::record::Direction;
use machine::text::Text;
use page_state::State;
use pages::{End, FilePage, InTicket, Source};
use std::alloc::AllocError;
use std::process::Abort;
use std::test::Fail;

const TASK: TaskId = TaskId(1);

const FILE_PAGE: FilePage = FilePage { file: 0, page: 0 };

/// One frame, no swap, and a file of one page.
fn open<R: Abort + AllocGlobal>(rt: &R) -> Result<State, AllocError> {
    let mut files = FileList::new(rt.alloc());
    let name = Text::new(String::from_str(rt.alloc(), "log")?);
    files.push(File { name, pages: 1 })?;
    let config = Config {
        frames: 1,
        swap: 0,
        files,
        watermarks: Watermarks { low: 0, high: 0 },
        trace: 1,
        turns: 1000,
        recursive: false,
        placement: Placement::Own,
        page_size: PageSize::of_4k(),
    };
    assert!(rt; blocks_for(&config).is_some());
    State::open(rt.alloc(), config)
}

fn has_page(state: &State, at: FilePage) -> bool
    ensures { result ≡ nat_lt at.page (slice_index state.now.tables.opening.files at.file) }
{
    state.pages().files().home(at.file, at.page).is_some()
}

fn is_coming(state: &State, ticket: TicketId) -> bool
    ensures { result ≡ true → is_in_flight In state.now.tables.pages ticket.0 ≡ true }
{
    match state.pages().flight(ticket) {
        Some(flight) => match flight.direction {
            Direction::In => true,
            Direction::Out => false,
        },
        None => false,
    }
}

/// Begins to read in the file's page.
fn begin<R: Abort + AllocGlobal>(rt: &R, state: &mut State) -> InTicket {
    state.is_joined();
    assert!(rt; has_page(state, FILE_PAGE));
    assert!(rt;
        state
            .pages()
            .cached(FILE_PAGE.file, FILE_PAGE.page)
            .is_none()
    );
    let Ok(()) = state.room_for(GroupId::ROOT) else {
        panic!(rt; "no room")
    };
    let Ok(ticket) = state.start_in(rt.alloc(), Source::File(FILE_PAGE), GroupId::ROOT) else {
        panic!(rt; "no memory")
    };
    ticket
}

/// Ends the read-in of the ticket, with this end.
fn end<R: Abort>(rt: &R, state: &mut State, ticket: InTicket, end: End) {
    assert!(rt; is_coming(state, ticket.number()));
    let _ = state.settle_in(ticket, end);
}

/// The task writes a byte to a virtual page that maps nothing.
fn make<R: Abort>(rt: &R, state: &mut State) {
    state.is_joined();
    assert!(rt; is_alive(state, TASK));
    assert!(rt; state.spaces().page(TASK, 0).is_none());
    let Ok(()) = state.room_for(GroupId::ROOT) else {
        panic!(rt; "no room")
    };
    state.hold(TASK, 0, GroupId::ROOT, 0, 7);
}

#[test]
fn a_frame_tells_the_page_that_is_held_in_it(rt: HostRuntime) -> Result<(), Fail> {
    let mut state = open(&rt)?;
    assert!(rt; state.pages().holder(0).is_none());
    state.is_joined();
    assert!(rt; state.spaces().number_refusal(TASK).is_none());
    assert!(rt; state.spawn(TASK, GroupId::ROOT).is_ok());

    // A page that is being read in is not held yet. If the read-in fails, there is no page.
    let ticket = begin(&rt, &mut state);
    let coming = (state.pages().holder(0), state.free_frames());
    end(&rt, &mut state, ticket, End::OnBlock);
    let failed = (state.pages().holder(0), state.free_frames());

    // A page is held until it is freed. Then another one is held in the same frame.
    make(&rt, &mut state);
    let made = Some(shown(&rt, &state, TASK));
    assert_eq!(rt;
        [state.pages().holder(0), state.pages().holder(1)],
        [made, None]
    );
    state.unmap(TASK, 0);
    let freed = (state.pages().holder(0), state.free_frames());
    assert_eq!(rt; [coming, failed, freed], [(None, 0), (None, 1), (None, 1)]);
    let ticket = begin(&rt, &mut state);
    end(&rt, &mut state, ticket, End::InFrame);
    let held = state.pages().holder(0);
    assert!(rt; held.is_some());
    assert!(rt; has_page(&state, FILE_PAGE));
    assert_eq!(rt; held, state.pages().cached(FILE_PAGE.file, FILE_PAGE.page));
    state.close();
    Ok(())
}
