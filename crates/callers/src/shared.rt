//! A caller of `page_state`: a page that two tasks map.

ghost use Rattle.std.specs.Prelude.{◌≡◌, ◌<◌, true, Some};
ghost use Rattle.machine.specs.Access.{page_size};
ghost use Rattle.machine.specs.Pages.{is_held_in};
ghost use Rattle.machine.specs.Tasks.{is_live_life, lives, mapped_at};

use files::blocks_for;
use machine::config::{Config, FileList, Placement, Watermarks};
use machine::id::{GroupId, PageId, TaskId};
use machine::page_size::PageSize;
use machine::record::Life;
use page_state::State;
use pages::Residence;
use std::alloc::AllocError;
use std::process::Abort;
use std::test::Fail;

const PARENT: TaskId = TaskId(1);

const CHILD: TaskId = TaskId(2);

/// Two frames and no swap.
fn open<R: Abort + AllocGlobal>(rt: &R) -> Result<State, AllocError> {
    let config = Config {
        frames: 2,
        swap: 0,
        files: FileList::new(rt.alloc()),
        watermarks: Watermarks { low: 0, high: 0 },
        trace: 1,
        turns: 1000,
        recursive: false,
        placement: Placement::Own,
        page_size: PageSize::of_4k(),
    };
    assert!(rt; blocks_for(&config).is_some());
    State::open(rt.alloc(), config)
}

pub fn is_alive(state: &State, task: TaskId) -> bool
    ensures { result ≡ lives state.now.tables.tasks task.0 }
{
    match state.spaces().task(task) {
        Some(known) => is_running(known.life),
        None => false,
    }
}

fn is_running(life: Life) -> bool
    ensures { result ≡ is_live_life life }
{
    match life {
        Life::Live => true,
        Life::Exited | Life::Killed => false,
    }
}

fn is_held(state: &State, page: PageId) -> bool
    ensures { result ≡ is_held_in state.now.tables.pages page.0 }
{
    match state.pages().residence(page) {
        Some(Residence::Held(_)) => true,
        _ => false,
    }
}

/// The page that the task's first virtual page maps, which is in a frame.
pub fn shown<R: Abort>(rt: &R, state: &State, task: TaskId) -> PageId
    ensures shown { mapped_at state.now.tables.page_tables task.0 0 ≡ Some result.0 }
    ensures held { is_held_in state.now.tables.pages result.0 ≡ true }
{
    let Some(page) = state.spaces().page(task, 0) else {
        panic!(rt; "no page")
    };
    assert!(rt; is_held(state, page));
    page
}

/// A byte of the page that the task's first virtual page maps.
fn read<R: Abort>(rt: &R, state: &State, task: TaskId, offset: usize) -> u8
    requires { offset < page_size }
{
    state.pages().read(shown(rt, state, task), offset)
}

/// A task of the root writes a byte to a virtual page that maps nothing, and forks a child.
fn fork<R: Abort>(rt: &R, state: &mut State) {
    state.is_joined();
    assert!(rt; state.spaces().number_refusal(PARENT).is_none());
    assert!(rt; state.spawn(PARENT, GroupId::ROOT).is_ok());
    state.is_joined();
    assert!(rt; is_alive(state, PARENT));
    assert!(rt; state.spaces().page(PARENT, 0).is_none());
    let Ok(()) = state.room_for(GroupId::ROOT) else {
        panic!(rt; "no room")
    };
    state.hold(PARENT, 0, GroupId::ROOT, 0, 7);
    assert!(rt; is_alive(state, PARENT));
    assert!(rt; state.spaces().number_refusal(CHILD).is_none());
    assert!(rt; state.fork(PARENT, CHILD).is_ok());
}

#[test]
fn a_shared_page_is_copied_where_it_is_written(rt: HostRuntime) -> Result<(), Fail> {
    let mut state = open(&rt)?;
    fork(&rt, &mut state);
    let from = shown(&rt, &state, CHILD);
    assert_eq!(rt; shown(&rt, &state, PARENT), from);
    assert!(rt; state.spaces().mappers(from) > 1);
    state.is_joined();
    assert!(rt; is_alive(&state, CHILD));
    let Ok(()) = state.room_for(GroupId::ROOT) else {
        panic!(rt; "no room")
    };
    state.copy(CHILD, 0, from, GroupId::ROOT, 1, 9);
    let of_parent = [read(&rt, &state, PARENT, 0), read(&rt, &state, PARENT, 1)];
    let of_child = [read(&rt, &state, CHILD, 0), read(&rt, &state, CHILD, 1)];
    assert_eq!(rt;
        (of_parent, of_child, state.free_frames()),
        ([7, 0], [7, 9], 0)
    );
    state.close();
    Ok(())
}

#[test]
fn a_page_goes_with_its_last_place(rt: HostRuntime) -> Result<(), Fail> {
    let mut state = open(&rt)?;
    fork(&rt, &mut state);
    state.unmap(PARENT, 0);
    let (left, free) = (read(&rt, &state, CHILD, 0), state.free_frames());
    state.unmap(CHILD, 0);
    assert_eq!(rt; (left, free, state.free_frames()), (7, 1, 2));
    state.close();
    Ok(())
}

#[test]
fn a_task_moves_and_its_page_stays_charged(rt: HostRuntime) -> Result<(), Fail> {
    let mut state = open(&rt)?;
    fork(&rt, &mut state);
    let Ok(parent) = state.tree().parent_for("/a") else {
        panic!(rt; "no parent")
    };
    assert!(rt; parent == GroupId::ROOT);
    assert!(rt; state.tree().space_refusal(parent).is_none());
    assert!(rt; state.mkdir(parent, "/a").is_ok());
    let group = GroupId(1);
    assert!(rt; state.tree().is_live(group));
    assert!(rt; is_alive(&state, CHILD));
    state.attach(CHILD, group);
    assert!(rt; state.spaces().has_tasks(group));
    assert_eq!(rt; (state.usage(group), read(&rt, &state, CHILD, 0)), (0, 7));
    state.close();
    Ok(())
}
