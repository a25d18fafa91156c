//! What an event will do. The causes to refuse it are checked in order; if none applies, its effect is
//! decided. Nothing changes here.

ghost use Rattle.std.specs.Prelude.{◌≡◌, ℕ, true, false, Option, None, Some, option_map, IfSome, IfOk, IfErr, OnErr, MatchResult};
ghost use Rattle.machine.specs.declared.event.Event.TheVariants as event;
ghost use Rattle.machine.specs.Tree.{is_live};
ghost use Rattle.machine.specs.Pages as residence;
ghost use Rattle.machine.specs.Access.{is_place, charges};
ghost use Rattle.machine.specs.Tasks.{task_at, lives};
ghost use Rattle.machine.specs.Reclaim.{stands, target_of, goal_of};
ghost use Rattle.machine.specs.declared.refusal.Refusal.{Refusal as Refusal_of};
ghost use Rattle.machine.specs.Refusals.{refusal, task_refusal, below_target, bars_children, bars_tasks, file_refusal, show_refusal, spawn_refusal, attach_refusal, rmdir_refusal};
ghost use Rattle.book.specs.MakesStep.{IsAsked};
ghost use Rattle.book_events.specs.Spots.{holder};
ghost use Rattle.book.specs.Decisions.{spot_at, IsFault, Finds, met_by, MeetsSo, RunsIn, kill_of, IsDecided};

use crate::decision::{Decision, Meeting, PageFault};
use machine::bytes::PAGE_BYTES;
use machine::event::{Cause, Event, Goal, Op, Place, Query, Setting};
use machine::id::{FrameId, GroupId, PageId, TaskId};
use machine::limit::TASK_PAGES;
use machine::record::Life;
use machine::refusal::Refusal;
use oom::{Chosen, victims};
use page_state::State;
use pages::{FilePage, Residence, Source};

/// The first cause to refuse an event without a ticket, or what the event will do. Room in the trace and
/// memory are not checked.
pub fn decide<'e>(state: &State, event: &'e Event) -> Result<Decision<'e>, Refusal>
    requires { IsAsked event.now }
    ensures { MatchResult result (λ decided. IsDecided state.now event.now decided) (λ why. refusal state.now.tables event.now ≡ Some why) }
{
    match event {
        Event::Access { task, place, op } => decide_access(state, *task, *place, *op),
        Event::Relieve(cause) => Ok(decide_relief(state, *cause)),
        Event::ReclaimOne(group) => decide_reclaim(state, *group),
        Event::Spawn { task, group } => decide_spawn(state, *task, *group),
        Event::Fork { task, child } => decide_fork(state, *task, *child),
        Event::Exit(task) => decide_exit(state, *task),
        Event::Free { task, page } => decide_free(state, *task, *page),
        Event::Attach { task, group } => decide_attach(state, *task, *group),
        Event::Mkdir(path) => decide_mkdir(state, path.as_str()),
        Event::Rmdir(group) => decide_rmdir(state, *group),
        Event::Set { group, setting } => decide_set(state, *group, *setting),
        Event::Show(query) => decide_show(state, *query),
        Event::Arrived {
            ticket: _,
            bytes: _,
        }
        | Event::FetchFailed(_)
        | Event::Left(_)
        | Event::LeaveFailed(_)
        | Event::MergeMarks { word: _, bits: _ } => unreachable!(),
    }
}

// ---- accesses

fn decide_access<'e>(
    state: &State,
    task: TaskId,
    place: Place,
    op: Op,
) -> Result<Decision<'e>, Refusal>
    ensures { MatchResult result (λ decided. IsDecided state.now (event.Access task place op) decided) (λ why. refusal state.now.tables (event.Access task place op) ≡ Some why) }
{
    let Some(group) = running(state, task)? else {
        return Ok(Decision::Killed);
    };
    if !is_place(state, place) {
        return Err(Refusal::BadPlace);
    }
    let fault = PageFault {
        task,
        group,
        place,
        op,
    };
    Ok(decide_fault(state, fault))
}

/// Whether the place exists.
fn is_place(state: &State, place: Place) -> bool
    ensures { result ≡ is_place state.now.tables.opening place }
{
    match place {
        Place::Virtual { page, offset } => page < TASK_PAGES && (offset as usize) < PAGE_BYTES,
        Place::File { file, page, offset } => {
            state.pages().files().home(file, page).is_some() && (offset as usize) < PAGE_BYTES
        }
    }
}

/// An access by a live task: what it meets, and whether there is room for the charge that it needs.
fn decide_fault<'e>(state: &State, fault: PageFault) -> Decision<'e>
    requires { IsFault state.now.tables fault }
    ensures { IsDecided state.now (event.Access fault.task fault.place fault.op) result }
{
    let meeting = meet(state, fault);
    match charged(state, fault, meeting) {
        None => Decision::Access(fault, meeting),
        Some(group) => match state.room_for(group) {
            Ok(()) => Decision::Access(fault, meeting),
            Err(why) => Decision::Lacks(fault, why),
        },
    }
}

/// The group that is charged for the page that an access needs, if it needs one. A new page is charged to
/// the task's group.
fn charged(state: &State, fault: PageFault, meeting: Meeting) -> Option<GroupId>
    requires fault { IsFault state.now.tables fault }
    requires meets { MeetsSo state.now.tables fault meeting }
    ensures charges { option_map (λ g. g.0) result ≡ charges state.now.tables.opening.placement (met_by state.now.tables fault) fault.group.0 }
    ensures live { IfSome result (λ g. is_live state.now.tables.tree g.0 ≡ true) }
{
    state.is_joined();
    match meeting {
        Meeting::Unmapped | Meeting::Hits(_, _) | Meeting::Transferring => None,
        Meeting::NeedsFetch(_, group) => Some(group),
        Meeting::NeedsPage { at: _, byte: _ }
        | Meeting::NeedsCopy {
            at: _,
            page: _,
            byte: _,
        } => Some(fault.group),
    }
}

/// What an access meets. If no page has its byte, memory is zeros, and a page of a file is on the device.
fn meet(state: &State, fault: PageFault) -> Meeting
    requires { IsFault state.now.tables fault }
    ensures { MeetsSo state.now.tables fault result }
{
    if let Some(page) = find(state, fault) {
        return meet_page(state, fault, page);
    }
    match fault.place {
        Place::Virtual {
            page: at,
            offset: _,
        } => match fault.op {
            Op::Read => Meeting::Unmapped,
            Op::Write(byte) => Meeting::NeedsPage { at, byte },
        },
        Place::File {
            file,
            page,
            offset: _,
        } => Meeting::NeedsFetch(Source::File(FilePage { file, page }), fault.group),
    }
}

/// The page that has the byte: the one that the task's page table maps, or the one that the cache holds of
/// the file.
fn find(state: &State, fault: PageFault) -> Option<PageId>
    requires { IsFault state.now.tables fault }
    ensures { option_map (λ page. page.0) result ≡ holder state.now.tables (spot_at fault) }
{
    match fault.place {
        Place::Virtual { page, offset: _ } => state.spaces().page(fault.task, page),
        Place::File {
            file,
            page,
            offset: _,
        } => state.pages().cached(file, page),
    }
}

/// An access to a page, wherever it is.
fn meet_page(state: &State, fault: PageFault, page: PageId) -> Meeting
    requires { holder state.now.tables (spot_at fault) ≡ Some page.0 }
    ensures { MeetsSo state.now.tables fault result }
{
    state.is_joined();
    let Some(residence) = state.pages().residence(page) else {
        unreachable!()
    };
    match residence {
        Residence::Held(frame) => meet_held(state, fault, page, frame),
        Residence::Coming | Residence::Going => Meeting::Transferring,
        Residence::Away(_) => meet_away(state, fault, page),
    }
}

/// An access to a page on its block, which is memory. The page remains its group's, for an access by any
/// task. By Linux's placement a page of the root becomes the task's group's.
fn meet_away(state: &State, fault: PageFault, page: PageId) -> Meeting
    requires { (b : ℕ) × Finds state.now.tables fault page.0 (residence.Away b) }
    ensures { MeetsSo state.now.tables fault result }
{
    state.is_joined();
    let Some(group) = state.pages().group(page) else {
        unreachable!()
    };
    let charged = state.placement().charged_from_swap(group, fault.group);
    Meeting::NeedsFetch(Source::Swapped(page), charged)
}

/// An access to a page in a frame. If other virtual pages map memory too, a write in place would change it
/// for them. A page of a file is written in place, even if others read it.
fn meet_held(state: &State, fault: PageFault, page: PageId, frame: FrameId) -> Meeting
    requires { Finds state.now.tables fault page.0 (residence.Held frame.0) }
    ensures { MeetsSo state.now.tables fault result }
{
    match fault.place {
        Place::Virtual {
            page: at,
            offset: _,
        } => match fault.op {
            Op::Read => Meeting::Hits(page, frame),
            Op::Write(byte) => {
                if state.spaces().mappers(page) > 1 {
                    Meeting::NeedsCopy { at, page, byte }
                } else {
                    Meeting::Hits(page, frame)
                }
            }
        },
        Place::File {
            file: _,
            page: _,
            offset: _,
        } => Meeting::Hits(page, frame),
    }
}

// ---- reclaim

/// One relief. Either room is not needed any more, or a page is evicted, or one in transfer may become
/// free. Otherwise the victim, if there is one, is killed, alone or with a group.
fn decide_relief<'e>(state: &State, cause: Cause) -> Decision<'e>
    ensures { IsDecided state.now (event.Relieve cause) result }
{
    state.is_joined();
    if !is_wanted(state, cause) {
        return Decision::Room;
    }
    let (goal, target) = (goal_of(cause), target_of(cause));
    if let Some(served) = state.next_group(goal, target) {
        return Decision::Take {
            goal,
            target,
            served,
        };
    }
    if state.has_transfer(target) {
        return Decision::Wait;
    }
    match victims(state.tree(), state.spaces(), state.flags(), target) {
        Some(chosen) => decide_kill(target, chosen),
        None => Decision::NoVictim(target),
    }
}

/// The victim is killed alone, or with its group.
fn decide_kill<'e>(limit: GroupId, chosen: Chosen) -> Decision<'e>
    ensures { result ≡ kill_of limit chosen }
{
    match chosen.group {
        Some(group) => Decision::KillAll {
            limit,
            victim: chosen.victim,
            group,
        },
        None => Decision::Kill {
            limit,
            task: chosen.victim,
        },
    }
}

/// A reclaim on request: a page is evicted; or one in transfer may become free; or there is nothing to
/// reclaim.
fn decide_reclaim<'e>(state: &State, target: GroupId) -> Result<Decision<'e>, Refusal>
    ensures { MatchResult result (λ decided. IsDecided state.now (event.ReclaimOne target) decided) (λ why. refusal state.now.tables (event.ReclaimOne target) ≡ Some why) }
{
    if !state.tree().is_live(target) {
        return Err(Refusal::NoEntry);
    }
    let goal = Goal::Amount;
    if let Some(served) = state.next_group(goal, target) {
        return Ok(Decision::Take {
            goal,
            target,
            served,
        });
    }
    if state.has_transfer(target) {
        return Ok(Decision::Wait);
    }
    Ok(Decision::Nothing)
}

/// Whether room is still needed.
fn is_wanted(state: &State, cause: Cause) -> bool
    ensures { result ≡ stands state.now.tables cause }
{
    match cause {
        Cause::Charge(group) => {
            state.tree().is_live(group) && state.limits(group).max.is_full(state.usage(group))
        }
        Cause::Lower(group) => {
            state.tree().is_live(group) && state.limits(group).max.exceeded_by(state.usage(group))
        }
        Cause::Frame => state.free_frames() == 0,
    }
}

/// Whether one page is needed, or as many as are too many.
fn goal_of(cause: Cause) -> Goal
    ensures { result ≡ goal_of cause }
{
    match cause {
        Cause::Charge(_) | Cause::Frame => Goal::OnePage,
        Cause::Lower(_) => Goal::Amount,
    }
}

/// The group under which room is needed.
pub fn target_of(cause: Cause) -> GroupId
    ensures { result.0 ≡ target_of cause }
{
    match cause {
        Cause::Charge(group) | Cause::Lower(group) => group,
        Cause::Frame => GroupId::ROOT,
    }
}

// ---- tasks and groups

/// A live task's group. `None` if the task was killed: every request of such a task is answered with
/// `Killed`. For any other task the result is the first cause to refuse its request.
fn running(state: &State, task: TaskId) -> Result<Option<GroupId>, Refusal>
    ensures runs { IfOk result (λ group. RunsIn state.now.tables task.0 group) }
    ensures refused { IfErr result (λ why. (others : Option Refusal_of) → task_refusal (task_at state.now.tables.tasks task.0) others ≡ Some why) }
    ensures gone { OnErr result (lives state.now.tables.tasks task.0 ≡ false) }
{
    let Some(known) = state.spaces().task(task) else {
        return Err(Refusal::NoTask);
    };
    match known.life {
        Life::Live => Ok(Some(known.group)),
        Life::Killed => Ok(None),
        Life::Exited => Err(Refusal::NoTask),
    }
}

fn decide_spawn<'e>(state: &State, task: TaskId, group: GroupId) -> Result<Decision<'e>, Refusal>
    ensures { MatchResult result (λ decided. IsDecided state.now (event.Spawn task group) decided) (λ why. refusal state.now.tables (event.Spawn task group) ≡ Some why) }
{
    if !state.tree().is_live(group) {
        return Err(Refusal::NoEntry);
    }
    if bars_tasks(state, group) {
        return Err(Refusal::Busy);
    }
    match state.spaces().number_refusal(task) {
        Some(why) => Err(why),
        None => Ok(Decision::Spawn { task, group }),
    }
}

fn decide_fork<'e>(state: &State, task: TaskId, child: TaskId) -> Result<Decision<'e>, Refusal>
    ensures { MatchResult result (λ decided. IsDecided state.now (event.Fork task child) decided) (λ why. refusal state.now.tables (event.Fork task child) ≡ Some why) }
{
    if running(state, task)?.is_none() {
        return Ok(Decision::Killed);
    }
    match state.spaces().number_refusal(child) {
        Some(why) => Err(why),
        None => Ok(Decision::Fork { task, child }),
    }
}

fn decide_free<'e>(state: &State, task: TaskId, at: u32) -> Result<Decision<'e>, Refusal>
    ensures { MatchResult result (λ decided. IsDecided state.now (event.Free task at) decided) (λ why. refusal state.now.tables (event.Free task at) ≡ Some why) }
{
    if running(state, task)?.is_none() {
        return Ok(Decision::Killed);
    }
    if at >= TASK_PAGES {
        return Err(Refusal::BadPlace);
    }
    Ok(Decision::Free { task, at })
}

fn decide_attach<'e>(state: &State, task: TaskId, group: GroupId) -> Result<Decision<'e>, Refusal>
    ensures { MatchResult result (λ decided. IsDecided state.now (event.Attach task group) decided) (λ why. refusal state.now.tables (event.Attach task group) ≡ Some why) }
{
    if !state.tree().is_live(group) {
        return Err(Refusal::NoEntry);
    }
    let Ok(Some(_)) = running(state, task) else {
        return Err(Refusal::NoTask);
    };
    if bars_tasks(state, group) {
        return Err(Refusal::Busy);
    }
    Ok(Decision::Attach { task, group })
}

fn decide_exit<'e>(state: &State, task: TaskId) -> Result<Decision<'e>, Refusal>
    ensures { MatchResult result (λ decided. IsDecided state.now (event.Exit task) decided) (λ why. refusal state.now.tables (event.Exit task) ≡ Some why) }
{
    if running(state, task)?.is_none() {
        return Ok(Decision::Killed);
    }
    Ok(Decision::Exit(task))
}

fn decide_mkdir<'e>(state: &State, path: &'e str) -> Result<Decision<'e>, Refusal>
    ensures { MatchResult result (λ decided. IsDecided state.now (event.Mkdir path.now) decided) (λ why. refusal state.now.tables (event.Mkdir path.now) ≡ Some why) }
{
    let parent = match state.tree().parent_for(path) {
        Err(why) => return Err(why),
        Ok(parent) => parent,
    };
    if bars_children(state, parent) {
        return Err(Refusal::Busy);
    }
    match state.tree().space_refusal(parent) {
        Some(why) => Err(why),
        None => Ok(Decision::Mkdir { parent, path }),
    }
}

fn decide_rmdir<'e>(state: &State, group: GroupId) -> Result<Decision<'e>, Refusal>
    ensures { MatchResult result (λ decided. IsDecided state.now (event.Rmdir group) decided) (λ why. refusal state.now.tables (event.Rmdir group) ≡ Some why) }
{
    if !state.tree().is_live(group) {
        return Err(Refusal::NoEntry);
    }
    if group == GroupId::ROOT
        || (state.tree().has_children(group) || state.spaces().has_tasks(group))
    {
        return Err(Refusal::Busy);
    }
    Ok(Decision::Rmdir(group))
}

fn decide_set<'e>(state: &State, group: GroupId, setting: Setting) -> Result<Decision<'e>, Refusal>
    ensures { MatchResult result (λ decided. IsDecided state.now (event.Set group setting) decided) (λ why. refusal state.now.tables (event.Set group setting) ≡ Some why) }
{
    match file_refusal(state, group) {
        Some(why) => Err(why),
        None => Ok(Decision::Set { group, setting }),
    }
}

fn decide_show<'e>(state: &State, query: Query) -> Result<Decision<'e>, Refusal>
    ensures { MatchResult result (λ decided. IsDecided state.now (event.Show query) decided) (λ why. refusal state.now.tables (event.Show query) ≡ Some why) }
{
    match show_refusal(state, query) {
        Some(why) => Err(why),
        None => Ok(Decision::Show(query)),
    }
}

/// A control file that the root does not have.
fn file_refusal(state: &State, group: GroupId) -> Option<Refusal>
    ensures { result ≡ file_refusal state.now.tables.tree group.0 }
{
    if !state.tree().is_live(group) || group == GroupId::ROOT {
        return Some(Refusal::NoEntry);
    }
    None
}

fn show_refusal(state: &State, query: Query) -> Option<Refusal>
    ensures { result ≡ show_refusal state.now.tables query }
{
    match query {
        Query::Current(group)
        | Query::Max(group)
        | Query::Guard(_, group)
        | Query::OomGroup(group)
        | Query::Events(group)
        | Query::EventsLocal(group)
        | Query::Stat(group) => file_refusal(state, group),
        Query::Protection {
            guard: _,
            target,
            group,
        } => {
            if is_below(state, target, group) {
                None
            } else {
                Some(Refusal::NoEntry)
            }
        }
    }
}

fn is_below(state: &State, target: GroupId, group: GroupId) -> bool
    ensures { result ≡ below_target state.now.tables.tree target.0 group.0 }
{
    let tree = state.tree();
    tree.is_live(target)
        && (tree.is_live(group) && (tree.is_under(target, group) && target.0 != group.0))
}

/// Whether child groups keep the group from having tasks.
fn bars_tasks(state: &State, group: GroupId) -> bool
    ensures { result ≡ bars_tasks state.now.tables.tree group.0 }
{
    group != GroupId::ROOT && state.tree().has_children(group)
}

/// Whether tasks keep the group from having child groups.
fn bars_children(state: &State, group: GroupId) -> bool
    ensures { result ≡ bars_children state.now.tables.tasks group.0 }
{
    group != GroupId::ROOT && state.spaces().has_tasks(group)
}
