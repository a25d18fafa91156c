//! Carrying out a decision: one change of the joined parts, and the answer.

ghost use Rattle.std.specs.Prelude.{◌≡◌, true, None, Some, IfOk, OnErr};
ghost use Rattle.machine.specs.Tree.{is_live};
ghost use Rattle.machine.specs.Refusals.{show_refusal};
ghost use Rattle.machine.specs.Step.{shown_of};
ghost use Rattle.machine.specs.declared.event.Event.{Event as Event_of};
ghost use Rattle.page_state.specs.States.{AreFew, AreYoung};
ghost use Rattle.book.specs.Decisions.{with_counted, counted_for, IsFault, MeetsSo, HasRoomFor, LacksRoomFor, IsSound, IsDecided, makes, Carries};
ghost use Rattle.book.specs.declared.decision.Decision.TheVariants as decision;
ghost use Rattle.book.specs.declared.decision.Meeting.TheVariants as meeting;

use crate::decision::{Decision, Meeting, PageFault};
use book_events::Reply;
use machine::event::{Goal, Op, Query, Setting};
use machine::id::{FrameId, GroupId, PageId, TaskId};
use machine::record::{Key, Life};
use machine::reply::Shown;
use page_state::{NoRoom, State};
use reclaim::Served;
use std::alloc::{AllocError, Global};

/// Carries out the decision. A ticket that it returns has no worker yet. `AllocError` if memory runs out,
/// and then nothing has changed.
pub fn apply(state: &mut State, alloc: Global, decided: Decision<'_>) -> Result<Reply, AllocError>
    requires few { AreFew state.old.tables }
    requires young { AreYoung state.old.order.held }
    requires decided { (what : Event_of) × IsDecided state.old what decided }
    ensures carries { IfOk result (λ said. Carries state.old decided.entry said state.new) }
    ensures err { OnErr result (state.new ≡ state.old) }
    ensures makes { OnErr result (makes decided.entry ≡ true) }
{
    state.is_joined();
    match decided {
        Decision::Killed => Ok(Reply::Killed),
        Decision::Access(fault, meeting) => {
            let reply = access(state, alloc, fault, meeting)?;
            Ok(reply)
        }
        Decision::Lacks(fault, why) => Ok(refuse(state, fault, why)),
        Decision::Room => Ok(Reply::Room),
        Decision::Take {
            goal,
            target,
            served,
        } => Ok(take(state, goal, target, served)),
        Decision::Wait => Ok(Reply::Wait),
        Decision::Nothing => Ok(Reply::Nothing),
        Decision::Kill { limit, task } => Ok(kill(state, limit, task)),
        Decision::KillAll {
            limit,
            victim,
            group,
        } => Ok(kill_all(state, limit, victim, group)),
        Decision::NoVictim(limit) => {
            state.count(limit, Key::Oom);
            Ok(Reply::NoVictim)
        }
        Decision::Spawn { task, group } => {
            state.spawn(task, group)?;
            Ok(Reply::Ok)
        }
        Decision::Fork { task, child } => {
            state.fork(task, child)?;
            Ok(Reply::Ok)
        }
        Decision::Free { task, at } => {
            state.unmap(task, at);
            Ok(Reply::Ok)
        }
        Decision::Attach { task, group } => {
            state.attach(task, group);
            Ok(Reply::Ok)
        }
        Decision::Exit(task) => {
            state.end_task(task, Life::Exited);
            Ok(Reply::Ok)
        }
        Decision::Mkdir { parent, path } => {
            state.mkdir(parent, path)?;
            Ok(Reply::Ok)
        }
        Decision::Rmdir(group) => {
            state.rmdir(group);
            Ok(Reply::Ok)
        }
        Decision::Set { group, setting } => Ok(set(state, group, setting)),
        Decision::Show(query) => Ok(Reply::Shown(shown(state, query))),
    }
}

/// An access by a live task. If it needs a charge, there is room for it.
fn access(
    state: &mut State,
    alloc: Global,
    fault: PageFault,
    meeting: Meeting,
) -> Result<Reply, AllocError>
    requires fault { IsFault state.old.tables fault }
    requires meets { MeetsSo state.old.tables fault meeting }
    requires room { HasRoomFor state.old.tables fault }
    ensures carries { IfOk result (λ said. Carries state.old (decision.Access fault meeting) said state.new) }
    ensures err { OnErr result (state.new ≡ state.old) }
    ensures makes { OnErr result (makes (decision.Access fault meeting) ≡ true) }
{
    state.is_joined();
    match meeting {
        Meeting::Unmapped => Ok(Reply::Done { byte: 0, hit: None }),
        Meeting::Hits(page, frame) => Ok(hit(state, fault, page, frame)),
        Meeting::Transferring => Ok(Reply::Busy),
        Meeting::NeedsPage { at, byte } => {
            state.hold(fault.task, at, fault.group, fault.offset(), byte);
            Ok(Reply::Done { byte, hit: None })
        }
        Meeting::NeedsCopy { at, page, byte } => {
            state.copy(fault.task, at, page, fault.group, fault.offset(), byte);
            Ok(Reply::Done { byte, hit: None })
        }
        Meeting::NeedsFetch(from, group) => {
            let ticket = state.start_in(alloc, from, group)?;
            Ok(Reply::Fetch(ticket))
        }
    }
}

/// An access to a page in a frame.
fn hit(state: &mut State, fault: PageFault, page: PageId, frame: FrameId) -> Reply
    requires fault { IsFault state.old.tables fault }
    requires meets { MeetsSo state.old.tables fault (meeting.Hits page frame) }
    ensures { Carries state.old (decision.Access fault (meeting.Hits page frame)) result state.new }
{
    state.is_joined();
    let offset = fault.offset();
    match fault.op {
        Op::Read => Reply::Done {
            byte: state.pages().read(page, offset as usize),
            hit: Some(frame),
        },
        Op::Write(byte) => {
            state.write(page, offset, byte);
            Reply::Done {
                byte,
                hit: Some(frame),
            }
        }
    }
}

/// Refuses a charge. If a max has no room, `max` is counted at its group.
fn refuse(state: &mut State, fault: PageFault, why: NoRoom) -> Reply
    requires few { AreFew state.old.tables }
    requires fault { IsFault state.old.tables fault }
    requires lacks { LacksRoomFor state.old.tables fault why }
    ensures { Carries state.old (decision.Lacks fault why) result state.new }
{
    state.is_joined();
    match why {
        NoRoom::Over(group) => {
            state.count(group, Key::Max);
            Reply::Over(group)
        }
        NoRoom::NoFrame => Reply::NoFrame,
    }
}

/// Evicts the next page for the target: its write-out begins, or it is dropped. If its group's low protects
/// it, `low` is counted at the group.
fn take(state: &mut State, goal: Goal, target: GroupId, served: Served) -> Reply
    requires few { AreFew state.old.tables }
    requires young { AreYoung state.old.order.held }
    requires sound { IsSound state.old.tables state.old.order (decision.Take goal target served) }
    ensures { Carries state.old (decision.Take goal target served) result state.new }
{
    state.is_joined();
    count_low(state, served);
    match state.take_out(goal, target, served.group) {
        Some(ticket) => Reply::Out(ticket),
        None => Reply::Dropped,
    }
}

/// Counts `low` at the group that is served, if the reclaim overrides its low (kernel: memcg_memory_event
/// with MEMCG_LOW, in shrink_node_memcgs).
fn count_low(state: &mut State, served: Served)
    requires few { AreFew state.old.tables }
    requires live { is_live state.old.tables.tree served.group.0 ≡ true }
    ensures { state.new ≡ with_counted state.old (counted_for state.old.tables served) }
{
    if served.low_reclaim {
        state.count(served.group, Key::Low);
    }
}

/// Kills only this task, since nothing can be reclaimed under the limit.
fn kill(state: &mut State, limit: GroupId, task: TaskId) -> Reply
    requires few { AreFew state.old.tables }
    requires sound { IsSound state.old.tables state.old.order (decision.Kill limit task) }
    ensures { Carries state.old (decision.Kill limit task) result state.new }
{
    state.is_joined();
    let Some(known) = state.spaces().task(task) else {
        unreachable!()
    };
    state.count(limit, Key::Oom);
    state.count(known.group, Key::OomKill);
    state.end_task(task, Life::Killed);
    Reply::KilledTask(task)
}

/// Kills all tasks of the group at once, since nothing can be reclaimed under the limit (kernel:
/// oom_kill_process, mem_cgroup_scan_tasks with oom_kill_memcg_member).
fn kill_all(state: &mut State, limit: GroupId, victim: TaskId, group: GroupId) -> Reply
    requires few { AreFew state.old.tables }
    requires sound { IsSound state.old.tables state.old.order (decision.KillAll limit victim group) }
    ensures { Carries state.old (decision.KillAll limit victim group) result state.new }
{
    state.is_joined();
    state.tree().groups_form_a_tree();
    let tasks = state.count_group_kill(limit, victim, group);
    state.end_tasks(group, Life::Killed);
    Reply::KilledAll {
        victim,
        group,
        tasks,
    }
}

/// Sets a new value for a setting of a group.
fn set(state: &mut State, group: GroupId, setting: Setting) -> Reply
    requires { is_live state.old.tables.tree group.0 ≡ true }
    ensures { Carries state.old (decision.Set group setting) result state.new }
{
    state.is_joined();
    state.set(group, setting);
    Reply::Ok
}

/// The requested numbers.
fn shown(state: &State, query: Query) -> Shown
    requires { show_refusal state.now.tables query ≡ None }
    ensures { result ≡ shown_of state.now.tables query }
{
    match query {
        Query::Current(group) => Shown::Pages(state.usage(group)),
        Query::Max(group) => Shown::Amount(state.limits(group).max),
        Query::Guard(guard, group) => Shown::Amount(state.limits(group).guard(guard)),
        Query::OomGroup(group) => Shown::Flag(state.flags().flag(group)),
        Query::Events(group) => Shown::Events(state.events(group)),
        Query::EventsLocal(group) => Shown::Events(state.local_events(group)),
        Query::Stat(group) => Shown::Stat(state.stat(group)),
        Query::Protection {
            guard,
            target,
            group,
        } => Shown::Amount(state.protection(guard, target, group)),
    }
}
