//! The first turn of a command. All its paths are looked up; then the name, the mode and the amount or flag of a
//! control file are judged.

ghost use Rattle.std.specs.Prelude.{◌≡◌, ℕ, ◌<◌, ◌≤◌, false, IfOk, OnOk, OnErr, map, option_map};
ghost use Rattle.book.specs.Passes.{find_of, keeping};
ghost use Rattle.turns.specs.Turns.{shell_paths, paths_of, judged, task_judged, shell_judged, daemon_judged, with_group, with_file, reads_file, reclaims, writes_file};
ghost use Rattle.judging.specs.Finds.{looking};
ghost use Rattle.turns.specs.Tickets.{holds, OwnStage};
ghost use Rattle.machine.specs.Tree.{find_group};
ghost use Rattle.machine.specs.Control.{file_named};

use book::{Book, Pass};
use control_files::{file_named, has_file, parse_amount, parse_flag};
use machine::amount::Amount;
use machine::command::{Actor, Command};
use machine::control::ControlFile;
use machine::event::Query;
use machine::id::{GroupId, TaskId};
use machine::record::Guard;
use machine::refusal::Refusal;
use machine::text::Text;
use std::alloc::{AllocError, Global};
use turns::turn::{Access, Stage};

/// The result of a command's first turn. All its paths are looked up, in order, before anything of it is judged, and
/// the pass keeps them. A command that continues has no ticket in hand yet. It fails only if memory is refused for what
/// is kept of the command.
pub fn judge(
    alloc: Global,
    book: &Book,
    pass: &mut Pass,
    actor: Actor,
    command: &Command,
) -> Result<Result<Stage, Refusal>, AllocError>
    requires { 2 ≤ pass.old.room }
    ensures judged { IfOk result (λ answer. answer ≡ judged book.now.state.opening book.now.state.tree actor command.now) }
    ensures looked { OnOk result (pass.new ≡ looking book.now.state.tree (paths_of actor command.now) pass.old) }
    ensures holds { IfOk result (λ answer. IfOk answer (λ stage. holds stage ≡ false)) }
    ensures own { IfOk result (λ answer. IfOk answer (λ stage. (worker blocks : ℕ) → OwnStage worker blocks stage)) }
    ensures err { OnErr result (pass.new ≡ pass.old) }
{
    match actor {
        Actor::Task(task) => Ok(judge_task(task, command)),
        Actor::Shell | Actor::Control => judge_shell(alloc, book, pass, command),
        Actor::Daemon => Ok(judge_daemon(command)),
    }
}

/// The same for a task. No command of a task has a path, so nothing is looked up.
pub fn judge_task(task: u32, command: &Command) -> Result<Stage, Refusal>
    ensures judged { result ≡ task_judged task command.now }
    ensures holds { IfOk result (λ stage. holds stage ≡ false) }
{
    match command {
        Command::Access { place, op } => Ok(Stage::Try(Access {
            task: TaskId(task),
            place: *place,
            op: *op,
            fetched: false,
        })),
        Command::Fork { child } => Ok(Stage::Fork {
            task: TaskId(task),
            child: TaskId(*child),
        }),
        Command::Free { page } => Ok(Stage::Free {
            task: TaskId(task),
            page: *page,
        }),
        Command::Exit => Ok(Stage::Exit(TaskId(task))),
        _ => Err(Refusal::Invalid),
    }
}

fn judge_daemon(command: &Command) -> Result<Stage, Refusal>
    ensures judged { result ≡ daemon_judged command.now }
    ensures holds { IfOk result (λ stage. holds stage ≡ false) }
{
    match command {
        Command::Daemon => Ok(Stage::Watch),
        _ => Err(Refusal::Invalid),
    }
}

fn judge_shell(
    alloc: Global,
    book: &Book,
    pass: &mut Pass,
    command: &Command,
) -> Result<Result<Stage, Refusal>, AllocError>
    requires { 2 ≤ pass.old.room }
    ensures judged { IfOk result (λ answer. answer ≡ shell_judged book.now.state.opening command.now (map (find_group book.now.state.tree) (shell_paths command.now))) }
    ensures looked { OnOk result (pass.new ≡ looking book.now.state.tree (shell_paths command.now) pass.old) }
    ensures holds { IfOk result (λ answer. IfOk answer (λ stage. holds stage ≡ false)) }
    ensures err { OnErr result (pass.new ≡ pass.old) }
{
    match command {
        Command::Access { .. } | Command::Fork { .. } | Command::Free { .. } => {
            Ok(Err(Refusal::Invalid))
        }
        Command::Exit | Command::Daemon => Ok(Err(Refusal::Invalid)),
        Command::Group(path) => {
            let path = path.copy(alloc)?;
            Ok(Ok(Stage::Mkdir(path)))
        }
        Command::Rmdir(path) => Ok(judge_rmdir(find(alloc, book, pass, path)?)),
        Command::Task { task, path } => {
            let group = find(alloc, book, pass, path)?;
            Ok(judge_spawn(group, *task))
        }
        Command::Attach { task, path } => {
            let group = find(alloc, book, pass, path)?;
            Ok(judge_attach(group, *task))
        }
        Command::Set { path, file, text } => {
            let group = find(alloc, book, pass, path)?;
            Ok(judge_set(book, group, file.as_str(), text.as_str()))
        }
        Command::Cat { path, file } => {
            let group = find(alloc, book, pass, path)?;
            Ok(judge_cat(group, file.as_str()))
        }
        Command::Protection {
            guard,
            target,
            path,
        } => {
            // Neither is looked up unless there is memory for both.
            let above = target.copy(alloc)?;
            let below = path.copy(alloc)?;
            let target = book.find(pass, above);
            Ok(judge_protection(*guard, target, book.find(pass, below)))
        }
    }
}

/// The group of the path, of which the pass keeps a copy.
fn find(
    alloc: Global,
    book: &Book,
    pass: &mut Pass,
    path: &Text,
) -> Result<Option<GroupId>, AllocError>
    requires { 0 < pass.old.room }
    ensures found { IfOk result (λ group. option_map (λ g. g.0) group ≡ find_group book.now.state.tree path.now) }
    ensures kept { OnOk result (pass.new ≡ keeping pass.old (find_of path.now (find_group book.now.state.tree path.now))) }
    ensures err { OnErr result (pass.new ≡ pass.old) }
{
    let path = path.copy(alloc)?;
    Ok(book.find(pass, path))
}

fn judge_spawn(group: Option<GroupId>, task: u32) -> Result<Stage, Refusal>
    ensures judged { result ≡ with_group (option_map (λ g. g.0) group) (λ g. Ok (Stage.Spawn (record { 0 = task }) (record { 0 = g }))) }
    ensures holds { IfOk result (λ stage. holds stage ≡ false) }
{
    let group = group.ok_or(Refusal::NoEntry)?;
    Ok(Stage::Spawn {
        task: TaskId(task),
        group,
    })
}

fn judge_attach(group: Option<GroupId>, task: u32) -> Result<Stage, Refusal>
    ensures judged { result ≡ with_group (option_map (λ g. g.0) group) (λ g. Ok (Stage.Attach (record { 0 = task }) (record { 0 = g }))) }
    ensures holds { IfOk result (λ stage. holds stage ≡ false) }
{
    let group = group.ok_or(Refusal::NoEntry)?;
    Ok(Stage::Attach {
        task: TaskId(task),
        group,
    })
}

fn judge_rmdir(group: Option<GroupId>) -> Result<Stage, Refusal>
    ensures judged { result ≡ with_group (option_map (λ g. g.0) group) (λ g. Ok (Stage.Rmdir (record { 0 = g }))) }
    ensures holds { IfOk result (λ stage. holds stage ≡ false) }
{
    Ok(Stage::Rmdir(group.ok_or(Refusal::NoEntry)?))
}

fn judge_protection(
    guard: Guard,
    target: Option<GroupId>,
    group: Option<GroupId>,
) -> Result<Stage, Refusal>
    ensures judged { result ≡ with_group (option_map (λ g. g.0) target) (λ t. with_group (option_map (λ g. g.0) group) (λ g. Ok (Stage.Show (Query.Protection guard (record { 0 = t }) (record { 0 = g }))))) }
    ensures holds { IfOk result (λ stage. holds stage ≡ false) }
{
    let target = target.ok_or(Refusal::NoEntry)?;
    let group = group.ok_or(Refusal::NoEntry)?;
    Ok(Stage::Show(Query::Protection {
        guard,
        target,
        group,
    }))
}

fn judge_set(book: &Book, group: Option<GroupId>, name: &str, text: &str) -> Result<Stage, Refusal>
    ensures judged { result ≡ with_group (option_map (λ g. g.0) group) (λ g. with_file g (file_named name.now) (writes_file book.now.state.opening g text.now)) }
    ensures holds { IfOk result (λ stage. holds stage ≡ false) }
{
    write_file(book, group.ok_or(Refusal::NoEntry)?, file_named(name), text)
}

fn write_file(
    book: &Book,
    group: GroupId,
    file: Option<ControlFile>,
    text: &str,
) -> Result<Stage, Refusal>
    ensures judged { result ≡ with_file group.0 file (writes_file book.now.state.opening group.0 text.now) }
    ensures holds { IfOk result (λ stage. holds stage ≡ false) }
{
    match file {
        Some(file) if has_file(group, file) => write_named(book, group, file, text),
        _ => Err(Refusal::NoEntry),
    }
}

fn write_named(book: &Book, group: GroupId, file: ControlFile, text: &str) -> Result<Stage, Refusal>
    ensures judged { result ≡ writes_file book.now.state.opening group.0 text.now file }
    ensures holds { IfOk result (λ stage. holds stage ≡ false) }
{
    match file {
        ControlFile::Current | ControlFile::Events | ControlFile::EventsLocal | ControlFile::Stat =>
            Err(Refusal::Invalid),
        ControlFile::Max => match parse_amount(book.page_size(), text) {
            Some(max) => Ok(Stage::SetMax { group, max }),
            None => Err(Refusal::Invalid),
        },
        ControlFile::Guard(guard) => match parse_amount(book.page_size(), text) {
            Some(amount) => Ok(Stage::SetGuard {
                group,
                guard,
                amount,
            }),
            None => Err(Refusal::Invalid),
        },
        ControlFile::OomGroup => match parse_flag(book.placement(), text) {
            Some(flag) => Ok(Stage::SetOomGroup { group, flag }),
            None => Err(Refusal::Invalid),
        },
        ControlFile::Reclaim => match parse_amount(book.page_size(), text) {
            Some(Amount::Pages(left)) => Ok(Stage::Reclaim { group, left }),
            // `max` is not a number of pages.
            Some(Amount::Max) | None => Err(Refusal::Invalid),
        },
    }
}

fn judge_cat(group: Option<GroupId>, name: &str) -> Result<Stage, Refusal>
    ensures judged { result ≡ with_group (option_map (λ g. g.0) group) (λ g. with_file g (file_named name.now) (reads_file g)) }
    ensures holds { IfOk result (λ stage. holds stage ≡ false) }
{
    read_file(group.ok_or(Refusal::NoEntry)?, file_named(name))
}

fn read_file(group: GroupId, file: Option<ControlFile>) -> Result<Stage, Refusal>
    ensures judged { result ≡ with_file group.0 file (reads_file group.0) }
    ensures holds { IfOk result (λ stage. holds stage ≡ false) }
{
    match file {
        Some(file) if has_file(group, file) => read_named(group, file),
        _ => Err(Refusal::NoEntry),
    }
}

fn read_named(group: GroupId, file: ControlFile) -> Result<Stage, Refusal>
    ensures judged { result ≡ reads_file group.0 file }
    ensures holds { IfOk result (λ stage. holds stage ≡ false) }
{
    match file {
        ControlFile::Current => Ok(Stage::Show(Query::Current(group))),
        ControlFile::Max => Ok(Stage::Show(Query::Max(group))),
        ControlFile::Guard(guard) => Ok(Stage::Show(Query::Guard(guard, group))),
        ControlFile::OomGroup => Ok(Stage::Show(Query::OomGroup(group))),
        ControlFile::Events => Ok(Stage::Show(Query::Events(group))),
        ControlFile::EventsLocal => Ok(Stage::Show(Query::EventsLocal(group))),
        ControlFile::Stat => Ok(Stage::Show(Query::Stat(group))),
        ControlFile::Reclaim => Err(Refusal::Invalid),
    }
}
