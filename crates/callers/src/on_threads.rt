//! A caller of `scripts`: what a script asks of threads.

ghost use Rattle.std.specs.Prelude.{◌≡◌, [], IfSome};
ghost use Rattle.std.specs.Str.Lines.{lines};
ghost use Rattle.scripts.specs.Script.{items_of};
ghost use Rattle.scripts.specs.Work.{setup_of, worked, work_of, shown_rows};

use machine::command::{Actor, Command};
use scripts::{Mode, Script, read};
use std::alloc::{AllocError, Global};
use std::test::Fail;

/// What a script asks of threads, if it can be run on them.
fn for_threads(alloc: Global, script: &[u8]) -> Option<Script>
    ensures setup { IfSome result (λ s. s.setup.items ≡ setup_of (items_of (lines script.now))) }
    ensures work { IfSome result (λ s. shown_rows s.work.items ≡ work_of (worked (items_of (lines script.now)))) }
    ensures no_steps { IfSome result (λ s. s.schedule.steps ≡ []) }
{
    match read(alloc, script, Mode::Run) {
        Ok(script) => Some(script),
        Err(_) => None,
    }
}

fn has_group_and_task(setup: &[(Actor, Command)]) -> bool {
    match setup {
        [
            (Actor::Shell, Command::Group(path)),
            (
                Actor::Shell,
                Command::Task {
                    task: 2,
                    path: home,
                },
            ),
        ] => { path.as_str() == "/a" && home.as_str() == "/a" }
        _ => false,
    }
}

fn has_rows_by_number(work: &[(Actor, Vec<Command>)]) -> bool {
    match work {
        [
            (Actor::Shell, shell),
            (Actor::Task(1), one),
            (Actor::Task(2), two),
        ] => {
            matches!(shell.as_slice(), [Command::Cat { .. }, Command::Rmdir(_)])
                && matches!(one.as_slice(), [Command::Exit])
                && matches!(
                    two.as_slice(),
                    [Command::Free { page: 1 }, Command::Free { page: 0 }]
                )
        }
        _ => false,
    }
}

#[test]
fn each_actor_has_a_row_of_what_stands_behind_go(rt: HostRuntime) -> Result<(), Fail> {
    let text =
        b"swap 4\ngroup /a\ntask 2 /a\ngo\n2 free 1\ncat /a memory.max\n1 exit\ngo\n2 free 0\nrmdir /a\n";
    let script = for_threads(rt.alloc(), text).ok_or("refused")?;
    let has_rows = has_group_and_task(&script.setup) && has_rows_by_number(&script.work);
    assert!(rt; has_rows && script.config.swap == 4 && script.schedule.lines().is_empty());
    Ok(())
}

#[test]
fn without_go_all_is_setup(rt: HostRuntime) -> Result<(), Fail> {
    let script = for_threads(rt.alloc(), b"group /a\ntask 2 /a\n").ok_or("refused")?;
    assert!(rt; has_group_and_task(&script.setup) && script.work.is_empty());
    let all = read(rt.alloc(), b"group /a\ngo\ntask 2 /a\n", Mode::Schedule)?;
    assert!(rt; all.setup.is_empty() && all.work.is_empty() && all.schedule.len() == 4);
    Ok(())
}

/// A script in which each of `tasks` tasks frees `pages` pages. Each page is freed by one task after the other, the
/// greatest number first.
fn of_many_tasks(alloc: Global, tasks: u32, pages: u32) -> Result<String, AllocError> {
    let mut text = String::from_str(alloc, "go\n")?;
    for page in 0..pages {
        for task in (0..tasks).rev() {
            writeln!(text, "{task} free {page}")?;
        }
    }
    Ok(text)
}

/// Whether these are the commands of this task: it frees 20 pages, in their order.
fn is_row(actor: Actor, commands: &[Command], number: usize) -> bool {
    for (at, command) in commands.iter().enumerate() {
        if !matches!(command, Command::Free { page } if *page as usize == at) {
            return false;
        }
    }
    commands.len() == 20 && matches!(actor, Actor::Task(task) if task as usize == number)
}

#[test]
fn rows_rise_by_number(rt: HostRuntime) -> Result<(), Fail> {
    let text = of_many_tasks(rt.alloc(), 1_000, 20)?;
    let script = for_threads(rt.alloc(), text.as_bytes()).ok_or("refused")?;
    assert_eq!(rt; script.work.len(), 1_000);
    for (number, (actor, commands)) in script.work.iter().enumerate() {
        assert!(rt; is_row(*actor, commands, number), "{number}");
    }
    Ok(())
}
