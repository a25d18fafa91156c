//! Commands, and why they were refused, with the names of the scenario.

use crate::telling::{add_task, add_true_path};
use drafts::Draft;
use explain::Reason;
use machine::command::Command;
use machine::text::Text;
use scenario_lines::scene::Scene;
use scenario_words::names::Names;
use std::alloc::{AllocError, Global};

fn true_path(alloc: Global, names: &Names, path: &Text) -> Result<Text, AllocError> {
    let mut text = Draft::new(alloc);
    add_true_path(&mut text, names, path.as_str());
    Ok(Text::new(text.finish()?))
}

/// A command with the true path of its group.
pub fn true_command(
    alloc: Global,
    names: &Names,
    command: &Command,
) -> Result<Command, AllocError> {
    Ok(match command {
        Command::Group(path) => Command::Group(true_path(alloc, names, path)?),
        Command::Rmdir(path) => Command::Rmdir(true_path(alloc, names, path)?),
        Command::Task { task, path } => Command::Task {
            task: *task,
            path: true_path(alloc, names, path)?,
        },
        Command::Attach { task, path } => Command::Attach {
            task: *task,
            path: true_path(alloc, names, path)?,
        },
        Command::Set { path, file, text } => Command::Set {
            path: true_path(alloc, names, path)?,
            file: file.copy(alloc)?,
            text: text.copy(alloc)?,
        },
        other => other.copy(alloc)?,
    })
}

/// Adds why a line was refused, with the name of the task that the reason is about.
pub fn add_refusal(text: &mut Draft, scene: &Scene, reason: Reason<'_>) {
    match reason {
        Reason::NoTask(task) => {
            add_task(text, scene, task);
            text.text(" was never started, or has exited");
        }
        Reason::NoLiveTask(task) => {
            add_task(text, scene, task);
            text.text(" was never started, has exited, or was killed");
        }
        reason => write!(text, "{reason}"),
    }
}
