//! Copies of what an opening or a step takes.

ghost use Rattle.std.specs.Prelude.{◌≡◌, IfOk};

use machine::command::Step;
use machine::config::{Config, File, FileList};
use std::alloc::{AllocError, Global};

/// A copy of the step.
pub fn copy_of_step(alloc: Global, step: &Step) -> Result<Step, AllocError>
    ensures { IfOk result (λ copy. copy ≡ step.now) }
{
    match step {
        Step::Begin(actor, command) => Ok(Step::Begin(*actor, command.copy(alloc)?)),
        Step::Advance(actor) => Ok(Step::Advance(*actor)),
        Step::Finish(actor) => Ok(Step::Finish(*actor)),
    }
}

/// A copy of the files.
fn copy_of_files(alloc: Global, files: &FileList) -> Result<FileList, AllocError>
    ensures { IfOk result (λ copy. copy ≡ files.now) }
{
    let mut copy = FileList::new(alloc);
    for file in files.as_slice() {
        copy.push(File {
            name: file.name.copy(alloc)?,
            pages: file.pages,
        })?;
    }
    Ok(copy)
}

/// A copy of the configuration.
pub fn copy_of_config(alloc: Global, config: &Config) -> Result<Config, AllocError>
    ensures { IfOk result (λ copy. copy ≡ config.now) }
{
    Ok(Config {
        frames: config.frames,
        swap: config.swap,
        files: copy_of_files(alloc, &config.files)?,
        watermarks: config.watermarks,
        trace: config.trace,
        turns: config.turns,
        recursive: config.recursive,
        placement: config.placement,
        page_size: config.page_size,
    })
}
