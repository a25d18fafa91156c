//! A caller of `driver`: a file on a device that has its bytes before the run, and after it.

use block_store::{BlockDevice, MemDevice};
use driver::run;
use machine::bytes::PAGE_BYTES;
use machine::command::{Actor, Answer, Command, Reply, Step};
use machine::config::{Config, File, FileList, Placement, Watermarks};
use machine::event::{Op, Place};
use machine::page_size::PageSize;
use machine::text::Text;
use std::alloc::AllocError;
use std::process::Abort;
use std::test::Fail;

/// Two frames, one swap block, and a file of two pages, whose homes are blocks 1 and 2.
pub fn machine<R: AllocGlobal>(rt: &R) -> Result<Config, AllocError> {
    let mut files = FileList::new(rt.alloc());
    let name = text(rt, "log")?;
    files.push(File { name, pages: 2 })?;
    Ok(Config {
        frames: 2,
        swap: 1,
        files,
        watermarks: Watermarks { low: 0, high: 0 },
        trace: 100,
        turns: 1000,
        recursive: false,
        placement: Placement::Own,
        page_size: PageSize::of_4k(),
    })
}

fn text<R: AllocGlobal>(rt: &R, word: &str) -> Result<Text, AllocError> {
    let string = String::from_str(rt.alloc(), word)?;
    Ok(Text::new(string))
}

/// A command of this actor, carried out to its end.
fn add(steps: &mut Vec<Step>, actor: Actor, command: Command) -> Result<(), AllocError> {
    steps.push(Step::Begin(actor, command))?;
    steps.push(Step::Finish(actor))?;
    Ok(())
}

/// Task 1 of the root begins.
pub fn begin<R: AllocGlobal>(rt: &R, steps: &mut Vec<Step>) -> Result<(), AllocError> {
    let path = text(rt, "/")?;
    add(steps, Actor::Shell, Command::Task { task: 1, path })
}

/// It accesses byte 5 of the file's second page.
pub fn reach(steps: &mut Vec<Step>, op: Op) -> Result<(), AllocError> {
    let place = Place::File {
        file: 0,
        page: 1,
        offset: 5,
    };
    add(steps, Actor::Task(1), Command::Access { place, op })
}

/// The shell reclaims a page from the root.
fn reclaim<R: AllocGlobal>(rt: &R, steps: &mut Vec<Step>) -> Result<(), AllocError> {
    let path = text(rt, "/")?;
    let file = text(rt, "memory.reclaim")?;
    let amount = text(rt, "4096")?;
    let command = Command::Set {
        path,
        file,
        text: amount,
    };
    add(steps, Actor::Shell, command)
}

/// The device. Its last block has a 9 at that byte.
fn device<R: Abort + AllocGlobal>(rt: &R) -> Result<MemDevice, AllocError> {
    let mut device = MemDevice::new(rt.alloc(), 3, &[], &[])?;
    let mut bytes = [0; PAGE_BYTES];
    bytes[5] = 9;
    assert!(rt; device.blocks() == 3 && device.write(2, &bytes).is_ok());
    Ok(device)
}

/// That byte of the device's last block.
fn stored<R: Abort>(rt: &R, device: &mut MemDevice) -> u8 {
    let mut bytes = [0; PAGE_BYTES];
    assert!(rt; device.blocks() == 3 && device.read(2, &mut bytes).is_ok());
    bytes[5]
}

pub fn is_byte(reply: Option<&Reply>, byte: u8) -> bool {
    match reply {
        Some(
            Reply {
                actor: _,
                answer: Answer::Byte(read),
            },
        ) => *read == byte,
        _ => false,
    }
}

#[test]
fn a_file_has_what_its_device_had(rt: HostRuntime) -> Result<(), Fail> {
    let mut device = device(&rt)?;
    let mut steps = Vec::new(rt.alloc());
    begin(&rt, &mut steps)?;
    reach(&mut steps, Op::Read)?;
    let config = machine(&rt)?;
    let Ok(answers) = run(rt.alloc(), config, &mut device, &steps) else {
        panic!(rt; "no answers")
    };
    assert!(rt; is_byte(answers.get(1), 9));
    Ok(())
}

#[test]
fn a_device_has_what_was_written_home(rt: HostRuntime) -> Result<(), Fail> {
    let mut device = device(&rt)?;
    let mut steps = Vec::new(rt.alloc());
    begin(&rt, &mut steps)?;
    reach(&mut steps, Op::Write(7))?;
    reach(&mut steps, Op::Read)?;
    let config = machine(&rt)?;
    let Ok(answers) = run(rt.alloc(), config, &mut device, &steps) else {
        panic!(rt; "no answers")
    };
    let before = stored(&rt, &mut device);
    assert!(rt; is_byte(answers.get(2), 7) && before == 9);
    reclaim(&rt, &mut steps)?;
    let config = machine(&rt)?;
    assert!(rt; run(rt.alloc(), config, &mut device, &steps).is_ok());
    assert_eq!(rt; stored(&rt, &mut device), 7);
    Ok(())
}
