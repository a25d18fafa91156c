//! A caller of `driver`: a run that is carried out a step at a time. Between two steps it looks at what the root group
//! is charged for.

ghost use Rattle.std.specs.Prelude.{IfSome};
ghost use Rattle.driver.specs.Traced.{GivesTrace};

use crate::cached::{begin, is_byte, machine, reach};
use block_store::{BlockDevice, MemDevice};
use driver::{Sink, Stepper};
use machine::command::{Actor, Step};
use machine::config::Config;
use machine::event::Op;
use std::alloc::{AllocError, Global};
use std::test::Fail;
use trace::Trace;

/// All of these steps, one at a time. It gives what `driver::run_into` gives.
fn run_by_steps<S: Sink>(
    alloc: Global,
    config: Config,
    device: MemDevice,
    steps: &[Step],
    sink: &mut S,
) -> Option<(Trace, MemDevice)>
    ensures { IfSome result (λ closed. GivesTrace S.took S.saw config device steps.now sink.old sink.new closed.1 closed.0.entries) }
{
    let Ok(mut run) = Stepper::open(alloc, config, device) else {
        return None;
    };
    for at in 0..steps.len() {
        match run.step(at, &steps[at], sink) {
            Ok(()) => {}
            Err(_) => {
                let _ = run.close();
                return None;
            }
        }
    }
    Some(run.close())
}

/// The steps of a task that begins, and then accesses the file so.
fn accessing<R: AllocGlobal>(rt: &R, ops: &[Op]) -> Result<Vec<Step>, AllocError> {
    let mut steps = Vec::new(rt.alloc());
    begin(rt, &mut steps)?;
    for op in ops {
        reach(&mut steps, *op)?;
    }
    Ok(steps)
}

#[test]
fn a_run_by_steps_answers_as_one_of_all_steps(rt: HostRuntime) -> Result<(), Fail> {
    let device = MemDevice::new(rt.alloc(), 3, &[], &[])?;
    let steps = accessing(&rt, &[Op::Write(7), Op::Read])?;
    let mut answers = Vec::new(rt.alloc());
    let config = machine(&rt)?;
    let ran = run_by_steps(rt.alloc(), config, device, &steps, &mut answers);
    assert!(rt; matches!(ran, Some(_)) && answers.len() == 3 && is_byte(answers.get(2), 7));
    Ok(())
}

// A task is started. Then it reads a page of a file: the root is charged for nothing before the command's turns, and for
// a page after them.
#[test]
fn a_group_is_looked_at_between_two_steps(rt: HostRuntime) -> Result<(), Fail> {
    let device = MemDevice::new(rt.alloc(), 3, &[], &[])?;
    let steps = accessing(&rt, &[Op::Read])?;
    assert!(rt; steps.len() == 4);
    let mut answers = Vec::new(rt.alloc());
    let config = machine(&rt)?;
    let Ok(mut run) = Stepper::open(rt.alloc(), config, device) else {
        panic!(rt; "not opened")
    };
    let first = run.step(0, &steps[0], &mut answers).is_ok();
    let begun = (run.is_under_way(Actor::Shell), answers.len());
    let second = run.step(1, &steps[1], &mut answers).is_ok();
    let ended = (run.is_under_way(Actor::Shell), answers.len());
    assert_eq!(rt; (begun, ended), ((true, 0), (false, 1)));
    let third = run.step(2, &steps[2], &mut answers).is_ok();
    let before = run.book().look("/").map(|look| look.usage);
    let fourth = run.step(3, &steps[3], &mut answers).is_ok();
    let after = run.book().look("/").map(|look| look.usage);
    assert_eq!(rt; (before, after, answers.len()), (Some(0), Some(1), 2));
    let (trace, device) = run.close();
    assert!(rt; first && second && third && fourth && trace.len() > 0 && device.blocks() == 3);
    Ok(())
}
