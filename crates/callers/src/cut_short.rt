//! A caller of `driver`: a sink that takes no answer. The device is asked for nothing after the first answer.

ghost use Rattle.std.specs.Prelude.{◌≡◌, []};

use crate::cached::{begin, machine, reach};
use block_store::{BlockDevice, MemDevice};
use book::Book;
use driver::{Closed, FailedCall, Reply, Sink, Steps, Stop, run_into};
use machine::bytes::PAGE_BYTES;
use machine::event::{Cause, Op};
use std::test::Fail;

/// It is closed from the beginning.
#[derive(Drop)]
struct Deaf;

impl Sink for Deaf {
    ghost use Rattle.std.proofs.Common.{List, ◌++◌, refl, ap, ◌∙◌};
    ghost use Rattle.machine.specs.declared.command.Reply.{Reply as Answer_of};

    ghost took = { λ a b xs. xs ≡ [] };

    ghost failed = { λ a b begun. Unit {0} };

    ghost saw = { λ a b pasts. Unit {0} };

    fn take(&mut self, _step: usize, _reply: Reply) -> Result<(), Closed> {
        Err(Closed)
    }

    fn look(&mut self, _step: usize, _book: &Book) {}

    fn see_relief(&mut self, _step: usize, _book: &Book, _cause: Cause) {}

    fn see_failure(&mut self, _step: usize, _book: &Book, _call: FailedCall) {}

    ghost nothing = { λ s. refl };

    ghost more = { λ a b c xs ys first second. ap (λ (rs : List Answer_of). rs ++ ys) first ∙ second };

    ghost stays = { λ s. tt };

    ghost unseen = { λ s. tt };

    ghost further = { λ a b c ps qs first second. tt };
}

// A task is started, which is answered. Then it reads a page of a file. The device's first read fails.
#[test]
fn nothing_is_done_for_an_answer_that_nobody_takes(rt: HostRuntime) -> Result<(), Fail> {
    let mut device = MemDevice::new(rt.alloc(), 3, &[1], &[])?;
    let mut steps = Vec::new(rt.alloc());
    begin(&rt, &mut steps)?;
    reach(&mut steps, Op::Read)?;
    let config = machine(&rt)?;
    let ran = run_into(
        rt.alloc(),
        config,
        &mut device,
        Steps::List(&steps),
        &mut Deaf,
    );
    assert!(rt; matches!(ran, Err(Stop::Closed)));
    // No call failed, and the next read is the first.
    let mut bytes = [0; PAGE_BYTES];
    assert!(rt; device.failures() == 0 && device.blocks() == 3);
    assert!(rt; device.read(2, &mut bytes).is_err());
    Ok(())
}
