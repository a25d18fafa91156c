//! A caller of `thread_runs::run_over`: a run over a device of its own, which brings other bytes than it was given.

ghost use Rattle.std.specs.List.Sorted.{IsStrictlyIncreasing};
ghost use Rattle.scripts.specs.Work.{numbers_of, shown_rows};

use block_store::{BLOCK_BYTES, Fault, Locked, MemDevice, SharedDevice};
use files::blocks_for;
use live::Unnamed;
use scripts::{Mode, Script, each_actor_has_its_row, read};
use std::alloc::Global;
use std::marker::Brand;
use std::str;
use std::sync::Wait;
use std::test::Fail;
use std::thread::Threads;
use thread_runs::{run_over, status_of_run};

/// Adds one to each byte that is read.
#[derive(Drop)]
struct AddsOne<D: SharedDevice + Drop> {
    device: D,
}

impl<D: SharedDevice + Drop> SharedDevice for AddsOne<D> {
    ghost extent = { λ d. D.extent d.device };

    fn blocks(&self) -> u32 {
        self.device.blocks()
    }

    fn read<R: Wait>(&self, rt: &R, block: u32, to: &mut [u8; BLOCK_BYTES]) -> Result<(), Fault> {
        self.device.read(rt, block, to)?;
        for byte in to.iter_mut() {
            *byte = byte.wrapping_add(1);
        }
        Ok(())
    }

    fn write<R: Wait>(&self, rt: &R, block: u32, from: &[u8; BLOCK_BYTES]) -> Result<(), Fault> {
        self.device.write(rt, block, from)
    }
}

/// What a run of the script over such a device prints, what is said beside it, and its status.
fn run_new<R: Threads + Wait + Sync>(
    rt: &R,
    alloc: Global,
    script: Script,
) -> Result<(Vec<u8>, Vec<u8>, u8), Fail>
    requires rows { IsStrictlyIncreasing (numbers_of (shown_rows script.work.items)) }
{
    let blocks = blocks_for(&script.config).ok_or("it has too many blocks")?;
    let device = AddsOne {
        device: Locked::new(MemDevice::new(alloc, blocks, &[], &[])?),
    };
    let unnamed = Unnamed::new(alloc)?;
    let mut out = Vec::new(alloc);
    let mut err = Vec::new(alloc);
    let ran = run_over::<Brand, AddsOne<Locked<MemDevice>>, R, Vec<u8>>(
        rt, alloc, script, device, unnamed, &mut out,
    );
    let status = status_of_run(ran, &mut err);
    Ok((out, err, status))
}

/// The same of a text.
fn run_text<R: Threads + Wait + Sync>(
    rt: &R,
    alloc: Global,
    text: &[u8],
) -> Result<(Vec<u8>, Vec<u8>, u8), Fail> {
    each_actor_has_its_row();
    match read(alloc, text, Mode::Run) {
        Ok(script) => run_new(rt, alloc, script),
        Err(_) => Err("it has a fault")?,
    }
}

#[test]
fn the_first_wrong_entry_is_named(rt: HostRuntime) -> Result<(), Fail> {
    // The read brings 6 in place of 5. Its arrival is entry 7: before it come the group, the task, the write, the page's
    // eviction, the end of that, and the access that begins the read.
    let text =
        b"swap 1\ngroup /a\ntask 1 /a\n1 write 0 0 5\nset / memory.reclaim 4096\n1 read 0 0\n";
    let (out, err, status) = run_text(&rt, rt.alloc(), text)?;
    assert_eq!(rt;
        (str::from_utf8(&out), err.len(), status),
        (Ok("1 6\naudit failed at entry 7\n"), 0, 1)
    );
    Ok(())
}
