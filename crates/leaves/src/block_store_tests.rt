//! What no clause says: each call once, and a generic caller.

ghost use Rattle.std.specs.Prelude.{◌≡◌, ◌≢◌, ℕ, ◌+◌, ◌<◌, length, IfSome, OnSome, IfNone};
ghost use Rattle.block_store.specs.Device.{bytes_on};

use block_store::{BLOCK_BYTES, BlockDevice, MemDevice, Slots};
use std::test::Fail;

/// What a block holds after it was written, if both calls are good.
fn written_and_read<D: BlockDevice>(
    device: &mut D,
    block: u32,
    bytes: &[u8; BLOCK_BYTES],
) -> Option<[u8; BLOCK_BYTES]>
    requires { block < length (D.disk device.old).contents }
    ensures same { IfSome result (λ found. found ≡ bytes.now) }
    ensures written { OnSome result (bytes_on (D.disk device.new).contents block ≡ bytes.now) }
    ensures blocks { length (D.disk device.new).contents ≡ length (D.disk device.old).contents }
    ensures others { (k : ℕ) → k ≢ block → bytes_on (D.disk device.new).contents k ≡ bytes_on (D.disk device.old).contents k }
    ensures good { OnSome result ((D.disk device.new).failures ≡ (D.disk device.old).failures) }
    ensures fault { IfNone result ((D.disk device.new).failures ≡ (D.disk device.old).failures + 1) }
{
    let mut found = [0; BLOCK_BYTES];
    match device.write(block, bytes) {
        Err(_) => None,
        Ok(()) => match device.read(block, &mut found) {
            Err(_) => None,
            Ok(()) => Some(found),
        },
    }
}

#[test]
fn a_written_block_is_read(rt: HostRuntime) -> Result<(), Fail> {
    let mut device = MemDevice::new(rt.alloc(), 2, &[], &[])?;
    let mut bytes = [0; BLOCK_BYTES];
    bytes[4095] = 7;
    assert_eq!(rt; (device.blocks(), device.fault_limit()), (2, 0));
    let second = written_and_read(&mut device, 1, &bytes);
    let first = written_and_read(&mut device, 0, &[1; BLOCK_BYTES]);
    assert!(rt; second == Some(bytes) && first == Some([1; BLOCK_BYTES]));
    let mut found = [9; BLOCK_BYTES];
    assert!(rt; device.read(1, &mut found).is_ok() && found == bytes);
    assert_eq!(rt; device.failures(), 0);
    Ok(())
}

/// The byte that all of a block's bytes have, if it can be read.
fn read(device: &mut MemDevice, block: u32) -> Option<u8> {
    let mut found = [9; BLOCK_BYTES];
    if block >= device.blocks() || device.read(block, &mut found).is_err() {
        return None;
    }
    let byte = found[0];
    (found == [byte; BLOCK_BYTES]).then_some(byte)
}

/// Writes this byte to all of a block's bytes. Returns it, if the call is good.
fn write(device: &mut MemDevice, block: u32, byte: u8) -> Option<u8> {
    if block >= device.blocks() || device.write(block, &[byte; BLOCK_BYTES]).is_err() {
        return None;
    }
    Some(byte)
}

#[test]
fn the_listed_calls_fail(rt: HostRuntime) -> Result<(), Fail> {
    let mut device = MemDevice::new(rt.alloc(), 1, &[2, 2], &[1])?;
    let found = [
        read(&mut device, 0),
        write(&mut device, 0, 5),
        read(&mut device, 0),
        read(&mut device, 0),
        write(&mut device, 0, 5),
    ];
    assert_eq!(rt; found, [Some(0), None, None, Some(255), Some(5)]);
    assert_eq!(rt; (device.fault_limit(), device.failures()), (3, 2));
    Ok(())
}

#[test]
fn each_slot_is_taken_once(rt: HostRuntime) -> Result<(), Fail> {
    let mut slots = Slots::open(rt.alloc(), 1)?;
    if let Some(slot) = slots.take() {
        let block = slot.block();
        let free = slots.free();
        slots.give(slot);
        assert_eq!(rt; (block, free, slots.free()), (0, 0, 1));
    }
    slots.close();
    Ok(())
}
