//! The device that a script is run over.

ghost use Rattle.std.specs.Prelude.{◌≡◌, true, IfOk};
ghost use Rattle.machine.specs.State.{blocks_of, is_config};
ghost use Rattle.block_store.specs.Device.{new_disk};

use crate::fault::Wanted;
use block_store::MemDevice;
use files::blocks_for;
use machine::config::Config;
use std::alloc::Global;

/// A new device with the blocks that the configuration asks for. Exactly the listed calls fail. The error says for
/// how much memory there was no room.
pub fn new_device(
    alloc: Global,
    config: &Config,
    read_faults: &[u64],
    write_faults: &[u64],
) -> Result<MemDevice, Wanted>
    requires { is_config config.now ≡ true }
    ensures { IfOk result (λ d. d ≡ new_disk (blocks_of config.now) read_faults.now write_faults.now) }
{
    let Some(blocks) = blocks_for(config) else {
        unreachable!()
    };
    match MemDevice::new(alloc, blocks, read_faults, write_faults) {
        Ok(device) => Ok(device),
        Err(_) => Err(Wanted::of(config, blocks)),
    }
}

/// What there was no room for, if memory was refused for a machine of this configuration.
pub fn wanted_by(config: &Config) -> Wanted
    requires { is_config config.now ≡ true }
{
    let Some(blocks) = blocks_for(config) else {
        unreachable!()
    };
    Wanted::of(config, blocks)
}
