//! Devices, by the numbers of their configuration.

use backed_store::Disk;
use foundation::NoMemory;
use ring_core::Layout;
use std::alloc::Global;
use test_guest::layout;
use world::{Config, StartFault, UnitSpec, VERSION_1, World};

/// The control queue, the event queue and two request queues.
const QUEUES: u16 = 4;

/// The numbers of a configuration.
#[derive(Clone, Copy)]
pub struct Numbers {
    pub pages: u32,
    pub features: u64,
    pub workers: u16,
    pub handoff: u16,
    pub slots: u16,
}

/// Numbers that are taken, of split queues.
pub const NUMBERS: Numbers = Numbers {
    pages: 16,
    features: VERSION_1,
    workers: 2,
    handoff: 8,
    slots: 8,
};

/// Returns queues of so many descriptors.
fn layouts(alloc: Global, slots: u16) -> Result<Vec<Layout>, NoMemory> {
    let mut queues = Vec::new(alloc);
    for number in 0..QUEUES {
        let layout = Layout {
            size: slots,
            ..layout(number)
        };
        if queues.push(layout).is_err() {
            return Err(NoMemory);
        }
    }
    Ok(queues)
}

/// Returns the configuration of a device with four queues.
pub(crate) fn config_of(
    alloc: Global,
    numbers: Numbers,
    units: &[UnitSpec],
) -> Result<Config, NoMemory> {
    let queues = layouts(alloc, numbers.slots)?;
    let Ok(units) = Vec::from_slice(alloc, units) else {
        return Err(NoMemory);
    };
    Ok(Config {
        pages: numbers.pages,
        features: numbers.features,
        queues,
        workers: numbers.workers,
        handoff: numbers.handoff,
        units,
    })
}

/// Starts a device with four queues. It has no contract, so that what `new` promises is read once.
pub(crate) fn start(
    alloc: Global,
    numbers: Numbers,
    units: &[UnitSpec],
) -> Result<World, StartFault> {
    match config_of(alloc, numbers, units) {
        Ok(config) => Ok(World::new(alloc, &config)?),
        Err(NoMemory) => Err(StartFault::NoMemory),
    }
}

/// Starts a device with four queues over disks. It has no contract, so that what `new_with` promises is read once.
pub(crate) fn start_with(
    alloc: Global,
    numbers: Numbers,
    units: &[UnitSpec],
    disks: &mut Vec<Disk>,
) -> Result<World, StartFault> {
    match config_of(alloc, numbers, units) {
        Ok(config) => Ok(World::new_with(alloc, &config, disks)?),
        Err(NoMemory) => Err(StartFault::NoMemory),
    }
}
