//! Disks that outlive a device.

use crate::guest::{READY, send};
use crate::opening::{NUMBERS, start_with};
use crate::steps::{UNIT, settle};
use backed_store::Disk;
use block_store::{PagedStore, Store};
use foundation::NoMemory;
use std::alloc::Global;
use test_guest::Chain;
use world::{Event, StartFault, UnitSpec, World};

/// WRITE (10) of block 2, of whose bytes the first is ab and the others are zeros.
const WRITE: Chain = Chain {
    bytes: &[
        1, 0, 0x40, 0, 0, 0, 0, 0, 0, 0, 0, 0, 0, 0, 0, 0, 0, 0, 0, 0x2a, 0, 0, 0, 0, 2, 0, 0, 1,
        0, 0, 0, 0, 0, 0, 0, 0, 0, 0, 0, 0, 0, 0, 0, 0, 0, 0, 0, 0, 0, 0, 0, 0xab,
    ],
    readable: 563,
    ..READY
};

/// The unit with two blocks less.
const SHORTER: UnitSpec = UnitSpec { blocks: 6, ..UNIT };

/// The fate of a disk that was handed from one device to the next.
#[derive(Clone, Copy, PartialEq, Eq)]
pub struct HandedOn {
    /// The number of disks that the first device left, and of blocks of the first of them.
    pub left: (usize, Option<u64>),
    /// True if a device of another capacity refused the disks as bad, and the number of disks that it left then.
    pub refused: (bool, usize),
    /// The number of disks that the second device left to its host once it was open.
    pub taken: usize,
    /// The first byte of block 2 of the second device's unit.
    pub byte: Option<u8>,
}

/// Gives the unit two blocks less. It has no contract, so that what `step` promises is read once.
fn shorten(world: &mut World) -> Result<bool, NoMemory> {
    Ok(world.step(Event::Resize(0, 6))?)
}

/// Ends a device. It has no contract, so that what `close` promises is read once.
fn close(world: World, alloc: Global) -> Result<Vec<Disk>, NoMemory> {
    match world.close(alloc) {
        Ok(disks) => Ok(disks),
        Err(_) => Err(NoMemory),
    }
}

/// Returns the disks of a device of one unit of 8 blocks, over a disk of zeros, after a WRITE and a resize; `None`
/// where it didn't open.
fn written(alloc: Global) -> Result<Option<Vec<Disk>>, NoMemory> {
    let mut disks = Vec::new(alloc);
    if disks.push(Disk::Whole(PagedStore::new(alloc, 8))).is_err() {
        return Err(NoMemory);
    }
    match start_with(alloc, NUMBERS, &[UNIT], &mut disks) {
        Ok(mut world) => {
            let _ = send(&mut world, 0, WRITE);
            settle(&mut world)?;
            shorten(&mut world)?;
            Ok(Some(close(world, alloc)?))
        }
        Err(_) => Ok(None),
    }
}

/// Returns the first byte of block 2 of the unit 0:0.
fn byte_of(alloc: Global, world: &World) -> Result<Option<u8>, NoMemory> {
    let mut block = Vec::new(alloc);
    world.read_blocks(0, 0, 2, 1, &mut block)?;
    match block.get(0) {
        Some(byte) => Ok(Some(*byte)),
        None => Ok(None),
    }
}

/// Hands a disk from a device, which wrote it and whose operator made it shorter, to one that has its old capacity, and
/// then to one that has its new. `None` where a device didn't open that should; `NoMemory` where memory was refused.
pub(crate) fn hand_on(alloc: Global) -> Result<Option<HandedOn>, NoMemory> {
    let Some(mut disks) = written(alloc)? else {
        return Ok(None);
    };
    let blocks = match disks.get(0) {
        Some(disk) => Some(disk.capacity()),
        None => None,
    };
    let left = (disks.len(), blocks);
    let is_refused = match start_with(alloc, NUMBERS, &[UNIT], &mut disks) {
        Err(StartFault::BadConfig) => true,
        Ok(_) | Err(StartFault::NoMemory) => false,
    };
    let refused = (is_refused, disks.len());
    match start_with(alloc, NUMBERS, &[SHORTER], &mut disks) {
        Ok(world) => Ok(Some(HandedOn {
            left,
            refused,
            taken: disks.len(),
            byte: byte_of(alloc, &world)?,
        })),
        Err(_) => Ok(None),
    }
}
