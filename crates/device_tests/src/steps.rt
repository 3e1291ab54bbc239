//! Steps of a driver and its device, one at a time, each with what must come of it.

use crate::guest::{has, poke, send, was_answered};
use crate::moves::{Move, run, step, step_all};
use crate::opening::{Numbers, start};
use foundation::NoMemory;
use std::alloc::Global;
use test_guest::Chain;
use world::{Identity, Profile, StartFault, StepKind, UnitSpec, World};

/// The unit 0:0 of 8 blocks, with nothing pending.
pub const UNIT: UnitSpec = UnitSpec {
    target: 0,
    lun: 0,
    blocks: 8,
    calm: true,
    profile: Profile::Narrow,
    identity: Identity::PLAIN,
};

/// An act of the driver or of the device, and what comes of it.
#[derive(Clone, Copy)]
pub enum Step {
    /// The driver writes bytes at an address: whether they lie in memory.
    Poke(u64, &'static [u8], bool),
    /// The driver makes the chain of a number available.
    Send(u8, Chain),
    /// One event, and whether it changes something.
    Event(Move, bool),
    /// Takes these events one after another, of which so many change something.
    Run(&'static [Move], u64),
    /// Takes each of the device's events on this queue and this seat, and the operator's on the unit at this index.
    /// None changes something.
    Idle(u16, u16, u16),
    /// The device settles in so many steps.
    Settle(u64),
    /// The device serves the queues of these bits, at most so many steps: how many it takes, and whether more are left.
    Serve(u32, u64, u64, bool),
    /// Guest memory has these bytes at an address.
    Has(u64, &'static [u8]),
    /// The first bytes that the device wrote for a queue's chain of a number.
    Answer(u16, u8, &'static [u8]),
    /// The history of the unit 0:0.
    History(&'static [StepKind]),
    /// The device's status.
    Status(u8),
    /// The number of notices that a queue gave.
    Notices(u16, u64),
    /// A block of a target's LUN 0, and whether it has it.
    Block(u8, u64, bool),
    /// The number of blocks of a target's LUN 0.
    Capacity(u8, Option<u64>),
    /// The index of the unit of a target and a LUN.
    Place(u8, u16, Option<u16>),
}

/// A configuration, whether it is refused as bad, and what is done with its device where it is taken.
#[derive(Clone, Copy)]
pub struct Row {
    pub shows: &'static str,
    pub numbers: Numbers,
    pub units: &'static [UnitSpec],
    pub is_refused: bool,
    pub steps: &'static [Step],
}

/// Returns true if the unit 0:0 has this history.
fn has_history(world: &World, steps: &[StepKind]) -> bool {
    let Some(unit) = world.unit(0, 0) else {
        return false;
    };
    for place in 0..steps.len() {
        if unit.step(place as u64) != Some(steps[place]) {
            return false;
        }
    }
    unit.steps() == steps.len() as u64
}

/// Settles the device, and returns in how many steps. It has no contract, so that what `settle` promises is read once.
pub(crate) fn settle(world: &mut World) -> Result<u64, NoMemory> {
    Ok(world.settle()?)
}

/// Returns true if the device serves some queues in so many steps, and says so whether more are left. It has no
/// contract, so that what `serve` promises is read once.
fn serves(
    world: &mut World,
    queues: u32,
    most: u64,
    steps: u64,
    more: bool,
) -> Result<bool, NoMemory> {
    let served = world.serve(queues, most)?;
    Ok(served.steps == steps && served.more == more)
}

/// Returns true if a target's LUN 0 has a block.
fn has_block(alloc: Global, world: &World, target: u8, lba: u64) -> Result<bool, NoMemory> {
    let mut block = Vec::new(alloc);
    world.read_blocks(target, 0, lba, 1, &mut block)
}

/// Returns true if memory, a unit or a number is as a step says.
fn shows(world: &World, step: Step) -> bool {
    match step {
        Step::Has(addr, bytes) => has(world, addr, bytes),
        Step::Answer(queue, number, bytes) => was_answered(world, queue, number, bytes),
        Step::History(steps) => has_history(world, steps),
        Step::Status(status) => world.status() == status,
        Step::Notices(queue, count) => world.notices(queue) == Some(count),
        Step::Capacity(target, blocks) => world.capacity(target, 0) == blocks,
        Step::Place(target, lun, unit_index) => world.unit_index(target, lun) == unit_index,
        _ => false,
    }
}

/// Returns true if a step goes as its row says.
fn takes(alloc: Global, world: &mut World, named: Step) -> Result<bool, NoMemory> {
    match named {
        Step::Poke(addr, bytes, fits) => Ok(poke(world, addr, bytes) == fits),
        Step::Send(number, chain) => Ok(send(world, number, chain)),
        Step::Event(event, changes) => Ok(step(alloc, world, event)? == changes),
        Step::Run(moves, count) => Ok(run(alloc, world, moves)? == count),
        Step::Idle(queue, seat, unit_index) => Ok(
            step_all(alloc, world, queue, seat, unit_index)? == 0,
        ),
        Step::Settle(count) => Ok(settle(world)? == count),
        Step::Serve(queues, most, steps, more) => serves(world, queues, most, steps, more),
        Step::Block(target, lba, is_there) => Ok(has_block(alloc, world, target, lba)? == is_there),
        _ => Ok(shows(world, named)),
    }
}

/// Returns the number of the first step that doesn't go as it says, from 0.
fn first_wrong_step(
    alloc: Global,
    world: &mut World,
    steps: &[Step],
) -> Result<Option<usize>, NoMemory> {
    for number in 0..steps.len() {
        if !takes(alloc, world, steps[number])? {
            return Ok(Some(number));
        }
    }
    Ok(None)
}

/// Plays a row on a device of its own. The number of its first step that doesn't go as it says, from 0, which is also
/// where its configuration is refused, or taken, and should not be. `NoMemory` where memory is refused on the way.
pub(crate) fn first_wrong(alloc: Global, row: &Row) -> Result<Option<usize>, NoMemory> {
    match start(alloc, row.numbers, row.units) {
        Ok(mut world) => {
            if row.is_refused {
                return Ok(Some(0));
            }
            first_wrong_step(alloc, &mut world, row.steps)
        }
        Err(StartFault::BadConfig) => Ok(if row.is_refused { None } else { Some(0) }),
        Err(StartFault::NoMemory) => Err(NoMemory),
    }
}
