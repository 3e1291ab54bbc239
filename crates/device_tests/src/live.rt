//! The device on memory that its guest writes at any time, beside the one that has its memory to itself.

use crate::guest::{READ, READY, poke, send};
use crate::moves::{Move, events};
use crate::opening::{NUMBERS, Numbers, config_of, start};
use crate::steps::{UNIT, settle};
use foundation::NoMemory;
use guest_mem::{GuestMem, MemFault, WritableMemory};
use live_mem::{Bus, LiveMem};
use std::alloc::Global;
use std::test::Fail;
use world::{Event, LiveWorld, Served, StartFault, World};

/// The pages of memory.
const PAGES: u32 = 16;

/// The bytes of memory.
const SIZE: usize = 65536;

/// The way of a command to its answer.
const WAY: &[Move] = &[
    Move::Fetch(2),
    Move::Enter(2),
    Move::Put(0),
    Move::Take(0),
    Move::Commit(0),
    Move::Answer(0),
    Move::Leave(0),
];

/// A bus to bytes that change: behind a load, the first byte that it gave has its highest bit set.
#[derive(Drop)]
struct RestlessBus<'a> {
    bytes: &'a mut GuestMem,
}

impl<'a> Bus for RestlessBus<'a> {
    fn begin(&mut self) {}

    fn load(&mut self, addr: u64, out: &mut [u8]) {
        let _ = self.bytes.read(addr, out);
        if let Some(first) = out.first() {
            let next = [*first | 0x80];
            let _ = self.bytes.write(addr, &next);
        }
    }

    fn store(&mut self, addr: u64, bytes: &[u8]) {
        let _ = self.bytes.write(addr, bytes);
    }
}

/// Starts a device whose guest made a READ and a TEST UNIT READY available. Where their answers come stand sevens.
fn begun(alloc: Global) -> Result<World, StartFault> {
    let mut world = start(alloc, NUMBERS, &[UNIT])?;
    let _ = send(&mut world, 0, READ)
        && send(&mut world, 1, READY)
        && poke(&mut world, 24640, &[7; 12])
        && poke(&mut world, 25664, &[7; 12]);
    Ok(world)
}

/// Returns a memory of the same bytes.
fn copy(alloc: Global, from: &GuestMem) -> Result<GuestMem, MemFault> {
    let mut to = GuestMem::new(alloc, PAGES)?;
    to.write(0, from.slice(0, SIZE)?)?;
    Ok(to)
}

/// Returns true if both have the same bytes.
fn are_same(one: &GuestMem, other: &GuestMem) -> bool {
    match (one.slice(0, SIZE), other.slice(0, SIZE)) {
        (Ok(here), Ok(there)) => here == there,
        _ => false,
    }
}

/// Returns true if memory has these bytes there.
fn has(memory: &GuestMem, addr: u64, bytes: &[u8]) -> bool {
    match memory.slice(addr, bytes.len()) {
        Ok(here) => here == bytes,
        Err(_) => false,
    }
}

/// Opens a device on a memory. It has no contract, so that what `new` promises is read once.
fn open<M: WritableMemory + Drop>(
    alloc: Global,
    numbers: Numbers,
    memory: M,
) -> Result<LiveWorld<M>, StartFault> {
    match config_of(alloc, numbers, &[UNIT]) {
        Ok(config) => Ok(LiveWorld::new(alloc, &config, memory)?),
        Err(NoMemory) => Err(StartFault::NoMemory),
    }
}

/// Takes events one after another. It has no contract, so that what `run` promises is read once.
fn run_live<M: WritableMemory>(
    world: &mut LiveWorld<M>,
    events: &[Event],
) -> Result<u64, NoMemory> {
    Ok(world.run(events)?)
}

/// Serves all queues in some steps. It has no contract, so that what `serve` promises is read once.
fn serve_live<M: WritableMemory>(world: &mut LiveWorld<M>, most: u64) -> Result<Served, NoMemory> {
    Ok(world.serve(u32::MAX, most)?)
}

/// Settles. It has no contract, so that what `settle` promises is read once.
fn settle_live<M: WritableMemory>(world: &mut LiveWorld<M>) -> Result<u64, NoMemory> {
    Ok(world.settle()?)
}

/// Serves the first command over a bus to these bytes, and then what the other indices became. Returns how many events
/// changed something.
fn settle_over(alloc: Global, bytes: &mut GuestMem) -> Result<u64, Fail> {
    let memory = LiveMem::new(alloc, RestlessBus { bytes }, SIZE as u64)?;
    let mut live = open(alloc, NUMBERS, memory)?;
    Ok(settle_live(&mut live)?)
}

/// Returns true if a device refuses a configuration as bad.
fn is_refused<M: WritableMemory + Drop>(alloc: Global, numbers: Numbers, memory: M) -> bool {
    match open(alloc, numbers, memory) {
        Err(StartFault::BadConfig) => true,
        Ok(_) | Err(StartFault::NoMemory) => false,
    }
}

/// Serves two commands on a memory, one event by event and one in two portions. Returns true if each took its steps.
fn serves_both(alloc: Global, live: &mut LiveWorld<GuestMem>) -> Result<bool, NoMemory> {
    let events = events(alloc, WAY)?;
    if run_live(live, events.as_slice())? != 7 {
        return Ok(false);
    }
    let part = serve_live(live, 3)?;
    let rest = serve_live(live, 9)?;
    Ok(part.steps == 3 && part.more && rest.steps == 4 && !rest.more)
}

/// Opens a device on a memory with the bytes of another's. Returns true if both leave the same bytes.
fn follows(alloc: Global, world: &mut World) -> Result<bool, Fail> {
    let mut live = open(alloc, NUMBERS, copy(alloc, world.memory())?)?;
    Ok(
        serves_both(alloc, &mut live)?
            && settle(world)? == 14
            && are_same(live.memory(), world.memory()),
    )
}

/// Returns true if the available index, a descriptor and the request of the READ were loaded, and are others now.
fn was_changed(bytes: &GuestMem) -> bool {
    has(bytes, 9218, &[0x82, 0])
        && has(bytes, 8192, &[0x80, 0x60])
        && has(bytes, 24576, &[0x81, 0, 0x40])
}

/// Returns true if the READ was answered, with GOOD, by 620 bytes.
fn was_served(bytes: &GuestMem) -> bool {
    has(bytes, 10242, &[1, 0, 0, 0, 0, 0, 0x6c, 2, 0, 0]) && has(bytes, 24640, &[0; 12])
}

/// Returns a memory in which a guest made a READ available.
fn sent(alloc: Global) -> Result<GuestMem, Fail> {
    let world = begun(alloc)?;
    Ok(copy(alloc, world.memory())?)
}

#[test]
fn serves_memory_that_stands_still(rt: HostRuntime) -> Result<(), Fail> {
    let mut world = begun(rt.alloc())?;
    let goes = follows(rt.alloc(), &mut world)?;
    assert!(rt; goes);
    Ok(())
}

#[test]
fn serves_memory_that_changes(rt: HostRuntime) -> Result<(), Fail> {
    let mut bytes = sent(rt.alloc())?;
    let steps = settle_over(rt.alloc(), &mut bytes)?;
    assert!(rt; steps == 10 && was_changed(&bytes) && was_served(&bytes));
    Ok(())
}

#[test]
fn takes_memory_of_any_size(rt: HostRuntime) -> Result<(), Fail> {
    let unnamed = Numbers {
        pages: 0,
        ..NUMBERS
    };
    let mut bytes = GuestMem::new(rt.alloc(), 1)?;
    let bus = RestlessBus { bytes: &mut bytes };
    assert!(rt; !is_refused(rt.alloc(), unnamed, LiveMem::new(rt.alloc(), bus, 1 << 52)?));
    assert!(rt; is_refused(rt.alloc(), NUMBERS, GuestMem::new(rt.alloc(), 1)?));
    Ok(())
}
