//! The guest: its requests, and what it sees.

use test_guest::{Buffers, Chain, Pokes};
use world::World;

/// The place of its buffers.
const BUFFERS: Buffers = Buffers {
    first: 16384,
    of_queue: 4096,
    of_chain: 1024,
    response: 64,
};

/// TEST UNIT READY, SIMPLE, for LUN 0 of target 0.
pub const READY: Chain = Chain {
    queue: 2,
    number: 0,
    bytes: &[1, 0, 0x40],
    readable: 51,
    writable: 108,
};

/// The same with the attribute ORDERED.
pub const ORDERED: Chain = Chain {
    bytes: &[1, 0, 0x40, 0, 0, 0, 0, 0, 0, 0, 0, 0, 0, 0, 0, 0, 1],
    ..READY
};

/// A request for an absent target.
pub const ABSENT: Chain = Chain {
    bytes: &[1, 7, 0x40],
    ..READY
};

/// READ (10) of block 0.
pub const READ: Chain = Chain {
    bytes: &[
        1, 0, 0x40, 0, 0, 0, 0, 0, 0, 0, 0, 0, 0, 0, 0, 0, 0, 0, 0, 0x28, 0, 0, 0, 0, 0, 0, 0, 1,
    ],
    writable: 620,
    ..READY
};

/// LOGICAL UNIT RESET of LUN 0 of target 0.
pub const UNIT_RESET: Chain = Chain {
    queue: 0,
    number: 0,
    bytes: &[0, 0, 0, 0, 5, 0, 0, 0, 1, 0, 0x40],
    readable: 24,
    writable: 1,
};

/// QUERY TASK of the task 0 of LUN 0 of target 0.
pub const QUERY: Chain = Chain {
    bytes: &[0, 0, 0, 0, 6, 0, 0, 0, 1, 0, 0x40],
    ..UNIT_RESET
};

/// I_T NEXUS RESET of target 0.
pub const NEXUS_RESET: Chain = Chain {
    bytes: &[0, 0, 0, 0, 4, 0, 0, 0, 1, 0, 0x40],
    ..UNIT_RESET
};

/// A function that is none.
pub const REJECTED: Chain = Chain {
    bytes: &[0, 0, 0, 0, 8, 0, 0, 0, 1, 0, 0x40],
    ..UNIT_RESET
};

/// An event buffer.
pub const BUFFER: Chain = Chain {
    queue: 1,
    number: 0,
    bytes: &[],
    readable: 0,
    writable: 16,
};

/// Writes as the guest does. It has no contract, so that what `poke` promises is read once.
pub(crate) fn poke(world: &mut World, addr: u64, bytes: &[u8]) -> bool {
    world.poke(addr, bytes)
}

/// The guest of a device.
#[derive(Drop)]
struct Guest<'a> {
    world: &'a mut World,
}

impl<'a> Pokes for Guest<'a> {
    fn poke(&mut self, addr: u64, bytes: &[u8]) -> bool {
        poke(self.world, addr, bytes)
    }
}

/// Makes a chain available, under this number of its queue.
pub(crate) fn send(world: &mut World, number: u8, chain: Chain) -> bool {
    test_guest::send(&mut Guest { world }, BUFFERS, Chain { number, ..chain })
}

/// Returns true if memory has these bytes there.
pub(crate) fn has(world: &World, addr: u64, bytes: &[u8]) -> bool {
    match world.memory().slice(addr, bytes.len()) {
        Ok(here) => here == bytes,
        Err(_) => false,
    }
}

/// Returns true if the device's answer of a chain begins so.
pub(crate) fn was_answered(world: &World, queue: u16, number: u8, bytes: &[u8]) -> bool {
    has(world, BUFFERS.writable_at(queue, number), bytes)
}
