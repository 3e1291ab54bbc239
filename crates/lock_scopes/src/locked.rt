//! The parts of a device that threads share, each under a lock.

ghost use Rattle.std.specs.Prelude.{◌≡◌, ◌+◌, length};
ghost use Rattle.lock_scopes.specs.Lending.{IsLent, IsQueue, IsMemory};

use crate::counted::CountedUnit;
use crate::holding::hold;
use crate::kept_queue::KeptQueue;
use crate::lend::{QueueLender, UnitLender};
use crate::part::Part;
use crate::weighing::Weighing;
use guest_mem::GuestMem;
use logical_unit::UnitState;
use std::sync::ledger::Ledger;
use std::sync::{Mutex, Wait};
use virtqueue::Queue;

/// The units that threads share, each under a lock of its own. A thread holds it while one phase runs, or several that
/// follow one another, and takes no other meanwhile. No clause says what a lock held at a moment. But whenever it is
/// free, a unit's history is lawful, its blocks and what it has pending are those of that history, its disk isn't backed,
/// it has all Commits that were counted for it, and its acts of the operator weigh what was weighed for it.
#[derive(Drop)]
pub struct LockedUnits<'a, R: Wait, C: Ledger + Weighing, W: Ledger> {
    /// The leave to wait, which a thread needs for a lock.
    pub rt: &'a R,
    /// The units by their indices in the inventory.
    pub units: &'a [Mutex<CountedUnit<C, W>>],
    /// The part in which the receipts of the seat that calls are counted.
    pub seat: &'a mut Part<W>,
}

impl<'a, R: Wait, C: Ledger + Weighing, W: Ledger> UnitLender for LockedUnits<'a, R, C, W> {
    ghost lends_unit = { λ s at u. IsLent u };

    ghost keeps_unit = { λ s at v t. IsLent v × (t.units ≡ s.units) };

    ghost counts = { λ s n t. (t.seat.ghost_name ≡ s.seat.ghost_name)
        × (t.seat.now.share.amount ≡ s.seat.now.share.amount + n) };

    ghost units = { λ s. length s.units.now };

    fn unit<T, X, Y, F: FnOnce(&mut UnitState, &mut X, &mut Y) -> (T, u64)>(
        &mut self,
        at: usize,
        one: &mut X,
        other: &mut Y,
        phase: F,
    ) -> (T, u64) {
        let mut held = hold(self.rt, &self.units[at]);
        let unit = &mut *held;
        unit.run(&mut *self.seat, one, other, phase)
    }
}

/// The queues and the memory that threads share, each under a lock of its own, which is held while one phase runs, or
/// two. A queue's lock has the memory's inside it, and the memory's is also held alone; a unit's is held with neither.
/// So no thread waits for a lock that waits for one of its own. No clause says what a lock held at a moment. But
/// whenever it is free, a queue's log is lawful, the notes Direct that it has are of requests whose fetch decided their
/// answer, and the memory has at most 2^28 bytes.
#[derive(Drop)]
pub struct LockedQueues<'a, R: Wait> {
    /// The leave to wait, which a thread needs for a lock.
    pub rt: &'a R,
    /// The queues by their numbers.
    pub queues: &'a [Mutex<KeptQueue>],
    /// The memory.
    pub memory: &'a Mutex<GuestMem>,
}

impl<'a, R: Wait> QueueLender for LockedQueues<'a, R> {
    ghost lends_queue = { λ s at q m. IsQueue q };

    ghost keeps_queue = { λ s at r n t. IsQueue r × (t ≡ s) };

    ghost lends_memory = { λ s m. IsMemory m };

    ghost keeps_memory = { λ s n t. IsMemory n × (t ≡ s) };

    ghost queues = { λ s. length s.queues.now };

    fn queue<T, X, Y, F: FnOnce(&mut Queue, &mut GuestMem, &mut X, &mut Y) -> T>(
        &mut self,
        at: usize,
        one: &mut X,
        other: &mut Y,
        phase: F,
    ) -> T {
        let mut held = hold(self.rt, &self.queues[at]);
        let mut held_memory = hold(self.rt, self.memory);
        let queue = &mut *held;
        let memory = &mut *held_memory;
        queue.run(memory, one, other, phase)
    }

    fn memory<T, F: FnOnce(&mut GuestMem, &mut [u8]) -> T>(
        &mut self,
        room: &mut [u8],
        phase: F,
    ) -> T {
        let mut held = hold(self.rt, self.memory);
        let memory = &mut *held;
        let _before = memory.size();
        let answer = phase(memory, room);
        let _behind = memory.size();
        answer
    }
}
