//! A virtqueue with its slot.

use guest_mem::Memory;
use phases::Slot;
use std::marker::Model;
use virtqueue::Queue;

/// A virtqueue with what stands in its slot.
#[derive(Drop)]
pub struct Bay {
    pub(crate) queue: Queue,
    pub(crate) slot: Slot,
}

impl Model for Bay {
    ghost use Rattle.device_model.specs.World.{PlainQueue};
    ghost use Rattle.phases.specs.Queue.{with_slot};
    ghost use Rattle.phases.specs.Slots.{slot_of};

    ghost Value = { PlainQueue };

    ghost view = { λ b. with_slot (slot_of b.slot) b.queue };
}

impl Bay {
    ghost use Rattle.std.specs.Prelude.{◌≡◌, ◌+◌, ◌↔◌, ℕ, List, IsTrue, is_some};
    ghost use Rattle.device_model.specs.Parts as plain;
    ghost use Rattle.virtqueue.specs.Looking.{IsIdle};
    ghost use Rattle.phases.specs.Slots.{arrived_unit, is_direct};
    ghost use Rattle.phases.specs.Queue.{with_slot};

    /// Makes a bay of a queue whose slot is empty.
    pub(crate) fn new(queue: Queue) -> Bay
        ensures { result ≡ with_slot plain.Slot.Empty queue }
    {
        Bay {
            queue,
            slot: Slot::Empty,
        }
    }

    /// Returns how many notices its driver wanted. A host calls it to learn whether the driver is owed a notification.
    pub fn notices(&self) -> u64
        ensures { result ≡ self.now.notices }
    {
        self.queue.notices()
    }

    /// Returns true if a chain is ready to be answered.
    #[inline(always)]
    pub(crate) fn is_direct(&self) -> bool
        ensures { result ≡ is_direct self.now.slot }
    {
        self.slot.is_direct()
    }

    /// Returns true if a request arrived.
    pub(crate) fn has_request(&self) -> bool
        ensures { result ≡ is_some (arrived_unit self.now.slot) }
    {
        self.slot.unit().is_some()
    }

    /// Returns true if its slot is empty and a fetch from any memory would find a chain, or a fault. Called in a phase
    /// that wrote nothing yet.
    pub(crate) fn has_chain_in<M: Memory>(&self, memory: &mut M) -> bool
        requires reading { M.is_open memory.old }
        requires room { M.has_room memory.old 1 }
        requires fits { M.extent memory.old ≡ self.now.ring.memory }
        ensures room { (n : ℕ) → M.has_room memory.old (n + 1) → M.has_room memory.new n }
        ensures chain { (m : List ℕ) → M.may_be memory.new m
            → (IsTrue result ↔ ((self.now.slot ≡ plain.Slot.Empty) × (IsIdle self.now.ring m → ⊥))) }
        ensures stays { (m : List ℕ) → M.may_be memory.new m → M.may_be memory.old m }
        ensures stores { M.stored memory.new ≡ M.stored memory.old }
        ensures reading { M.is_open memory.new }
        ensures size { M.extent memory.new ≡ M.extent memory.old }
    {
        self.slot.is_empty() && !self.queue.is_idle_in(memory)
    }
}
