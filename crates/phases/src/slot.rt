//! The slot of a queue, between two steps.

use crate::direct_chain::DirectChain;
use task_set::Arrival;

/// The slot of a queue, between two steps. The thread that fetches from the queue keeps it.
#[derive(Drop)]
pub enum Slot {
    /// Nothing.
    Empty,
    /// A request for a unit.
    Arrived(Arrival),
    /// A chain that is to be answered.
    Direct(DirectChain),
}

impl Slot {
    ghost use Rattle.std.specs.Prelude.{IsTrue, ◌↔◌, ◌≡◌};
    ghost use Rattle.device_model.specs.Parts as plain;
    ghost use Rattle.phases.specs.Slots.{slot_of, arrived_unit, is_direct};

    /// Returns true if nothing stands there.
    pub fn is_empty(&self) -> bool
        ensures { IsTrue result ↔ (slot_of self.now ≡ plain.Slot.Empty) }
    {
        match self {
            Slot::Empty => true,
            Slot::Arrived(_) | Slot::Direct(_) => false,
        }
    }

    /// Returns true if a chain stands there that is to be answered.
    pub fn is_direct(&self) -> bool
        ensures { result ≡ is_direct (slot_of self.now) }
    {
        match self {
            Slot::Direct(_) => true,
            Slot::Empty | Slot::Arrived(_) => false,
        }
    }

    /// Returns the index in the inventory of the unit that a request came for; `None` where none arrived.
    pub fn unit(&self) -> Option<usize>
        ensures { result ≡ arrived_unit (slot_of self.now) }
    {
        match self {
            Slot::Arrived(arrival) => Some(arrival.unit()),
            Slot::Empty | Slot::Direct(_) => None,
        }
    }
}
