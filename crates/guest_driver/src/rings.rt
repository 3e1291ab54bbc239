//! The rings that a driver begins with.

ghost use Rattle.std.specs.Prelude.{◌≡◌, ◌↔◌, IsTrue};
ghost use Rattle.ring_core.specs.State.{first_index};

use ring_core::{FIRST_INDEX, Form, RingIndex};
use std::num::NonZeroU16;

/// The form and the size of all queues, and where they begin.
#[derive(Clone, Copy)]
pub struct Rings {
    /// The form of the queues.
    pub form: Form,
    /// The number of descriptors of each queue.
    pub size: NonZeroU16,
    /// Where the driver makes the first chain of each queue available.
    pub available: RingIndex,
    /// Where the device uses the first chain of each queue.
    pub used: RingIndex,
}

impl Rings {
    /// Returns true if they begin where rings do that no device served before.
    pub fn are_fresh(self) -> bool
        ensures { IsTrue result ↔ ((self.available ≡ first_index) × (self.used ≡ first_index)) }
    {
        self.available == FIRST_INDEX && self.used == FIRST_INDEX
    }
}
