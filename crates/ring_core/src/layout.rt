//! The place of a queue in memory, and its form.

ghost use Rattle.std.specs.Prelude.{◌≡◌};
ghost use Rattle.ring_core.specs.State.{features_of, no_features, fresh_layout};

use std::error::Error;
use std::fmt;

/// The form in which a queue lies in memory.
#[derive(Clone, Copy, Debug, PartialEq, Eq)]
pub enum Form {
    /// A descriptor table, an available ring and a used ring (VIRTIO 1.2, 2.7).
    Split,
    /// One ring of descriptors (VIRTIO 1.2, 2.8).
    Packed,
}

/// An index into a ring, with the wrap counter of the side that it is of.
#[derive(Clone, Copy, Debug, PartialEq, Eq)]
pub struct RingIndex {
    /// The index: in a split queue any of two bytes, in a packed one the number of a slot.
    pub index: u16,
    /// True if the wrap counter is 1 (VIRTIO 1.2, 2.8.1). A split queue has none, and doesn't look at it.
    pub wrap: bool,
}

/// The first index of a ring that no device served before: 0, with wrap counter 1.
pub const FIRST_INDEX: RingIndex = RingIndex {
    index: 0,
    wrap: true,
};

/// The layout of a queue: its size in descriptors, the addresses of its three areas, and where the device begins in it.
#[derive(Clone, Copy, Debug, PartialEq, Eq)]
pub struct Layout {
    /// The number of its descriptors, at most 32,768; in a split queue a power of two.
    pub size: u16,
    /// The descriptor table or ring, 16 bytes a descriptor, aligned to 16.
    pub desc: u64,
    /// The driver area: the available ring, aligned to 2, or 4 bytes of event suppression,
    /// aligned to 4.
    pub driver: u64,
    /// The device area: the used ring, or 4 bytes of event suppression; aligned to 4.
    pub device: u64,
    /// The index of the first entry or slot that the device takes, `FIRST_INDEX` where no device served the queue before.
    pub first_available: RingIndex,
    /// The index of the first element or slot into which it writes a used chain.
    pub first_used: RingIndex,
}

/// The position where a queue goes on: by these first indices of its layout another device goes on where this one is.
#[derive(Clone, Copy, Debug, PartialEq, Eq)]
pub struct Position {
    /// The index of the next entry or slot that the device takes.
    pub available: RingIndex,
    /// The index of the next element or slot into which it writes a used chain.
    pub used: RingIndex,
}

impl Layout {
    /// Makes the layout of a queue that no device served before.
    pub fn fresh(size: u16, desc: u64, driver: u64, device: u64) -> Layout
        ensures { result ≡ fresh_layout size desc driver device }
    {
        Layout {
            size,
            desc,
            driver,
            device,
            first_available: FIRST_INDEX,
            first_used: FIRST_INDEX,
        }
    }
}

/// The optional features of virtqueues that were agreed (VIRTIO 1.2, 6).
#[derive(Clone, Copy, Debug)]
pub struct Features {
    /// VIRTIO_F_INDIRECT_DESC.
    pub indirect_descriptors: bool,
    /// VIRTIO_F_EVENT_IDX.
    pub event_index: bool,
}

/// VIRTIO_F_INDIRECT_DESC, bit 28 of the features.
const INDIRECT_DESC: u64 = 1 << 28;

/// VIRTIO_F_EVENT_IDX, bit 29 of the features.
const EVENT_IDX: u64 = 1 << 29;

impl Features {
    /// Makes those among all that were agreed: their bits 28 and 29.
    pub fn of(agreed: u64) -> Features
        ensures { result ≡ features_of agreed }
    {
        Features {
            indirect_descriptors: agreed & INDIRECT_DESC == INDIRECT_DESC,
            event_index: agreed & EVENT_IDX == EVENT_IDX,
        }
    }

    /// Returns none of them.
    pub fn none() -> Features
        ensures { result ≡ no_features }
    {
        Features {
            indirect_descriptors: false,
            event_index: false,
        }
    }
}

/// The cause for which a layout is refused. They are tested in this order, but for `NoMemory`, which comes last.
#[derive(Clone, Copy, Debug, PartialEq, Eq)]
pub enum LayoutFault {
    /// The size is 0, above 32,768, or in a split queue no power of two.
    BadSize = 1,
    /// An area isn't aligned as its form asks.
    BadAlignment = 2,
    /// An area doesn't lie in guest memory.
    Outside = 3,
    /// A growth was refused.
    NoMemory = 4,
    /// The device would begin at a slot that a packed queue of this size doesn't have.
    BadStart = 5,
}

impl fmt::Display for LayoutFault {
    fn fmt<W: fmt::Write>(&self, f: &mut fmt::Formatter<W>) -> fmt::Result {
        match self {
            LayoutFault::BadSize => write!(f, "bad queue size"),
            LayoutFault::BadAlignment => write!(f, "bad alignment"),
            LayoutFault::Outside => write!(f, "queue outside guest memory"),
            LayoutFault::NoMemory => write!(f, "no memory"),
            LayoutFault::BadStart => write!(f, "bad first index"),
        }
    }
}

impl Error for LayoutFault {}
