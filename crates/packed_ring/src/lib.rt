//! A packed virtqueue: one ring of descriptors, and an event suppression area of each side
//! (VIRTIO 1.2, 2.8).
//!
//! # Proved
//!
//! By one contract: `fetch` answers the chain in the next slot and its first 1,048,627 readable bytes. It answers
//! none exactly where none is available, as `is_idle` says. Each fault is answered exactly where its cause is the
//! first in the order of tests. A fault breaks its queue for good, and accepted chains can still be completed. Want
//! of memory changes nothing. `complete` writes the used entry. `wants_notice` is the driver's flag.
#![tactic(auto)]

mod placement;
mod ring;
mod slots;
mod walk;

pub use placement::check_layout;
pub use ring::PackedRing;
