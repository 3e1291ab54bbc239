//! A split virtqueue: a descriptor table, an available ring and a used ring (VIRTIO 1.2, 2.7).
//!
//! # Proved
//!
//! By one contract: `fetch` answers the chain at the next entry and its first 1,048,627 readable bytes. It answers
//! none exactly where none is available, as `is_idle` says. Each fault is answered exactly where its cause is the
//! first in the order of tests. A fault breaks its queue for good, and accepted chains can still be completed. Want
//! of memory changes nothing. `complete` writes the used entry. `wants_notice` is the driver's flag.
#![tactic(auto)]

mod areas;
mod placement;
mod ring;
mod walk;

pub use placement::check_layout;
pub use ring::SplitRing;
