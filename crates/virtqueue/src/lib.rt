//! A virtqueue of the device, split or packed, as one lock lends it.
//!
//! # Proved
//!
//! A notice is counted exactly where its driver wants one. In any memory a completion begins a phase behind its
//! writes, and decides the notice by what it reads there. Some memory may have been found before, into which the
//! used entry was written. Where nobody else writes, that is what is seen; else what is seen has its size
//! (`SeenBehind`).
#![tactic(auto)]

mod any_ring;
mod queue;

pub use any_ring::AnyRing;
pub use queue::{Fetch, Queue, is_placed, placement};
