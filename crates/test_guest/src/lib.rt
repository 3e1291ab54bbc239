//! Plays the guest of tests that drive a device: lays split queues out, and makes chains of two descriptors available.
//!
//! # Proved
//!
//! A queue has its areas in a page of its own, and a chain its buffers where its test says. A descriptor's bytes are
//! those of its address, its length, its flags and the next one. No clause says what `send` leaves in memory.
#![tactic(auto)]

mod areas;
mod buffers;
mod driver;

pub use areas::layout;
pub use buffers::Buffers;
pub use driver::{Chain, Pokes, send};
