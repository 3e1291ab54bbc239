//! The guest's side of the device: where its queues and its buffers lie, how it makes requests
//! available, and how it finds what was used by reading guest memory alone.
//!
//! # Proved
//!
//! The driver lays out queues, requests and descriptors as the device reads them. In memory that nobody else writes
//! its writes are exact. A buffer goes to the lowest multiple of 16 behind the one before it.
#![tactic(auto)]

mod areas;
mod driver;
mod guest;
mod memory;
mod packed_queue;
mod requests;
mod rings;
mod split_queue;

pub use areas::layout_of;
pub use driver::{Asks, Driver, Sent};
pub use guest::put_bytes;
pub use memory::GuestMemory;
pub use rings::Rings;
