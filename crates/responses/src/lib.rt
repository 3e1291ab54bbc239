//! Writes the response to a request, with its data, over the writable parts of its chain (VIRTIO 1.2, 5.6.6.1).
//!
//! # Proved
//!
//! The bytes that are written are the response and the data, and nothing else is: where they lie in one part at once, else
//! part by part. Each is stored once, in its order. The data of a READ are written from where they stand, page after page.
//! No call takes memory.
#![tactic(auto)]

mod writing;

pub use writing::{write_direct, write_read, write_reply};
