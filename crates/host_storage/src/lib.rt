//! Keeps in memory what a host's storage has of a disk whose pages come and go.
//!
//! # Proved
//!
//! A storage gives back what was kept in it, page by page, and keeps what it was given last. Of what is cut off it has zeros.
//! A call that is refused memory changes neither.
#![tactic(auto)]

mod storage;

pub use storage::{PAGE_BLOCKS, Storage};
