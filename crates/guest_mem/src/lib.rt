//! The memory of a guest: one run of bytes, read and written in slices.
//!
//! # Proved
//!
//! Memory is one list of bytes: a read is a slice, a write replaces one slice alone (`reads_what_was_written`).
//! Both are refused exactly where a byte lies behind the end. All that a phase reads is of one list (`Memory`,
//! `WritableMemory`).
#![tactic(auto)]

mod access;
mod laws;
mod memory;

pub use access::{Memory, WritableMemory};
pub use laws::{keeps_other_bytes, reads_what_was_written};
pub use memory::{GuestMem, MemFault, PAGE_BYTES, StillMem};
