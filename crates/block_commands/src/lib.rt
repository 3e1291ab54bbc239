//! One SCSI command on a disk of blocks, run whole (SPC-4, SBC-3): what it is answered, and what it
//! leaves in the blocks of any store.
//!
//! # Proved
//!
//! `exec`: status, sense, data, bytes moved and every block afterwards are the definitions' (`docs/COMMANDS.md`).
//! CHECK CONDITION moves nothing. After want of memory no block changed. A command runs only where `make_ready` found the
//! pages that it needs in memory. Else each of them was asked for, at once, or there was no room for all. A disk that
//! isn't backed has all pages in memory. `unread` answers a command that needs a page which can't be read, and no other; `unwritten`
//! one that flushes a page which can't be written.
#![tactic(auto)]

mod attention;
mod capacity;
mod codes;
mod compare;
mod data;
mod defects;
mod disks;
mod execution;
mod extents;
mod facts;
mod failing;
mod failure;
mod format_unit;
mod in_place;
mod inquiry;
pub mod laws;
mod luns;
mod mode_lists;
mod modes;
mod or_write;
mod prepared;
mod protection;
mod provisioning;
mod readiness;
mod transfer;
mod unmap;
mod verify;
mod wide;

pub use attention::takes_attention;
pub use disks::exec_on;
pub use execution::exec;
pub use extents::{Extent, UNMAP_HEADER_BYTES, extent_at, taken_descriptors};
pub use facts::UnitFacts;
pub use failing::{unread, unwritten};
pub use in_place::read_in_place;
pub use prepared::exec_prepared;
pub use protection::changes_medium;
pub use readiness::make_ready;
