//! A disk: a store whose pages are all in memory, or one whose pages come and go.

use crate::backed_disk::BackedDisk;
use block_store::PagedStore;

/// The blocks of a disk.
#[derive(Drop)]
pub enum Disk {
    /// All of them are in memory.
    Whole(PagedStore),
    /// The host's storage has those that aren't in memory.
    Backed(BackedDisk),
}
