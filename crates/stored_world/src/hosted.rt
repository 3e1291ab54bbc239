//! The storage of a disk.

use host_storage::Storage;

/// A storage, and how many blocks its disk has.
#[derive(Drop)]
pub struct HostedDisk {
    pub(crate) storage: Storage,
    pub(crate) capacity: u64,
}
