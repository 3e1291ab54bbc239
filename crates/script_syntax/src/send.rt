//! Requests and functions for the device, as lines name them.

use crate::values::Bytes;
use scsi_codec::CDB_BYTES;

/// A request as a line names it. It isn't known here which queues and units there are.
#[derive(Drop)]
pub struct Send<'a> {
    /// Its name, 1 to 16 letters or digits.
    pub name: &'a str,
    /// The queue that it goes to.
    pub queue: u16,
    /// The bytes of its unit's address.
    pub lun: [u8; 8],
    /// Its id.
    pub id: u64,
    /// Its task attribute.
    pub attribute: u8,
    /// Its command block, which zeros fill up.
    pub cdb: [u8; CDB_BYTES],
    /// Its data out.
    pub out: Bytes,
    /// The bytes of data in that it has room for.
    pub room: u32,
}

/// A task management function as a line names it. It isn't known here which functions and units there are.
#[derive(Clone, Copy)]
pub struct TaskManagement<'a> {
    /// Its name, 1 to 16 letters or digits.
    pub name: &'a str,
    /// The number of the function.
    pub subtype: u32,
    /// The bytes of its unit's address.
    pub lun: [u8; 8],
    /// The id of the request that it is about.
    pub id: u64,
}
