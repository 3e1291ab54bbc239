//! A device that stands still.

use close_audit::Report;
use guest_mem::GuestMem;
use host_storage::Storage;
use logical_unit::UnitState;
use scsi_codec::Address;

/// A device that stands still, as printing lines look at it: one of one thread between two lines, or what threads left
/// when it was closed.
pub trait Device {
    /// Returns the memory of its guest.
    fn memory(&self) -> &GuestMem;

    /// Returns the unit of an address; `None` where there is none.
    fn unit(&self, address: Address) -> Option<&UnitState>;

    /// Returns its status.
    fn status(&self) -> u8;

    /// Returns how many notices a queue's driver wanted; `None` where there is no such queue.
    fn notices(&self, queue: u16) -> Option<u64>;

    /// Returns what the host has of a unit's disk; `None` where the disk isn't on a storage of its.
    fn hosted(&self, address: Address) -> Option<Hosted<'_>>;
}

/// A disk on a storage of its host, with the pages that the host has to do with.
#[derive(Clone, Copy)]
pub struct Hosted<'a> {
    /// The pages that it was asked for, the oldest first.
    pub wanted: &'a [u64],
    /// The pages that it is writing, the oldest first.
    pub given: &'a [u64],
    /// The storage; `None` where it is gone.
    pub storage: Option<&'a Storage>,
}

impl Device for Report {
    fn memory(&self) -> &GuestMem {
        &self.memory
    }

    fn unit(&self, address: Address) -> Option<&UnitState> {
        self.units.iter().find(|unit| unit.target() == address.target && unit.lun() == address.lun)
    }

    fn status(&self) -> u8 {
        Report::status(self)
    }

    fn notices(&self, queue: u16) -> Option<u64> {
        Report::notices(self, queue)
    }

    fn hosted(&self, _address: Address) -> Option<Hosted<'_>> {
        None
    }
}
