//! A device, and a host that keeps the storages of its disks in memory.

ghost use Rattle.std.specs.Prelude.{◌≡◌, ℕ, IfSome, Some, slice_get};
ghost use Rattle.unit_model.specs.Unit.{PlainUnit};
ghost use Rattle.stored_world.specs.Inner.Stored.{AreHosted, IsHosted};

use crate::hosted::HostedDisk;
use std::alloc::Global;
use std::mem;
use world::World;

/// A device of one thread, and the storage of each of its disks whose pages come and go. Storages are in memory: they are
/// honest, and gone with the device. Where memory was refused for a storage it isn't there any more, and no page of its
/// disk comes.
#[derive(Drop)]
pub struct StoredWorld {
    pub(crate) alloc: Global,
    pub(crate) world: World,
    pub(crate) disks: Vec<Option<HostedDisk>>,
    ghost hosted: { AreHosted world.units disks.items },
}

impl StoredWorld {
    /// Takes out the storage of the unit at an index, if it is there.
    pub(crate) fn take_disk(&mut self, unit_index: u16) -> Option<HostedDisk>
        ensures world { self.new.world ≡ self.old.world }
        ensures disk { IfSome result (λ h. (u : PlainUnit) → slice_get self.old.world.units unit_index ≡ Some u → IsHosted u h) }
        ensures gone { (h : HostedDisk) → slice_get self.new.disks.items unit_index ≡ Some (Some h) → ⊥ }
    {
        let unit_index = unit_index as usize;
        if unit_index >= self.disks.len() {
            return None;
        }
        mem::replace(&mut self.disks[unit_index], None)
    }

    /// Puts it back.
    pub(crate) fn put_disk(&mut self, unit_index: u16, disk: HostedDisk)
        requires hosted { (u : PlainUnit) → slice_get self.old.world.units unit_index ≡ Some u → IsHosted u disk }
        ensures world { self.new.world ≡ self.old.world }
    {
        let unit_index = unit_index as usize;
        if unit_index < self.disks.len() {
            self.disks[unit_index] = Some(disk);
        }
    }
}
