//! Devices and disks are taken out of where C keeps them, and put back.

ghost use Rattle.std.specs.Prelude.{◌≡◌, None, Some, is_some};
ghost use Rattle.std.specs.Option.{MatchOption, option_map};
ghost use Rattle.backed_store.specs.Disks.{size_of};
ghost use Rattle.c_calls.specs.Kept.{kept_in, live_at, disk_at};

use crate::device::Device;
use crate::disk::Disk;
use crate::live_device::LiveDevice;
use crate::live_served::LiveServed;
use crate::loose::Loose;
use crate::owner::Owner;
use crate::served::Served;
use backed_store::Disk as UnitDisk;
use block_store::Store;
use std::alloc::Global;
use std::mem::replace;

impl Device {
    /// Returns true if there is a device.
    #[tactic(auto, using(crate::proofs::Kept::device_is_live))]
    pub(crate) fn is_there(&self) -> bool
        ensures { result ≡ is_some (kept_in self.now) }
    {
        self.live
    }

    /// Takes the device out, if there is one.
    #[tactic(auto, using(crate::proofs::Kept::device_is_live, crate::proofs::Kept::device_there))]
    pub(crate) fn take(&mut self, alloc: Global) -> Option<Box<Served, Global>>
        ensures taken { MatchOption result (kept_in self.old ≡ None) (λ served. kept_in self.old ≡ Some served.value) }
        ensures after { kept_in self.new ≡ None }
    {
        if !self.live {
            return None;
        }
        self.live = false;
        let owner = replace(&mut self.owner, Owner::nothing());
        Some(owner.into_device(alloc).into_box())
    }

    /// Puts a device where there is none.
    #[tactic(auto, using(crate::proofs::Kept::no_device))]
    pub(crate) fn put(&mut self, served: Box<Served, Global>)
        requires { kept_in self.old ≡ None }
        ensures { kept_in self.new ≡ Some served.value }
    {
        self.live = true;
        let nothing = replace(&mut self.owner, Owner::of_device(Loose::of(served)));
        nothing.discard();
    }
}

impl LiveDevice {
    /// Returns true if there is a device.
    #[tactic(auto, using(crate::proofs::Kept::live_is_live))]
    pub fn is_there(&self) -> bool
        ensures { result ≡ is_some (live_at self.now) }
    {
        self.live
    }

    /// Takes the device out, if there is one.
    #[tactic(auto, using(crate::proofs::Kept::live_is_live, crate::proofs::Kept::live_there))]
    pub(crate) fn take(&mut self, alloc: Global) -> Option<Box<LiveServed, Global>>
        ensures taken { MatchOption result (live_at self.old ≡ None) (λ served. live_at self.old ≡ Some served.value) }
        ensures after { live_at self.new ≡ None }
    {
        if !self.live {
            return None;
        }
        self.live = false;
        let owner = replace(&mut self.owner, Owner::nothing());
        Some(owner.into_live(alloc).into_box())
    }

    /// Puts a device where there is none.
    #[tactic(auto, using(crate::proofs::Kept::no_live))]
    pub(crate) fn put(&mut self, served: Box<LiveServed, Global>)
        requires { live_at self.old ≡ None }
        ensures { live_at self.new ≡ Some served.value }
    {
        self.live = true;
        let nothing = replace(&mut self.owner, Owner::of_live(Loose::of(served)));
        nothing.discard();
    }
}

impl Disk {
    /// Returns true if there is a disk.
    #[tactic(auto, using(crate::proofs::Kept::disk_is_live))]
    pub(crate) fn is_there(&self) -> bool
        ensures { result ≡ is_some (disk_at self.now) }
    {
        self.live
    }

    /// Returns how many blocks the disk has, if there is one.
    #[tactic(auto, using(crate::proofs::Kept::disk_has, crate::proofs::Kept::no_blocks))]
    pub(crate) fn blocks(&self) -> Option<u64>
        ensures { result ≡ option_map (λ s. size_of s) (disk_at self.now) }
    {
        if self.live { Some(self.blocks) } else { None }
    }

    /// Takes the disk out, if there is one.
    #[tactic(auto, using(crate::proofs::Kept::disk_is_live, crate::proofs::Kept::disk_there))]
    pub(crate) fn take(&mut self, alloc: Global) -> Option<Box<UnitDisk, Global>>
        ensures taken { MatchOption result (disk_at self.old ≡ None) (λ store. disk_at self.old ≡ Some store.value) }
        ensures after { disk_at self.new ≡ None }
    {
        if !self.live {
            return None;
        }
        self.live = false;
        let owner = replace(&mut self.owner, Owner::nothing());
        Some(owner.into_disk(alloc).into_box())
    }

    /// Puts a disk where there is none.
    #[tactic(auto, using(crate::proofs::Kept::no_disk))]
    pub(crate) fn put(&mut self, store: Box<UnitDisk, Global>)
        requires { disk_at self.old ≡ None }
        ensures { disk_at self.new ≡ Some store.value }
    {
        self.live = true;
        self.blocks = store.capacity();
        let nothing = replace(&mut self.owner, Owner::of_disk(Loose::of(store)));
        nothing.discard();
    }
}
