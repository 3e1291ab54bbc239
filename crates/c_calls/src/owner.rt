//! The owner of what C's pointer points to.

ghost use Rattle.std.specs.Prelude.{◌≡◌, Option, Some, None, is_some, true};
ghost use Rattle.std.specs.Coded.{coded_option};
ghost use Rattle.c_calls.specs.Held.{Content, device_in, live_in, disk_in};
ghost use Rattle.c_calls.specs.Inner.Held.{content_code};

use crate::live_served::LiveServed;
use crate::loose::Loose;
use crate::served::Served;
use backed_store::Disk as UnitDisk;
use std::alloc::Global;
use std::marker::Model;
use std::ptr::null_mut;

/// A pointer that C keeps, and that owns a device of either kind, a disk, or nothing. C sees nothing behind it: the type says what it
/// owns in proofs alone.
#[repr(C)]
pub struct Owner {
    at: *mut u8,
    ghost content: { Option Content } by { coded_option content_code },
}

impl Model for Owner {
    ghost use Rattle.c_calls.specs.Held.{held};

    ghost also_owns = { λ o. held o.at o.content };
}

impl Owner {
    /// Returns a pointer that owns nothing.
    pub(crate) fn nothing() -> Owner
        ensures { result.content ≡ None }
    {
        Owner { at: null_mut() }
    }

    /// Returns a pointer that owns the device of a box.
    pub(crate) fn of_device(loose: Loose<Served, Global>) -> Owner
        ensures { result.content ≡ Some (Content.Device loose.value) }
    {
        let Loose { at, alloc: _ } = loose;
        Owner { at: at as *mut u8 }
    }

    /// Returns a pointer that owns the device on live memory of a box.
    pub(crate) fn of_live(loose: Loose<LiveServed, Global>) -> Owner
        ensures { result.content ≡ Some (Content.Live loose.value) }
    {
        let Loose { at, alloc: _ } = loose;
        Owner { at: at as *mut u8 }
    }

    /// Returns a pointer that owns the disk of a box.
    pub(crate) fn of_disk(loose: Loose<UnitDisk, Global>) -> Owner
        ensures { result.content ≡ Some (Content.Disk loose.value) }
    {
        let Loose { at, alloc: _ } = loose;
        Owner { at: at as *mut u8 }
    }

    /// Returns the box of the device that it owns.
    pub(crate) fn into_device(self, alloc: Global) -> Loose<Served, Global>
        requires { is_some (device_in self.content) ≡ true }
        ensures { self.content ≡ Some (Content.Device result.value) }
    {
        let Owner { at } = self;
        Loose {
            at: at as *mut Served,
            alloc,
        }
    }

    /// Returns the box of the device on live memory that it owns.
    pub(crate) fn into_live(self, alloc: Global) -> Loose<LiveServed, Global>
        requires { is_some (live_in self.content) ≡ true }
        ensures { self.content ≡ Some (Content.Live result.value) }
    {
        let Owner { at } = self;
        Loose {
            at: at as *mut LiveServed,
            alloc,
        }
    }

    /// Returns the box of the disk that it owns.
    pub(crate) fn into_disk(self, alloc: Global) -> Loose<UnitDisk, Global>
        requires { is_some (disk_in self.content) ≡ true }
        ensures { self.content ≡ Some (Content.Disk result.value) }
    {
        let Owner { at } = self;
        Loose {
            at: at as *mut UnitDisk,
            alloc,
        }
    }

    /// Forgets a pointer that owns nothing.
    pub(crate) fn discard(self)
        requires { self.content ≡ None }
    {
        let Owner { at: _ } = self;
    }
}
