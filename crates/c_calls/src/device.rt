//! The device, as C keeps it.

ghost use Rattle.std.specs.Prelude.{◌≡◌, true};
ghost use Rattle.c_calls.specs.Places.{has_device};

use crate::owner::Owner;

/// A device, or none, where C keeps it: the header's `struct vscsi`, which C makes of zeros and hands to each call.
#[repr(C)]
pub struct Device {
    pub(crate) owner: Owner,
    pub(crate) live: bool,
    ghost is_device: { has_device live owner.content ≡ true },
}
