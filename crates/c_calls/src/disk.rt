//! The disk, as C keeps it.

ghost use Rattle.std.specs.Prelude.{◌≡◌, true};
ghost use Rattle.c_calls.specs.Places.{has_disk};

use crate::owner::Owner;

/// A disk, or none, where C keeps it: the header's `struct vscsi_disk`, which C makes of zeros and hands to each call.
#[repr(C)]
pub struct Disk {
    pub(crate) owner: Owner,
    pub(crate) blocks: u64,
    pub(crate) live: bool,
    ghost is_disk: { has_disk live blocks owner.content ≡ true },
}
