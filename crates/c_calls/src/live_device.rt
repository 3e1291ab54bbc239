//! The device on live memory, as C keeps it.

ghost use Rattle.std.specs.Prelude.{◌≡◌, true};
ghost use Rattle.c_calls.specs.Places.{has_live};

use crate::owner::Owner;

/// A device on live memory, or none, where C keeps it: what the header's `struct vscsi_live` begins with. C makes it of zeros and
/// hands it to each call. What is mapped stands behind it, and is C's alone.
#[repr(C)]
pub struct LiveDevice {
    pub(crate) owner: Owner,
    pub(crate) live: bool,
    ghost is_live: { has_live live owner.content ≡ true },
}
