//! The areas where a script's guest puts its queues.

ghost use Rattle.std.specs.Prelude.{◌≡◌, ◌+◌, ◌*◌};
ghost use Rattle.ring_core.specs.State.{first_index};

use ring_core::Layout;

/// The bytes from one queue's areas to the next one's.
const QUEUE_STRIDE: u64 = 16384;

/// The bytes from the descriptors of a queue to its driver area.
const DRIVER_OFFSET: u64 = 4096;

/// The bytes from the descriptors of a queue to its device area.
const DEVICE_OFFSET: u64 = 8192;

/// Returns where the guest puts a queue of this number and size, in bytes from the start of guest memory. The device is
/// opened with this layout, and the driver keeps to it.
pub fn layout_of(queue: u16, size: u16) -> Layout
    ensures size { result.size ≡ size }
    ensures desc { result.desc ≡ queue * 16384 }
    ensures driver { result.driver ≡ queue * 16384 + 4096 }
    ensures device { result.device ≡ queue * 16384 + 8192 }
    ensures fresh { (result.first_available ≡ first_index) × (result.first_used ≡ first_index) }
{
    let desc = u64::from(queue) * QUEUE_STRIDE;
    Layout::fresh(size, desc, desc + DRIVER_OFFSET, desc + DEVICE_OFFSET)
}
