//! The areas of queues.

ghost use Rattle.std.specs.Prelude.{◌≡◌, ◌+◌, ◌*◌};
ghost use Rattle.ring_core.specs.State.{fresh_layout};

use ring_core::Layout;

/// The number of descriptors of a queue. A chain takes two of them.
const SIZE: u16 = 8;

/// The bytes from one queue's areas to the next one's, and from its descriptors to its driver area and its device area.
const PAGE: u64 = 4096;

const DRIVER_OFFSET: u64 = 1024;

const DEVICE_OFFSET: u64 = 2048;

/// Returns the layout of the queue of a number: 8 descriptors, in a page of its own, in the order of the numbers.
pub fn layout(queue: u16) -> Layout
    ensures { result ≡ fresh_layout 8 (queue * 4096) (queue * 4096 + 1024) (queue * 4096 + 2048) }
{
    let desc = u64::from(queue) * PAGE;
    Layout::fresh(SIZE, desc, desc + DRIVER_OFFSET, desc + DEVICE_OFFSET)
}
