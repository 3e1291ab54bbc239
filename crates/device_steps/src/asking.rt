//! What the device asks the driver of a queue for.

ghost use Rattle.std.specs.Prelude.{◌≡◌, ◌+◌, ◌≤◌, ℕ, length};
ghost use Rattle.std.specs.Option.{IfSome};
ghost use Rattle.device_steps.specs.Apart.{FitsIn};
ghost use Rattle.device_steps.specs.Asking.{asking_at};

use crate::device::Device;
use ring_core::{Asking, Notify};

impl Device {
    /// Returns what the device writes to ask the driver of a queue; `None` where there is no such queue, or a fault broke
    /// it. A host calls it between two steps.
    pub fn asking(&self, number: u16, notify: Notify) -> Option<Asking>
        ensures asks { result ≡ asking_at self.now.queues number notify }
        ensures inside { (size : ℕ) → FitsIn size self.now → IfSome result (λ a. a.addr + length a.bytes ≤ size) }
    {
        let at = number as usize;
        if at >= self.bays.len() {
            return None;
        }
        self.bays[at].queue.asking(notify)
    }
}
