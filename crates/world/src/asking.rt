//! Asks drivers for notifications.

ghost use Rattle.device_steps.specs.Asking.{asking_at};
ghost use Rattle.world.specs.Asking.{Asks, AsksAsPromised};

use crate::world::World;
use device_model::laws::every_run_goes_on;
use device_model::trace_laws::the_promise_is_kept;
use device_steps::poke;
use ring_core::Notify;

impl World {
    /// Asks the driver of a queue to notify the device of the next chain, or of none. Returns false, with nothing
    /// changed, exactly where there is no such queue or a fault broke it. In the trace this is a Poke, with the bytes
    /// that VIRTIO names (`asking` in `ring_core/specs/Asking.antt`). It takes no memory. The promise is kept as by `step`.
    ///
    /// A host that waits for notifications does these three in turn:
    ///
    /// 1. It calls `serve` until nothing is left.
    /// 2. It asks each queue for the next chain.
    /// 3. It calls `serve` once more: a driver that made a chain available before it could see what was asked notifies
    ///    nobody. Where that call took a step, the host begins again at 2, since the next chain is another one now. Else it
    ///    waits.
    ///
    /// A host that polls asks for none.
    pub fn ask(&mut self, number: u16, notify: Notify) -> bool
        ensures asks { Asks self.old (asking_at self.old.queues number notify) result self.new }
        ensures promise { AsksAsPromised self.old (asking_at self.old.queues number notify) self.new }
    {
        every_run_goes_on();
        the_promise_is_kept();
        match self.device.asking(number, notify) {
            Some(asking) => poke(&mut self.memory, asking.addr(), asking.bytes()),
            None => false,
        }
    }
}
