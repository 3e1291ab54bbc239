//! Asks drivers for notifications, in a memory that their guest writes at any time.

ghost use Rattle.std.specs.Prelude.{◌≡◌, ◌+◌, ◌≤◌, Ok, true, length};
ghost use Rattle.device_model.specs.Events.{Event as AnEvent};
ghost use Rattle.device_steps.specs.Apart.{Stored};
ghost use Rattle.device_steps.specs.Asking.{asking_at};
ghost use Rattle.world.specs.Asking.{AsksLive, AsksPromised};
ghost use Rattle.world.specs.LiveWorld.{StepsLive};
ghost use Rattle.world.specs.Inner.LiveWorld.{StepRan};

use super::LiveWorld;
use device_model::laws::every_run_goes_on;
use device_model::live_laws::{a_live_run_is_a_run, any_bytes_may_stand_there};
use device_model::trace_laws::the_promise_is_kept;
use device_steps::poke_in;
use guest_mem::WritableMemory;
use ring_core::Notify;

impl<M: WritableMemory> LiveWorld<M> {
    /// Writes bytes at an address, in a phase of its own.
    fn write_by(&mut self, addr: u64, bytes: &[u8]) -> bool
        ensures size { M.extent self.new.memory ≡ M.extent self.old.memory }
        ensures steps { StepsLive M.shared M.begins M.may_be (Stored M.stored M.storing) self.old
            (AnEvent.Poke (record { addr = addr; bytes = bytes.now })) (Ok result) self.new }
        ensures ran { StepRan (Stored M.stored M.storing) M.shared (M.extent self.old.memory) self.old
            (AnEvent.Poke (record { addr = addr; bytes = bytes.now })) (Ok result) self.new }
        ensures inside { addr + length bytes.now ≤ M.extent self.old.memory → result ≡ true }
    {
        any_bytes_may_stand_there();
        self.memory.begin();
        let _begun = self.memory.size();
        let wrote = poke_in(&mut self.memory, addr, bytes);
        let _bytes = self.memory.size();
        wrote
    }

    /// Asks the driver of a queue to notify the device of the next chain, or of none, as `World::ask` does: in a phase of
    /// its own. Returns false, with nothing changed, exactly where there is no such queue or a fault broke it. What the
    /// next phase reads is no older than the write, on a bus that begins each phase with a full barrier.
    pub fn ask(&mut self, number: u16, notify: Notify) -> bool
        ensures size { M.extent self.new.memory ≡ M.extent self.old.memory }
        ensures asks { AsksLive M.shared M.begins M.may_be (Stored M.stored M.storing) self.old
            (asking_at self.old.device.queues number notify) result self.new }
        ensures promise { AsksPromised M.shared (M.extent self.old.memory) self.old.device
            (asking_at self.old.device.queues number notify) self.new.device }
    {
        a_live_run_is_a_run();
        every_run_goes_on();
        the_promise_is_kept();
        match self.device.asking(number, notify) {
            Some(asking) => self.write_by(asking.addr(), asking.bytes()),
            None => false,
        }
    }
}
