//! The views that a device in a memory of the embedder's gives of itself. Of the memory nothing is known between two calls
//! but its size; of the device each view tells what [`World`](crate::World)'s does.

ghost use Rattle.std.specs.Prelude.{◌≡◌, ◌≤◌, ◌+◌, ◌*◌, [], true, false, length, IfOk, IfSome, slice_get};
ghost use Rattle.std.specs.Option.{option_copied, option_map};
ghost use Rattle.ring_core.specs.State.{IsLawful};
ghost use Rattle.ring_core.specs.Position.{position};
ghost use Rattle.unit_model.specs.Contents.{capacity_of, pending_of};
ghost use Rattle.unit_model.specs.Unit.{is_backed};
ghost use Rattle.device_model.specs.World.{Everywhere};
ghost use Rattle.device_model.specs.Lawful.{IsNumbered};
ghost use Rattle.device_steps.specs.Apart.{FitsIn};
ghost use Rattle.device_steps.specs.Inner.Apart.{HasFew};
ghost use Rattle.world.specs.LiveWorld.{IsReachedIn};
ghost use Rattle.device_steps.specs.Views.{unit_of, IsIndexAmong, fault_of, status_of, GivesBlocks, GivesChanges};

use crate::live_world::LiveWorld;
use device_model::waiting_laws::a_device_in_memory_defers_nothing;
use device_steps::{Bay, all_are_sound};
use foundation::NoMemory;
use guest_mem::WritableMemory;
use logical_unit::{Changes, UnitState};
use ring_core::{Position, QueueLog, RingFault};
use unit_attention::Code;

impl<M: WritableMemory> LiveWorld<M> {
    /// Shows that some trace led here from an opening, whatever bytes stand in memory: every law over reached traces holds
    /// of the device with these bytes.
    pub fn some_trace_led_here(&self)
        ensures { IsReachedIn M.shared (M.extent self.now.memory) self.now.device }
    {
        let _ = &self.memory;
    }

    /// Shows that where no unit's disk is one whose pages come and go, no job waits for its disk, and none is to be tried
    /// again.
    pub fn none_waits(&self)
        ensures aside { Everywhere (λ i u. is_backed u ≡ false) self.now.device.units → self.now.device.aside ≡ [] }
        ensures woken { Everywhere (λ i u. is_backed u ≡ false) self.now.device.units → self.now.device.woken ≡ [] }
    {
        a_device_in_memory_defers_nothing();
        let _ = &self.memory;
    }

    /// Shows that the ring of each queue was made for a memory of this size.
    pub fn rings_fit(&self)
        ensures { FitsIn (M.extent self.now.memory) self.now.device }
    {
        let _ = &self.memory;
    }

    /// Returns what its views rest on.
    fn has_parts(&self)
        ensures few { HasFew self.now.device }
        ensures numbered { Everywhere IsNumbered self.now.device.queues }
    {
        all_are_sound();
        let _ = &self.memory;
    }

    /// Returns how many queues there are.
    pub fn queues(&self) -> usize
        ensures { result ≡ length self.now.device.queues }
    {
        self.device.queues()
    }

    /// Returns how many units there are.
    pub fn units(&self) -> usize
        ensures { result ≡ length self.now.device.units }
    {
        self.device.units()
    }

    /// Returns the log of a queue: which chains it accepted, and which were used. `None` where there is no such queue.
    pub fn log(&self, number: u16) -> Option<&QueueLog>
        ensures log { option_copied result ≡ option_map (λ q. q.ring.log) (slice_get self.now.device.queues number) }
        ensures lawful { IfSome result (λ log. IsLawful number log.now) }
    {
        self.has_parts();
        self.device.log(number)
    }

    /// Returns how many notices a queue's driver wanted; `None` where there is no such queue.
    pub fn notices(&self, number: u16) -> Option<u64>
        ensures { result ≡ option_map (λ q. q.notices) (slice_get self.now.device.queues number) }
    {
        self.device.notices(number)
    }

    /// Returns the fault of the guest that broke a queue; `None` where none did, or where there is no such queue.
    pub fn broken(&self, number: u16) -> Option<RingFault>
        ensures { result ≡ fault_of (slice_get self.now.device.queues number) }
    {
        self.device.broken(number)
    }

    /// Returns where a queue goes on, as [`World::position`](crate::World::position) does; `None` where there is no such
    /// queue. It means that once no chain of the queue is outstanding.
    pub fn position(&self, number: u16) -> Option<Position>
        ensures { result ≡ option_map (λ q. position q.ring) (slice_get self.now.device.queues number) }
    {
        self.device.position(number)
    }

    /// Returns the queues with their slots, of which there are few.
    pub(crate) fn bays(&self) -> &[Bay]
        ensures queues { result.now ≡ self.now.device.queues }
        ensures few { length result.now ≤ 18 }
    {
        self.has_parts();
        self.device.bays()
    }

    /// Returns the device's status: 64, DEVICE_NEEDS_RESET (VIRTIO 1.2, 2.1), where a queue is broken, else 0.
    pub fn status(&self) -> u8
        ensures { result ≡ status_of self.now.device.queues }
    {
        self.device.status()
    }

    /// Returns the index in the inventory of the unit of an address, by which an event names it; `None` where there is
    /// no such unit.
    pub fn unit_index(&self, target: u8, lun: u16) -> Option<u16>
        ensures { IsIndexAmong self.now.device.units target lun result }
    {
        self.has_parts();
        self.device.unit_index(target, lun)
    }

    /// Returns the unit of an address, with its history and its counts; `None` where there is none.
    pub fn unit(&self, target: u8, lun: u16) -> Option<&UnitState>
        ensures { option_copied result ≡ unit_of self.now.device.units target lun }
    {
        self.device.unit(target, lun)
    }

    /// Returns the capacity in blocks of the unit of an address; `None` where there is none.
    pub fn capacity(&self, target: u8, lun: u16) -> Option<u64>
        ensures { result ≡ option_map (λ u. capacity_of u.opening u.steps) (unit_of self.now.device.units target lun) }
    {
        self.device.capacity(target, lun)
    }

    /// Returns the codes of the unit attention conditions that the unit of an address has pending, the oldest first
    /// (SAM-5 §5.14); `None` where there is no such unit.
    pub fn pending(&self, target: u8, lun: u16) -> Option<&[Code]>
        ensures { option_copied result
            ≡ option_map (λ u. pending_of u.opening u.steps) (unit_of self.now.device.units target lun) }
    {
        self.device.pending(target, lun)
    }

    /// Returns which blocks of the unit of an address may have changed, as [`UnitState::take_changes`] does, and starts
    /// anew; `None` where there is no such unit. It takes no memory.
    pub fn take_changes(&mut self, target: u8, lun: u16) -> Option<Changes>
        ensures same { self.new ≡ self.old }
        ensures changes { GivesChanges (unit_of self.old.device.units target lun) result }
    {
        self.device.take_changes(target, lun)
    }

    /// Appends the bytes of `count` blocks of a unit from `first` on, 512 of each, as its commands left them. Returns
    /// false, with the list as it was, where the unit is absent or a block lies at or above its capacity. `NoMemory`
    /// where the list can't grow.
    pub fn read_blocks(
        &self,
        target: u8,
        lun: u16,
        first: u64,
        count: u32,
        into: &mut Vec<u8>,
    ) -> Result<bool, NoMemory>
        ensures gives { GivesBlocks (unit_of self.now.device.units target lun) first count into.old.items result into.new.items }
        ensures len { IfOk result (λ gave. gave ≡ true → length into.new.items ≡ length into.old.items + 512 * count) }
    {
        self.device.read_blocks(target, lun, first, count, into)
    }
}
