//! The views that a device with a memory of its own gives of itself.

ghost use Rattle.std.specs.Prelude.{◌≡◌, ◌≤◌, ◌+◌, ◌*◌, true, length, IfOk, IfSome, slice_get};
ghost use Rattle.std.specs.Option.{option_copied, option_map};
ghost use Rattle.ring_core.specs.State.{IsLawful};
ghost use Rattle.ring_core.specs.Position.{position};
ghost use Rattle.unit_model.specs.Contents.{capacity_of, pending_of};

use crate::world::World;
use device_steps::Bay;
use foundation::NoMemory;
use guest_mem::GuestMem;
use logical_unit::{Changes, UnitState};
use ring_core::{Position, QueueLog, RingFault};
use unit_attention::Code;

impl World {
    ghost use Rattle.device_steps.specs.Views.{unit_at, IsIndexOf, fault_of, device_status, GivesBlocks, GivesChanges};

    /// Returns guest memory.
    pub fn memory(&self) -> &GuestMem
        ensures { result.now ≡ self.now.memory }
    {
        &self.memory
    }

    /// Returns how many queues there are.
    pub fn queues(&self) -> usize
        ensures { result ≡ length self.now.queues }
    {
        self.device.queues()
    }

    /// Returns how many units there are.
    pub fn units(&self) -> usize
        ensures { result ≡ length self.now.units }
    {
        self.device.units()
    }

    /// Returns the log of a queue: which chains it accepted, and which were used. `None` where there is no such queue.
    pub fn log(&self, number: u16) -> Option<&QueueLog>
        ensures log { option_copied result ≡ option_map (λ q. q.ring.log) (slice_get self.now.queues number) }
        ensures lawful { IfSome result (λ log. IsLawful number log.now) }
    {
        self.is_sound();
        self.device.log(number)
    }

    /// Returns how many notices a queue's driver wanted; `None` where there is no such queue.
    pub fn notices(&self, number: u16) -> Option<u64>
        ensures { result ≡ option_map (λ q. q.notices) (slice_get self.now.queues number) }
    {
        self.device.notices(number)
    }

    /// Returns the fault of the guest that broke a queue; `None` where none did, or where there is no such queue.
    pub fn broken(&self, number: u16) -> Option<RingFault>
        ensures { result ≡ fault_of (slice_get self.now.queues number) }
    {
        self.device.broken(number)
    }

    /// Returns where a queue goes on: by these first indices of its layout another device goes on where this one is
    /// (`a_queue_goes_on_at_its_position` of `ring_core`). `None` where there is no such queue. It means that once no chain
    /// of the queue is outstanding, as its log tells. A chain that is, or that the device holds for an event, the other
    /// device wouldn't know.
    pub fn position(&self, number: u16) -> Option<Position>
        ensures { result ≡ option_map (λ q. position q.ring) (slice_get self.now.queues number) }
    {
        self.device.position(number)
    }

    /// Returns the queues with their slots, of which there are few.
    pub(crate) fn bays(&self) -> &[Bay]
        ensures queues { result.now ≡ self.now.queues }
        ensures few { length result.now ≤ 18 }
    {
        self.is_sound();
        self.device.bays()
    }

    /// Returns the device's status: 64, DEVICE_NEEDS_RESET (VIRTIO 1.2, 2.1), where a queue is broken, else 0.
    pub fn status(&self) -> u8
        ensures { result ≡ device_status self.now }
    {
        self.device.status()
    }

    /// Returns the index in the inventory of the unit of an address, by which an event names it; `None` where there is
    /// no such unit.
    pub fn unit_index(&self, target: u8, lun: u16) -> Option<u16>
        ensures { IsIndexOf self.now target lun result }
    {
        self.is_sound();
        self.device.unit_index(target, lun)
    }

    /// Returns the unit of an address; `None` where there is none.
    pub fn unit(&self, target: u8, lun: u16) -> Option<&UnitState>
        ensures { option_copied result ≡ unit_at self.now target lun }
    {
        self.device.unit(target, lun)
    }

    /// Returns the capacity in blocks of the unit of an address; `None` where there is none.
    pub fn capacity(&self, target: u8, lun: u16) -> Option<u64>
        ensures { result ≡ option_map (λ u. capacity_of u.opening u.steps) (unit_at self.now target lun) }
    {
        self.device.capacity(target, lun)
    }

    /// Returns the codes of the unit attention conditions that the unit of an address has pending, the oldest first
    /// (SAM-5 §5.14); `None` where there is no such unit.
    pub fn pending(&self, target: u8, lun: u16) -> Option<&[Code]>
        ensures { option_copied result ≡ option_map (λ u. pending_of u.opening u.steps) (unit_at self.now target lun) }
    {
        self.device.pending(target, lun)
    }

    /// Returns which blocks of the unit of an address may have changed, as [`UnitState::take_changes`] does, and starts
    /// anew; `None` where there is no such unit. A host calls it to write a disk through to its file. It looks at
    /// `since` first: where that is later than the place of its last call, each block may have changed. It takes no
    /// memory.
    pub fn take_changes(&mut self, target: u8, lun: u16) -> Option<Changes>
        ensures same { self.new ≡ self.old }
        ensures changes { GivesChanges (unit_at self.old target lun) result }
    {
        self.device.take_changes(target, lun)
    }

    /// Appends the bytes of `count` blocks of a unit from `first` on, 512 of each, as its commands left them. Returns
    /// false, with the list as it was, where the unit is absent or a block lies at or above its capacity. `NoMemory`
    /// where the list can't grow.
    pub fn read_blocks(
        &self,
        target: u8,
        lun: u16,
        first: u64,
        count: u32,
        into: &mut Vec<u8>,
    ) -> Result<bool, NoMemory>
        ensures gives { GivesBlocks (unit_at self.now target lun) first count into.old.items result into.new.items }
        ensures len { IfOk result (λ gave. gave ≡ true → length into.new.items ≡ length into.old.items + 512 * count) }
    {
        self.device.read_blocks(target, lun, first, count, into)
    }
}
