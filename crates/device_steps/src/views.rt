//! The views that a device gives of itself. A host calls them between two steps.

ghost use Rattle.std.specs.Prelude.{◌≡◌, ◌≤◌, ◌↔◌, ◌+◌, ◌*◌, ◌==◌, ◌&&◌, true, length, IfOk, IfSome, IsTrue, is_some, slice_get};
ghost use Rattle.std.specs.List.{list_any};
ghost use Rattle.std.specs.Option.{option_copied, option_map};
ghost use Rattle.ring_core.specs.State.{IsLawful};
ghost use Rattle.ring_core.specs.Position.{position};
ghost use Rattle.unit_model.specs.Contents.{capacity_of, pending_of};

use crate::bay::Bay;
use crate::device::Device;
use foundation::NoMemory;
use logical_unit::{Changes, UnitState};
use ring_core::{Position, QueueLog, RingFault};
use unit_attention::Code;

/// Returns true if a fault of the guest broke a queue.
fn is_any_broken(bays: &[Bay]) -> bool
    ensures { result ≡ list_any (λ q. is_some q.ring.broken) bays.now }
{
    bays.iter().any(|bay| bay.queue.is_broken())
}

/// Returns true if a unit has this address.
fn has_address(unit: &UnitState, target: u8, lun: u16) -> bool
    ensures is { IsTrue result ↔ ((unit.now.opening.target ≡ target) × (unit.now.opening.lun ≡ lun)) }
    ensures test { result ≡ ((unit.now.opening.target == target) && (unit.now.opening.lun == lun)) }
{
    unit.target() == target && unit.lun() == lun
}

impl Device {
    ghost use Rattle.device_model.specs.World.{Everywhere};
    ghost use Rattle.device_model.specs.Lawful.{IsNumbered};
    ghost use Rattle.device_steps.specs.Views.{unit_of, IsIndexAmong, fault_of, status_of, GivesBlocks, GivesChanges};
    ghost use Rattle.device_steps.specs.Inner.Views.{FindsUnit};

    /// Returns how many queues there are.
    pub fn queues(&self) -> usize
        ensures { result ≡ length self.now.queues }
    {
        self.bays.len()
    }

    /// Returns how many units there are.
    pub fn units(&self) -> usize
        ensures { result ≡ length self.now.units }
    {
        self.units.len()
    }

    /// Returns the log of a queue; `None` where there is no such queue.
    pub fn log(&self, number: u16) -> Option<&QueueLog>
        requires numbered { Everywhere IsNumbered self.now.queues }
        ensures log { option_copied result ≡ option_map (λ q. q.ring.log) (slice_get self.now.queues number) }
        ensures lawful { IfSome result (λ log. IsLawful number log.now) }
    {
        match self.bays.get(number as usize) {
            Some(bay) => Some(bay.queue.log()),
            None => None,
        }
    }

    /// Returns how many notices a queue's driver wanted; `None` where there is no such queue.
    pub fn notices(&self, number: u16) -> Option<u64>
        ensures { result ≡ option_map (λ q. q.notices) (slice_get self.now.queues number) }
    {
        match self.bays.get(number as usize) {
            Some(bay) => Some(bay.queue.notices()),
            None => None,
        }
    }

    /// Returns the fault of the guest that broke a queue, if one did.
    pub fn broken(&self, number: u16) -> Option<RingFault>
        ensures { result ≡ fault_of (slice_get self.now.queues number) }
    {
        match self.bays.get(number as usize) {
            Some(bay) => bay.queue.fault(),
            None => None,
        }
    }

    /// Returns where a queue goes on; `None` where there is no such queue.
    pub fn position(&self, number: u16) -> Option<Position>
        ensures { result ≡ option_map (λ q. position q.ring) (slice_get self.now.queues number) }
    {
        match self.bays.get(number as usize) {
            Some(bay) => Some(bay.queue.position()),
            None => None,
        }
    }

    /// Returns the queues with their slots.
    pub fn bays(&self) -> &[Bay]
        ensures { result.now ≡ self.now.queues }
    {
        self.bays.as_slice()
    }

    /// Returns the device's status.
    pub fn status(&self) -> u8
        ensures { result ≡ status_of self.now.queues }
    {
        if is_any_broken(self.bays.as_slice()) {
            64
        } else {
            0
        }
    }

    /// Returns the index of the unit of an address.
    pub fn unit_index(&self, target: u8, lun: u16) -> Option<u16>
        requires few { length self.now.units ≤ 64 }
        ensures { IsIndexAmong self.now.units target lun result }
    {
        for unit_index in 0..self.units.len() {
            if has_address(&self.units[unit_index], target, lun) {
                return Some(unit_index as u16);
            }
        }
        None
    }

    /// Returns where the first unit of an address stands.
    fn unit_place(&self, target: u8, lun: u16) -> Option<usize>
        ensures { FindsUnit self.now.units target lun result }
    {
        for unit_index in 0..self.units.len() {
            if has_address(&self.units[unit_index], target, lun) {
                return Some(unit_index);
            }
        }
        None
    }

    /// Returns the unit of an address; `None` where there is none.
    pub fn unit(&self, target: u8, lun: u16) -> Option<&UnitState>
        ensures { option_copied result ≡ unit_of self.now.units target lun }
    {
        self.units
            .iter()
            .find(|unit| unit.target() == target && unit.lun() == lun)
    }

    /// Returns the capacity in blocks of the unit of an address.
    pub fn capacity(&self, target: u8, lun: u16) -> Option<u64>
        ensures { result ≡ option_map (λ u. capacity_of u.opening u.steps) (unit_of self.now.units target lun) }
    {
        match self.unit(target, lun) {
            Some(unit) => Some(unit.capacity()),
            None => None,
        }
    }

    /// Returns the codes that the unit of an address has pending, the oldest first.
    pub fn pending(&self, target: u8, lun: u16) -> Option<&[Code]>
        ensures { option_copied result ≡ option_map (λ u. pending_of u.opening u.steps) (unit_of self.now.units target lun) }
    {
        match self.unit(target, lun) {
            Some(unit) => Some(unit.pending()),
            None => None,
        }
    }

    /// Returns which blocks of the unit of an address may have changed, and starts anew.
    pub fn take_changes(&mut self, target: u8, lun: u16) -> Option<Changes>
        ensures same { self.new ≡ self.old }
        ensures changes { GivesChanges (unit_of self.old.units target lun) result }
    {
        match self.unit_place(target, lun) {
            Some(unit_index) => Some(self.units[unit_index].take_changes()),
            None => None,
        }
    }

    /// Appends the bytes of `count` blocks of a unit from `first` on.
    pub fn read_blocks(
        &self,
        target: u8,
        lun: u16,
        first: u64,
        count: u32,
        into: &mut Vec<u8>,
    ) -> Result<bool, NoMemory>
        ensures gives { GivesBlocks (unit_of self.now.units target lun) first count into.old.items result into.new.items }
        ensures len { IfOk result (λ gave. gave ≡ true → length into.new.items ≡ length into.old.items + 512 * count) }
    {
        match self.unit(target, lun) {
            Some(unit) => {
                let capacity = unit.capacity();
                if first > capacity || count as u64 > capacity - first {
                    return Ok(false);
                }
                unit.read_blocks(first, count, into)?;
                Ok(true)
            }
            None => Ok(false),
        }
    }
}
