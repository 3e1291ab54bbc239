//! The opening of the device.

ghost use Rattle.std.specs.Prelude.{◌≡◌, ◌≤◌, ◌↔◌, [], length, IfOk, IsFalse, IsTrue, true};
ghost use Rattle.config.specs.Config.{is_config_for};
ghost use Rattle.device_model.specs.World.{Everywhere};
ghost use Rattle.std.specs.Vec.{vec_capacity};
ghost use Rattle.device_steps.specs.Opening.{IsOpeningApart, AreDisksOf, IsDiskFor, AreDisksFor, over_disks};
ghost use Rattle.device_steps.specs.Inner.Opening.{AreSeats};

use crate::aside::JobsAside;
use crate::bay::Bay;
use crate::device::Device;
use crate::handed_off::HandedOff;
use crate::seat::Seat;
use backed_store::Disk;
use block_store::Store;
use config::{Config, tells_changes};
use device_opening::{Opened, open_parts, open_port};
use event_queue::WaitingEvents;
use foundation::NoMemory;
use guest_mem::Memory;
use logical_unit::{JobList, UnitState};
use request_intake::UnitSpec;
use std::alloc::Global;
use task_set::MOST_TASKS;

/// Seats with nothing in hand, and room for so many jobs in each list.
fn open_seats(alloc: Global, count: usize, limit: usize) -> Result<Vec<Seat>, NoMemory>
    ensures { IfOk result (λ seats. AreSeats count limit seats.items) }
{
    let mut seats = Vec::new(alloc);
    for _number in 0..count {
        let out = JobList::with_limit(alloc, limit)?;
        if seats.push(Seat::new(out)).is_err() {
            return Err(NoMemory);
        }
    }
    Ok(seats)
}

/// Makes the parts of the device of a configuration that is valid on this memory. A host calls it once for each device.
/// `NoMemory` where a growth was refused.
pub fn open_device<M: Memory>(
    alloc: Global,
    config: &Config,
    memory: &M,
) -> Result<Device, NoMemory>
    requires taken { is_config_for (M.extent memory.now) config.now ≡ true }
    ensures { IfOk result (λ d. IsOpeningApart (M.extent memory.now) config.now d) }
{
    // No receipt outlives the answer of its chain, so no reply is kept to be compared.
    let Opened {
        inventory,
        queues: bays,
        units,
    } = open_parts(alloc, config, memory, false, |queue| Bay::new(queue))?;
    // The last seat is the operator's.
    let seats = open_seats(
        alloc,
        config.workers as usize + 1,
        MOST_TASKS * units.len() + MOST_TASKS,
    )?;
    let jobs_aside = JobsAside::new(alloc, MOST_TASKS * units.len() + MOST_TASKS)?;
    let handed_off = HandedOff::new(alloc, seats.len(), config.handoff as usize)?;
    let port = open_port(alloc)?;
    Ok(Device {
        inventory,
        bays,
        units,
        seats,
        workers: config.workers,
        jobs_aside,
        handed_off,
        function: None,
        port,
        waiting: WaitingEvents::new(alloc),
        tells_changes: tells_changes(config.features),
    })
}

/// Returns true if a unit may have a disk: it is of its capacity. Where the disk's pages come and go, and the unit tells of no
/// volatile write cache, it writes through.
pub fn is_disk_for(unit: &UnitSpec, disk: &Disk) -> bool
    ensures { IsTrue result ↔ IsDiskFor unit.now disk.now }
{
    disk.capacity() == unit.blocks
}

/// Returns true if there is a disk for each unit, which it may have. A host calls it before it opens a device over disks.
pub fn are_disks_for(wanted: &[UnitSpec], disks: &[Disk]) -> bool
    ensures yes { IsTrue result → AreDisksFor wanted.now disks.now }
    ensures no { IsFalse result → AreDisksFor wanted.now disks.now → ⊥ }
{
    if wanted.len() != disks.len() {
        return false;
    }
    for number in 0..wanted.len() {
        if !is_disk_for(&wanted[number], &disks[number]) {
            return false;
        }
    }
    true
}

/// Gives each unit its disk, where no step of any was taken.
pub(crate) fn hand_in(units: &mut Vec<UnitState>, disks: &mut Vec<Disk>)
    requires fresh { Everywhere (λ k u. u.steps ≡ []) units.old.items }
    requires enough { length disks.old.items ≤ length units.old.items }
    ensures over { units.new.items ≡ over_disks units.old.items disks.old.items }
    ensures none { disks.new.items ≡ [] }
{
    while let Some(disk) = disks.pop() {
        units[disks.len()].hand_in(disk);
    }
}

/// Returns the disks of units, as their histories left them, in an empty list that has room for them.
pub(crate) fn disks_of(units: Vec<UnitState>, empty: Vec<Disk>) -> Vec<Disk>
    requires empty { empty.items ≡ [] }
    requires room { length units.items ≤ vec_capacity empty }
    ensures { AreDisksOf units.items result.items }
{
    let mut disks = empty;
    let mut units = units.into_iter();
    while let Some(unit) = units.next() {
        disks.push_reserved(unit.into_disk());
    }
    disks
}

impl Device {
    /// Gives each unit its disk, where no step of any was taken. A host calls it once, right behind the opening.
    pub fn hand_in(&mut self, disks: &mut Vec<Disk>)
        requires fresh { Everywhere (λ k u. u.steps ≡ []) self.old.units }
        requires enough { length disks.old.items ≤ length self.old.units }
        ensures over { self.new ≡ record self.old { units = over_disks self.old.units disks.old.items } }
        ensures none { disks.new.items ≡ [] }
    {
        hand_in(&mut self.units, disks);
    }

    /// Returns an empty list that has room for its disks. A host calls it before it ends the device. `NoMemory` where the
    /// list was refused memory.
    pub fn room_for_disks(&self, alloc: Global) -> Result<Vec<Disk>, NoMemory>
        ensures empty { IfOk result (λ disks. disks.items ≡ []) }
        ensures room { IfOk result (λ disks. length self.now.units ≤ vec_capacity disks) }
    {
        match Vec::with_capacity(alloc, self.units.len()) {
            Ok(empty) => Ok(empty),
            Err(_) => Err(NoMemory),
        }
    }

    /// Ends the device, and returns the disks of its units in an empty list that has room for them. A host calls it last.
    pub fn into_disks(self, empty: Vec<Disk>) -> Vec<Disk>
        requires empty { empty.items ≡ [] }
        requires room { length self.units ≤ vec_capacity empty }
        ensures { AreDisksOf self.units result.items }
    {
        let Device { units, .. } = self;
        disks_of(units, empty)
    }
}
