//! Disks are handed to a device that opens, and back by one that closes.

ghost use Rattle.std.specs.Prelude.{◌≡◌, ◌↔◌, IsTrue, ◌≤◌, true, false, [], length, map, Some, None, is_some, slice_get, IfOk};
ghost use Rattle.std.specs.List.{list_all, list_any};
ghost use Rattle.std.specs.Option.{MatchOption};
ghost use Rattle.std.specs.Vec.{vec_capacity};
ghost use Rattle.std.specs.Result.{MatchResult};
ghost use Rattle.c_calls.specs.Kept.{kept_in, disk_at, disks_at};
ghost use Rattle.c_calls.specs.Calls.{plain_cause};
ghost use Rattle.c_calls.specs.Disks.{Fits, Lacks, CreatesOver, Closes};
ghost use Rattle.c_calls.specs.Inner.Disks.{Fit};

use crate::answer::Answer;
use crate::device::Device;
use crate::disk::Disk;
use crate::served::Served;
use crate::wanted::{Fault, WantedQueue, WantedUnit, config_of, fault_of};
use backed_store::Disk as UnitDisk;
use block_store::PagedStore;
use device_steps::is_disk_for;
use foundation::NoMemory;
use request_intake::UnitSpec;
use std::alloc::Global;
use world::{Notifications, World};

/// The cause of a unit that has no disk, or one that it may not have.
const NO_DISK_CAUSE: u32 = 13;

/// Returns what is told of the unit at an index, which has no disk, or one that it may not have.
pub(crate) fn no_disk_at(unit_index: usize) -> Fault
    ensures { plain_cause result ≡ record { cause = 13; place = unit_index; detail = 0 } }
{
    Fault {
        place: unit_index as u64,
        cause: NO_DISK_CAUSE,
        detail: 0,
    }
}

/// Returns true if a slot has a disk that a unit may have, of a device on live memory or of another.
fn has_disk_for(disk: &mut Disk, alloc: Global, unit: &UnitSpec, is_live: bool) -> bool
    ensures told { IsTrue result ↔ Fits is_live unit.now (disk_at disk.old) }
    ensures same { disk_at disk.new ≡ disk_at disk.old }
{
    let Some(store) = disk.take(alloc) else {
        return false;
    };
    let fits = is_disk_for(unit, &store) && (is_live || store.is_resident());
    disk.put(store);
    fits
}

/// Returns the index of the first unit that has no disk, or one that it may not have.
pub(crate) fn lacking(
    units: &[UnitSpec],
    disks: &mut [Disk],
    alloc: Global,
    is_live: bool,
) -> Option<usize>
    requires { length disks.old ≡ length units.now }
    ensures found { MatchOption result (Fit is_live units.now (disks_at disks.old))
        (λ unit_index. Lacks is_live units.now (disks_at disks.old) unit_index) }
    ensures same { disks_at disks.new ≡ disks_at disks.old }
{
    for unit_index in 0..disks.len() {
        if !has_disk_for(&mut disks[unit_index], alloc, &units[unit_index], is_live) {
            return Some(unit_index);
        }
    }
    None
}

/// Takes all disks out, into an empty list that has room for them.
pub(crate) fn take_out(disks: &mut [Disk], alloc: Global, empty: Vec<UnitDisk>) -> Vec<UnitDisk>
    requires there { list_all is_some (disks_at disks.old) ≡ true }
    requires empty { empty.items ≡ [] }
    requires room { length disks.old ≤ vec_capacity empty }
    ensures were { disks_at disks.old ≡ map (λ s. Some s) result.items }
    ensures none { disks_at disks.new ≡ map (λ s. None) result.items }
{
    let mut stores = empty;
    for unit_index in 0..disks.len() {
        match disks[unit_index].take(alloc) {
            Some(store) => stores.push_reserved(Box::into_inner(store)),
            None => unreachable!(),
        }
    }
    stores
}

/// Makes a device over disks where there is none.
pub fn create_with(
    device: &mut Device,
    alloc: Global,
    pages: u32,
    features: u64,
    queues: &[WantedQueue],
    units: &[WantedUnit],
    disks: &mut [Disk],
    fault: &mut Fault,
) -> Answer
    ensures { CreatesOver pages features queues.now units.now fault.old fault.new (kept_in device.old) (disks_at disks.old)
        result (kept_in device.new) (disks_at disks.new) }
{
    if device.is_there() {
        return Answer::InUse;
    }
    if disks.len() != units.len() {
        return Answer::BadLength;
    }
    let Ok(config) = config_of(alloc, pages, features, queues, units) else {
        return Answer::NoMemory;
    };
    if let Some(cause) = config.fault() {
        *fault = fault_of(cause);
        return Answer::BadConfig;
    }
    if let Some(unit_index) = lacking(config.units.as_slice(), disks, alloc, false) {
        *fault = no_disk_at(unit_index);
        return Answer::BadConfig;
    }
    let Ok(empty) = Vec::with_capacity(alloc, disks.len()) else {
        return Answer::NoMemory;
    };
    let Ok(world) = World::new(alloc, &config) else {
        return Answer::NoMemory;
    };
    let told = Notifications::new();
    let Ok(mut served) = Box::new(alloc, Served { world, told }) else {
        return Answer::NoMemory;
    };
    let mut stores = take_out(disks, alloc, empty);
    served.world.hand_in(&mut stores);
    device.put(served);
    Answer::Done
}

/// The room for a device's disks when it closes: an empty list with room for them, and a box for each.
pub(crate) struct Room {
    pub(crate) stores: Vec<UnitDisk>,
    pub(crate) boxes: Vec<Box<UnitDisk, Global>>,
}

/// Makes so many boxes, each with a disk that is put out later.
fn new_boxes(alloc: Global, count: usize) -> Result<Vec<Box<UnitDisk, Global>>, NoMemory>
    ensures { IfOk result (λ boxes. length boxes.items ≡ count) }
{
    let mut boxes = Vec::new(alloc);
    for _number in 0..count {
        let Ok(one) = Box::new(alloc, UnitDisk::Whole(PagedStore::new(alloc, 1))) else {
            return Err(NoMemory);
        };
        if boxes.push(one).is_err() {
            return Err(NoMemory);
        }
    }
    Ok(boxes)
}

/// Makes the room for so many disks.
pub(crate) fn new_room(alloc: Global, count: usize) -> Result<Room, NoMemory>
    ensures { IfOk result (λ room. (room.stores.items ≡ []) × (count ≤ vec_capacity room.stores)
        × (length room.boxes.items ≡ count)) }
{
    let Ok(stores) = Vec::with_capacity(alloc, count) else {
        return Err(NoMemory);
    };
    let boxes = new_boxes(alloc, count)?;
    Ok(Room { stores, boxes })
}

/// Puts each disk into its slot, by its box.
pub(crate) fn put_back(disks: &mut [Disk], stores: Vec<UnitDisk>, boxes: Vec<Box<UnitDisk, Global>>)
    requires none { list_any is_some (disks_at disks.old) ≡ false }
    requires slots { length disks.old ≡ length stores.items }
    requires boxes { length boxes.items ≡ length stores.items }
    ensures { disks_at disks.new ≡ map (λ s. Some s) stores.items }
{
    let mut stores = stores;
    let mut boxes = boxes;
    while let Some(store) = stores.pop() {
        match boxes.pop() {
            Some(mut one) => {
                drop(Box::replace(&mut one, store));
                disks[stores.len()].put(one);
            }
            None => unreachable!(),
        }
    }
}

/// Returns true if there is a disk in one of the slots.
pub(crate) fn is_any_there(disks: &[Disk]) -> bool
    ensures { result ≡ list_any (λ d. is_some (disk_at d)) disks.now }
{
    disks.iter().any(|disk| disk.is_there())
}

/// Ends a device, and puts its disks into slots where there is none.
pub fn close(device: &mut Device, alloc: Global, disks: &mut [Disk]) -> Answer
    ensures { Closes (kept_in device.old) (disks_at disks.old) result (kept_in device.new) (disks_at disks.new) }
{
    let Some(served) = device.take(alloc) else {
        return Answer::NoDevice;
    };
    if disks.len() != served.world.units() {
        device.put(served);
        return Answer::BadLength;
    }
    if is_any_there(disks) {
        device.put(served);
        return Answer::InUse;
    }
    let Ok(room) = new_room(alloc, disks.len()) else {
        device.put(served);
        return Answer::NoMemory;
    };
    let Room { stores, boxes } = room;
    let Served { world, told: _ } = Box::into_inner(served);
    put_back(disks, world.into_disks(stores), boxes);
    Answer::Done
}
