//! Disks are handed to a device on live memory that opens, and back by one that closes.

ghost use Rattle.std.specs.Prelude.{◌≡◌};
ghost use Rattle.c_calls.specs.Kept.{live_at, disks_at};
ghost use Rattle.c_calls.specs.LiveDisks.{CreatesLiveOver, ClosesLive};

use crate::answer::Answer;
use crate::disk::Disk;
use crate::handing::{Room, is_any_there, lacking, new_room, no_disk_at, put_back, take_out};
use crate::live_device::LiveDevice;
use crate::live_opening::{ALL_BYTES, open};
use crate::live_served::LiveServed;
use crate::live_wanted::{WantedRing, live_config_of};
use crate::wanted::{Fault, WantedUnit, fault_of};
use std::alloc::Global;

/// Makes a device on live memory over disks where there is none.
pub fn create_with(
    device: &mut LiveDevice,
    alloc: Global,
    map: u64,
    features: u64,
    rings: &[WantedRing],
    units: &[WantedUnit],
    disks: &mut [Disk],
    fault: &mut Fault,
) -> Answer
    ensures { CreatesLiveOver map features rings.now units.now fault.old fault.new (live_at device.old) (disks_at disks.old)
        result (live_at device.new) (disks_at disks.new) }
{
    if device.is_there() {
        return Answer::InUse;
    }
    if disks.len() != units.len() {
        return Answer::BadLength;
    }
    let Ok(config) = live_config_of(alloc, features, rings, units) else {
        return Answer::NoMemory;
    };
    if let Some(cause) = config.fault_for(ALL_BYTES) {
        *fault = fault_of(cause);
        return Answer::BadConfig;
    }
    if let Some(unit_index) = lacking(config.units.as_slice(), disks, alloc, true) {
        *fault = no_disk_at(unit_index);
        return Answer::BadConfig;
    }
    let Ok(empty) = Vec::with_capacity(alloc, disks.len()) else {
        return Answer::NoMemory;
    };
    let Ok(mut served) = open(alloc, map, config) else {
        return Answer::NoMemory;
    };
    let mut stores = take_out(disks, alloc, empty);
    served.world.hand_in(&mut stores);
    device.put(served);
    Answer::Done
}

/// Ends a device, and puts its disks into slots where there is none.
pub fn close(device: &mut LiveDevice, alloc: Global, disks: &mut [Disk]) -> Answer
    ensures { ClosesLive (live_at device.old) (disks_at disks.old) result (live_at device.new) (disks_at disks.new) }
{
    let Some(served) = device.take(alloc) else {
        return Answer::NoDevice;
    };
    if disks.len() != served.world.units() {
        device.put(served);
        return Answer::BadLength;
    }
    if is_any_there(disks) {
        device.put(served);
        return Answer::InUse;
    }
    let Ok(room) = new_room(alloc, disks.len()) else {
        device.put(served);
        return Answer::NoMemory;
    };
    let Room { stores, boxes } = room;
    let LiveServed {
        world,
        told: _,
        rings,
    } = Box::into_inner(served);
    drop(rings);
    let (_memory, stores) = world.into_disks(stores);
    put_back(disks, stores, boxes);
    Answer::Done
}
