//! The calls of a device on live memory: each takes the device out of where C keeps it, does one thing with it, and puts it
//! back.

ghost use Rattle.std.specs.Prelude.{◌≡◌};
ghost use Rattle.c_calls.specs.Kept.{live_at};
ghost use Rattle.c_calls.specs.LiveAsked.{ServesAskedPortion};
ghost use Rattle.c_calls.specs.Live.{ServingLive, Maps, AsksDriver, ServesPortion, Owes, IsStatus, Breaks, Resets, Resizes, Holds, Gives, TellsCounts, TellsPosition, TellsChanges, CreatesLive, DestroysLive};

use crate::answer::Answer;
use crate::counts::UnitCounts;
use crate::live_device::LiveDevice;
use crate::live_opening::{ALL_BYTES, open};
use crate::live_wanted::{RingPosition, WantedRing, live_config_of};
use crate::ranges::{BlockRange, Told};
use crate::region::Region;
use crate::wanted::{Fault, WantedUnit, fault_of};
use std::alloc::Global;

/// Makes a device on live memory where there is none, over what C mapped.
pub fn create(
    device: &mut LiveDevice,
    alloc: Global,
    map: u64,
    features: u64,
    rings: &[WantedRing],
    units: &[WantedUnit],
    fault: &mut Fault,
) -> Answer
    ensures { CreatesLive map features rings.now units.now fault.old fault.new (live_at device.old) result (live_at device.new) }
{
    if device.is_there() {
        return Answer::InUse;
    }
    let Ok(config) = live_config_of(alloc, features, rings, units) else {
        return Answer::NoMemory;
    };
    if let Some(cause) = config.fault_for(ALL_BYTES) {
        *fault = fault_of(cause);
        return Answer::BadConfig;
    }
    let Ok(served) = open(alloc, map, config) else {
        return Answer::NoMemory;
    };
    device.put(served);
    Answer::Done
}

/// Lets go of a device and of all its memory; what C mapped is C's.
pub fn destroy(device: &mut LiveDevice, alloc: Global) -> Answer
    ensures { DestroysLive (live_at device.old) result (live_at device.new) }
{
    match device.take(alloc) {
        Some(served) => {
            drop(served);
            Answer::Done
        }
        None => Answer::NoDevice,
    }
}

/// Notes which queues lie in the regions that C mapped.
#[tactic(auto, using(crate::proofs::LiveServe::serving, crate::proofs::LiveServe::without))]
pub fn map(device: &mut LiveDevice, alloc: Global, regions: &[Region]) -> Answer
    ensures { ServingLive (Maps regions.now) (Unit {0}) (live_at device.old) result (live_at device.new) }
{
    let Some(mut served) = device.take(alloc) else {
        return Answer::NoDevice;
    };
    let answer = served.map(regions);
    device.put(served);
    answer
}

/// Asks the driver of a queue to notify the device of the next chain, or of none.
#[tactic(auto, using(crate::proofs::LiveServe::serving, crate::proofs::LiveServe::without))]
pub fn ask(device: &mut LiveDevice, alloc: Global, queue: u16, notify: bool) -> Answer
    ensures { ServingLive (AsksDriver queue notify) (Unit {0}) (live_at device.old) result (live_at device.new) }
{
    let Some(mut served) = device.take(alloc) else {
        return Answer::NoDevice;
    };
    let answer = served.ask(queue, notify);
    device.put(served);
    answer
}

/// Serves some queues in at most so many steps, and says in how many, and whether more is left to do.
#[tactic(auto, using(crate::proofs::LiveServe::serving, crate::proofs::LiveServe::without))]
pub fn serve(
    device: &mut LiveDevice,
    alloc: Global,
    queues: u32,
    most: u64,
    steps: &mut u64,
    more: &mut bool,
) -> Answer
    ensures { ServingLive (ServesPortion queues most steps.old more.old steps.new more.new)
        ((steps.new ≡ steps.old) × (more.new ≡ more.old)) (live_at device.old) result (live_at device.new) }
{
    let Some(mut served) = device.take(alloc) else {
        return Answer::NoDevice;
    };
    let answer = served.serve(queues, most, steps, more);
    device.put(served);
    answer
}

/// Serves some queues as `serve` does, and asks their drivers for the next chains once nothing is left.
#[tactic(auto, using(crate::proofs::LiveServe::serving, crate::proofs::LiveServe::without))]
pub fn serve_and_ask(
    device: &mut LiveDevice,
    alloc: Global,
    queues: u32,
    most: u64,
    steps: &mut u64,
    more: &mut bool,
) -> Answer
    ensures { ServingLive (ServesAskedPortion queues most steps.old more.old steps.new more.new)
        ((steps.new ≡ steps.old) × (more.new ≡ more.old)) (live_at device.old) result (live_at device.new) }
{
    let Some(mut served) = device.take(alloc) else {
        return Answer::NoDevice;
    };
    let answer = served.serve_and_ask(queues, most, steps, more);
    device.put(served);
    answer
}

/// Tells which queues' drivers are owed a notification since this was last asked.
#[tactic(auto, using(crate::proofs::LiveServe::serving, crate::proofs::LiveServe::without))]
pub fn owed(device: &mut LiveDevice, alloc: Global, queues: &mut u32) -> Answer
    ensures { ServingLive (Owes queues.new) (queues.new ≡ queues.old) (live_at device.old) result (live_at device.new) }
{
    let Some(mut served) = device.take(alloc) else {
        return Answer::NoDevice;
    };
    let answer = served.owed(queues);
    device.put(served);
    answer
}

/// Tells the device's status.
#[tactic(auto, using(crate::proofs::LiveServe::serving, crate::proofs::LiveServe::without))]
pub fn status(device: &mut LiveDevice, alloc: Global, status: &mut u8) -> Answer
    ensures { ServingLive (IsStatus status.new) (status.new ≡ status.old) (live_at device.old) result (live_at device.new) }
{
    let Some(mut served) = device.take(alloc) else {
        return Answer::NoDevice;
    };
    let answer = served.status(status);
    device.put(served);
    answer
}

/// Tells what broke a queue, or that it isn't mapped.
#[tactic(auto, using(crate::proofs::LiveServe::serving, crate::proofs::LiveServe::without))]
pub fn broken(device: &mut LiveDevice, alloc: Global, queue: u16, fault: &mut u32) -> Answer
    ensures { ServingLive (Breaks queue fault.old fault.new) (fault.new ≡ fault.old) (live_at device.old) result
        (live_at device.new) }
{
    let Some(mut served) = device.take(alloc) else {
        return Answer::NoDevice;
    };
    let answer = served.broken(queue, fault);
    device.put(served);
    answer
}

/// Tells where a queue goes on.
#[tactic(auto, using(crate::proofs::LiveServe::serving, crate::proofs::LiveServe::without))]
pub fn position(
    device: &mut LiveDevice,
    alloc: Global,
    queue: u16,
    position: &mut RingPosition,
) -> Answer
    ensures { ServingLive (TellsPosition queue position.old position.new) (position.new ≡ position.old)
        (live_at device.old) result (live_at device.new) }
{
    let Some(mut served) = device.take(alloc) else {
        return Answer::NoDevice;
    };
    let answer = served.position(queue, position);
    device.put(served);
    answer
}

/// Resets a unit for the operator.
#[tactic(auto, using(crate::proofs::LiveServe::serving, crate::proofs::LiveServe::without))]
pub fn reset(device: &mut LiveDevice, alloc: Global, target: u8, lun: u16) -> Answer
    ensures { ServingLive (Resets target lun) (Unit {0}) (live_at device.old) result (live_at device.new) }
{
    let Some(mut served) = device.take(alloc) else {
        return Answer::NoDevice;
    };
    let answer = served.reset(target, lun);
    device.put(served);
    answer
}

/// Resizes a unit for the operator.
#[tactic(auto, using(crate::proofs::LiveServe::serving, crate::proofs::LiveServe::without))]
pub fn resize(device: &mut LiveDevice, alloc: Global, target: u8, lun: u16, blocks: u64) -> Answer
    ensures { ServingLive (Resizes target lun blocks) (Unit {0}) (live_at device.old) result (live_at device.new) }
{
    let Some(mut served) = device.take(alloc) else {
        return Answer::NoDevice;
    };
    let answer = served.resize(target, lun, blocks);
    device.put(served);
    answer
}

/// Tells how much a unit did.
#[tactic(auto, using(crate::proofs::LiveServe::serving, crate::proofs::LiveServe::without))]
pub fn counts(
    device: &mut LiveDevice,
    alloc: Global,
    target: u8,
    lun: u16,
    counts: &mut UnitCounts,
) -> Answer
    ensures { ServingLive (TellsCounts target lun counts.old counts.new) (counts.new ≡ counts.old) (live_at device.old) result
        (live_at device.new) }
{
    let Some(mut served) = device.take(alloc) else {
        return Answer::NoDevice;
    };
    let answer = served.counts(target, lun, counts);
    device.put(served);
    answer
}

/// Tells how many blocks a unit has.
#[tactic(auto, using(crate::proofs::LiveServe::serving, crate::proofs::LiveServe::without))]
pub fn capacity(
    device: &mut LiveDevice,
    alloc: Global,
    target: u8,
    lun: u16,
    blocks: &mut u64,
) -> Answer
    ensures { ServingLive (Holds target lun blocks.old blocks.new) (blocks.new ≡ blocks.old) (live_at device.old) result
        (live_at device.new) }
{
    let Some(mut served) = device.take(alloc) else {
        return Answer::NoDevice;
    };
    let answer = served.capacity(target, lun, blocks);
    device.put(served);
    answer
}

/// Reads blocks of a unit, as its commands left them.
#[tactic(auto, using(crate::proofs::LiveServe::serving, crate::proofs::LiveServe::without))]
pub fn blocks(
    device: &mut LiveDevice,
    alloc: Global,
    target: u8,
    lun: u16,
    first: u64,
    count: u32,
    into: &mut [u8],
) -> Answer
    ensures { ServingLive (Gives target lun first count into.old into.new) (into.new ≡ into.old) (live_at device.old) result
        (live_at device.new) }
{
    let Some(mut served) = device.take(alloc) else {
        return Answer::NoDevice;
    };
    let answer = served.blocks(alloc, target, lun, first, count, into);
    device.put(served);
    answer
}

/// Tells which blocks of a unit may have changed since a place of its history.
#[tactic(auto, using(crate::proofs::LiveServe::serving, crate::proofs::LiveServe::without))]
pub fn changed(
    device: &mut LiveDevice,
    alloc: Global,
    target: u8,
    lun: u16,
    told: &mut Told,
    room: &mut [BlockRange],
) -> Answer
    ensures { ServingLive (TellsChanges target lun told.old room.old told.new room.new)
        ((told.new ≡ told.old) × (room.new ≡ room.old)) (live_at device.old) result (live_at device.new) }
{
    let Some(mut served) = device.take(alloc) else {
        return Answer::NoDevice;
    };
    let answer = served.changed(target, lun, told, room);
    device.put(served);
    answer
}
