//! The calls: each takes the device out of where C keeps it, does one thing with it, and puts it back.

ghost use Rattle.std.specs.Prelude.{◌≡◌};
ghost use Rattle.c_calls.specs.Kept.{kept_in};
ghost use Rattle.c_calls.specs.Calls.{Serving, Settles, ServesPortion, Pokes, Peeks, Owes, IsStatus, Breaks, Counts, Resets, Resizes, Holds, Gives, Creates, Destroys};
ghost use Rattle.c_calls.specs.Changes.{TellsChanges};
ghost use Rattle.c_calls.specs.Counts.{TellsCounts};
ghost use Rattle.c_calls.specs.Position.{TellsPosition};

use crate::answer::Answer;
use crate::counts::UnitCounts;
use crate::device::Device;
use crate::live_wanted::RingPosition;
use crate::ranges::{BlockRange, Told};
use crate::served::Served;
use crate::wanted::{Fault, WantedQueue, WantedUnit, config_of, fault_of};
use std::alloc::Global;
use world::{Notifications, World};

/// Makes a device where there is none.
pub fn create(
    device: &mut Device,
    alloc: Global,
    pages: u32,
    features: u64,
    queues: &[WantedQueue],
    units: &[WantedUnit],
    fault: &mut Fault,
) -> Answer
    ensures { Creates pages features queues.now units.now fault.old fault.new (kept_in device.old) result
        (kept_in device.new) }
{
    if let Some(served) = device.take(alloc) {
        device.put(served);
        return Answer::InUse;
    }
    let Ok(config) = config_of(alloc, pages, features, queues, units) else {
        return Answer::NoMemory;
    };
    if let Some(cause) = config.fault() {
        *fault = fault_of(cause);
        return Answer::BadConfig;
    }
    let Ok(world) = World::new(alloc, &config) else {
        return Answer::NoMemory;
    };
    let told = Notifications::new();
    let Ok(served) = Box::new(alloc, Served { world, told }) else {
        return Answer::NoMemory;
    };
    device.put(served);
    Answer::Done
}

/// Lets go of a device and of all its memory.
pub fn destroy(device: &mut Device, alloc: Global) -> Answer
    ensures { Destroys (kept_in device.old) result (kept_in device.new) }
{
    match device.take(alloc) {
        Some(served) => {
            drop(served);
            Answer::Done
        }
        None => Answer::NoDevice,
    }
}

/// Serves what there is, and says in how many steps.
#[tactic(auto, using(crate::proofs::Serve::serving, crate::proofs::Serve::without))]
pub fn settle(device: &mut Device, alloc: Global, steps: &mut u64) -> Answer
    ensures { Serving (Settles steps.old steps.new) (steps.new ≡ steps.old) (kept_in device.old) result
        (kept_in device.new) }
{
    let Some(mut served) = device.take(alloc) else {
        return Answer::NoDevice;
    };
    let answer = served.settle(steps);
    device.put(served);
    answer
}

/// Serves some queues in at most so many steps, and says in how many, and whether more is left to do.
#[tactic(auto, using(crate::proofs::Serve::serving, crate::proofs::Serve::without))]
pub fn serve(
    device: &mut Device,
    alloc: Global,
    queues: u32,
    most: u64,
    steps: &mut u64,
    more: &mut bool,
) -> Answer
    ensures { Serving (ServesPortion queues most steps.old more.old steps.new more.new)
        ((steps.new ≡ steps.old) × (more.new ≡ more.old)) (kept_in device.old) result (kept_in device.new) }
{
    let Some(mut served) = device.take(alloc) else {
        return Answer::NoDevice;
    };
    let answer = served.serve(queues, most, steps, more);
    device.put(served);
    answer
}

/// Writes bytes as the guest.
#[tactic(auto, using(crate::proofs::Serve::serving, crate::proofs::Serve::without))]
pub fn poke(device: &mut Device, alloc: Global, addr: u64, bytes: &[u8]) -> Answer
    ensures { Serving (Pokes (record { addr = addr; bytes = bytes.now })) (Unit {0}) (kept_in device.old) result
        (kept_in device.new) }
{
    let Some(mut served) = device.take(alloc) else {
        return Answer::NoDevice;
    };
    let answer = served.poke(addr, bytes);
    device.put(served);
    answer
}

/// Reads guest memory.
#[tactic(auto, using(crate::proofs::Serve::serving, crate::proofs::Serve::without))]
pub fn peek(device: &mut Device, alloc: Global, addr: u64, into: &mut [u8]) -> Answer
    ensures { Serving (Peeks addr into.old into.new) (into.new ≡ into.old) (kept_in device.old) result
        (kept_in device.new) }
{
    let Some(mut served) = device.take(alloc) else {
        return Answer::NoDevice;
    };
    let answer = served.peek(addr, into);
    device.put(served);
    answer
}

/// Tells which queues' drivers are owed a notification since this was last asked.
#[tactic(auto, using(crate::proofs::Serve::serving, crate::proofs::Serve::without))]
pub fn owed(device: &mut Device, alloc: Global, queues: &mut u32) -> Answer
    ensures { Serving (Owes queues.new) (queues.new ≡ queues.old) (kept_in device.old) result (kept_in device.new) }
{
    let Some(mut served) = device.take(alloc) else {
        return Answer::NoDevice;
    };
    let answer = served.owed(queues);
    device.put(served);
    answer
}

/// Tells the device's status.
#[tactic(auto, using(crate::proofs::Serve::serving, crate::proofs::Serve::without))]
pub fn status(device: &mut Device, alloc: Global, status: &mut u8) -> Answer
    ensures { Serving (IsStatus status.new) (status.new ≡ status.old) (kept_in device.old) result (kept_in device.new) }
{
    let Some(mut served) = device.take(alloc) else {
        return Answer::NoDevice;
    };
    let answer = served.status(status);
    device.put(served);
    answer
}

/// Tells what broke a queue.
#[tactic(auto, using(crate::proofs::Serve::serving, crate::proofs::Serve::without))]
pub fn broken(device: &mut Device, alloc: Global, queue: u16, fault: &mut u32) -> Answer
    ensures { Serving (Breaks queue fault.old fault.new) (fault.new ≡ fault.old) (kept_in device.old) result
        (kept_in device.new) }
{
    let Some(mut served) = device.take(alloc) else {
        return Answer::NoDevice;
    };
    let answer = served.broken(queue, fault);
    device.put(served);
    answer
}

/// Tells how many chains a queue accepted, and how many of them were used.
#[tactic(auto, using(crate::proofs::Serve::serving, crate::proofs::Serve::without))]
pub fn progress(
    device: &mut Device,
    alloc: Global,
    queue: u16,
    accepted: &mut u64,
    used: &mut u64,
) -> Answer
    ensures { Serving (Counts queue accepted.old used.old accepted.new used.new)
        ((accepted.new ≡ accepted.old) × (used.new ≡ used.old)) (kept_in device.old) result (kept_in device.new) }
{
    let Some(mut served) = device.take(alloc) else {
        return Answer::NoDevice;
    };
    let answer = served.progress(queue, accepted, used);
    device.put(served);
    answer
}

/// Tells where a queue goes on.
#[tactic(auto, using(crate::proofs::Serve::serving, crate::proofs::Serve::without))]
pub fn position(
    device: &mut Device,
    alloc: Global,
    queue: u16,
    position: &mut RingPosition,
) -> Answer
    ensures { Serving (TellsPosition queue position.old position.new) (position.new ≡ position.old) (kept_in device.old)
        result (kept_in device.new) }
{
    let Some(mut served) = device.take(alloc) else {
        return Answer::NoDevice;
    };
    let answer = served.position(queue, position);
    device.put(served);
    answer
}

/// Resets a unit for the operator.
#[tactic(auto, using(crate::proofs::Serve::serving, crate::proofs::Serve::without))]
pub fn reset(device: &mut Device, alloc: Global, target: u8, lun: u16) -> Answer
    ensures { Serving (Resets target lun) (Unit {0}) (kept_in device.old) result (kept_in device.new) }
{
    let Some(mut served) = device.take(alloc) else {
        return Answer::NoDevice;
    };
    let answer = served.reset(target, lun);
    device.put(served);
    answer
}

/// Resizes a unit for the operator.
#[tactic(auto, using(crate::proofs::Serve::serving, crate::proofs::Serve::without))]
pub fn resize(device: &mut Device, alloc: Global, target: u8, lun: u16, blocks: u64) -> Answer
    ensures { Serving (Resizes target lun blocks) (Unit {0}) (kept_in device.old) result (kept_in device.new) }
{
    let Some(mut served) = device.take(alloc) else {
        return Answer::NoDevice;
    };
    let answer = served.resize(target, lun, blocks);
    device.put(served);
    answer
}

/// Tells how much a unit did.
#[tactic(auto, using(crate::proofs::Serve::serving, crate::proofs::Serve::without))]
pub fn counts(
    device: &mut Device,
    alloc: Global,
    target: u8,
    lun: u16,
    counts: &mut UnitCounts,
) -> Answer
    ensures { Serving (TellsCounts target lun counts.old counts.new) (counts.new ≡ counts.old) (kept_in device.old) result
        (kept_in device.new) }
{
    let Some(mut served) = device.take(alloc) else {
        return Answer::NoDevice;
    };
    let answer = served.counts(target, lun, counts);
    device.put(served);
    answer
}

/// Tells how many blocks a unit has.
#[tactic(auto, using(crate::proofs::Serve::serving, crate::proofs::Serve::without))]
pub fn capacity(
    device: &mut Device,
    alloc: Global,
    target: u8,
    lun: u16,
    blocks: &mut u64,
) -> Answer
    ensures { Serving (Holds target lun blocks.old blocks.new) (blocks.new ≡ blocks.old) (kept_in device.old) result
        (kept_in device.new) }
{
    let Some(mut served) = device.take(alloc) else {
        return Answer::NoDevice;
    };
    let answer = served.capacity(target, lun, blocks);
    device.put(served);
    answer
}

/// Reads blocks of a unit, as its commands left them.
#[tactic(auto, using(crate::proofs::Serve::serving, crate::proofs::Serve::without))]
pub fn blocks(
    device: &mut Device,
    alloc: Global,
    target: u8,
    lun: u16,
    first: u64,
    count: u32,
    into: &mut [u8],
) -> Answer
    ensures { Serving (Gives target lun first count into.old into.new) (into.new ≡ into.old) (kept_in device.old) result
        (kept_in device.new) }
{
    let Some(mut served) = device.take(alloc) else {
        return Answer::NoDevice;
    };
    let answer = served.blocks(alloc, target, lun, first, count, into);
    device.put(served);
    answer
}

/// Tells which blocks of a unit may have changed since a place of its history.
#[tactic(auto, using(crate::proofs::Serve::serving, crate::proofs::Serve::without))]
pub fn changed(
    device: &mut Device,
    alloc: Global,
    target: u8,
    lun: u16,
    told: &mut Told,
    room: &mut [BlockRange],
) -> Answer
    ensures { Serving (TellsChanges target lun told.old room.old told.new room.new)
        ((told.new ≡ told.old) × (room.new ≡ room.old)) (kept_in device.old) result (kept_in device.new) }
{
    let Some(mut served) = device.take(alloc) else {
        return Answer::NoDevice;
    };
    let answer = served.changed(target, lun, told, room);
    device.put(served);
    answer
}
