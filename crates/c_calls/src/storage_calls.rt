//! The calls by which a host has the storage of backed disks: each takes the device out of where C keeps it, does one thing with
//! it, and puts it back.

ghost use Rattle.std.specs.Prelude.{◌≡◌};
ghost use Rattle.c_calls.specs.Kept.{live_at};
ghost use Rattle.c_calls.specs.Live.{ServingLive};
ghost use Rattle.c_calls.specs.Storage.{OwesPage, WantsPage, LoadsPage, FailsPage, LosesPage, GivesPage, KeepsPage, DeniesPage, Wakes};

use crate::answer::Answer;
use crate::live_device::LiveDevice;
use std::alloc::Global;

/// Tells the next page of a unit's disk that the host is to read.
#[tactic(auto, using(crate::proofs::LiveServe::serving, crate::proofs::LiveServe::without))]
pub fn wanted(
    device: &mut LiveDevice,
    alloc: Global,
    target: u8,
    lun: u16,
    page: &mut u64,
    found: &mut bool,
) -> Answer
    ensures { ServingLive (WantsPage target lun page.old found.old page.new found.new)
        ((page.new ≡ page.old) × (found.new ≡ found.old)) (live_at device.old) result (live_at device.new) }
{
    let Some(mut served) = device.take(alloc) else {
        return Answer::NoDevice;
    };
    let answer = served.wanted(target, lun, page, found);
    device.put(served);
    answer
}

/// Takes the bytes of a page that the host read. The host owes that its storage has them.
#[tactic(auto, using(crate::proofs::LiveServe::serving, crate::proofs::LiveServe::without))]
pub fn load(
    device: &mut LiveDevice,
    alloc: Global,
    target: u8,
    lun: u16,
    page: u64,
    bytes: &[u8],
) -> Answer
    requires owed { OwesPage target lun page bytes.now (live_at device.old) }
    ensures { ServingLive (LoadsPage target lun page bytes.now) (Unit {0}) (live_at device.old) result (live_at device.new) }
{
    let Some(mut served) = device.take(alloc) else {
        return Answer::NoDevice;
    };
    let answer = served.load(target, lun, page, bytes);
    device.put(served);
    answer
}

/// Notes that a page doesn't come.
#[tactic(auto, using(crate::proofs::LiveServe::serving, crate::proofs::LiveServe::without))]
pub fn load_failed(
    device: &mut LiveDevice,
    alloc: Global,
    target: u8,
    lun: u16,
    page: u64,
) -> Answer
    ensures { ServingLive (FailsPage target lun) (Unit {0}) (live_at device.old) result (live_at device.new) }
{
    let Some(mut served) = device.take(alloc) else {
        return Answer::NoDevice;
    };
    let answer = served.load_failed(target, lun, page);
    device.put(served);
    answer
}

/// Notes that the host can't read a page.
#[tactic(auto, using(crate::proofs::LiveServe::serving, crate::proofs::LiveServe::without))]
pub fn lost(device: &mut LiveDevice, alloc: Global, target: u8, lun: u16, page: u64) -> Answer
    ensures { ServingLive (LosesPage target lun page) (Unit {0}) (live_at device.old) result (live_at device.new) }
{
    let Some(mut served) = device.take(alloc) else {
        return Answer::NoDevice;
    };
    let answer = served.lost(target, lun, page);
    device.put(served);
    answer
}

/// Gives the host the next page that it is to write.
#[tactic(auto, using(crate::proofs::LiveServe::serving, crate::proofs::LiveServe::without))]
pub fn give(
    device: &mut LiveDevice,
    alloc: Global,
    target: u8,
    lun: u16,
    page: &mut u64,
    bytes: &mut [u8],
    found: &mut bool,
) -> Answer
    ensures { ServingLive (GivesPage target lun page.old bytes.old found.old page.new bytes.new found.new)
        ((page.new ≡ page.old) × (bytes.new ≡ bytes.old) × (found.new ≡ found.old))
        (live_at device.old) result (live_at device.new) }
{
    let Some(mut served) = device.take(alloc) else {
        return Answer::NoDevice;
    };
    let answer = served.give(target, lun, page, bytes, found);
    device.put(served);
    answer
}

/// Notes that the host's write of a page is over.
#[tactic(auto, using(crate::proofs::LiveServe::serving, crate::proofs::LiveServe::without))]
pub fn written(
    device: &mut LiveDevice,
    alloc: Global,
    target: u8,
    lun: u16,
    page: u64,
    kept: bool,
) -> Answer
    ensures { ServingLive (KeepsPage target lun page kept) (Unit {0}) (live_at device.old) result (live_at device.new) }
{
    let Some(mut served) = device.take(alloc) else {
        return Answer::NoDevice;
    };
    let answer = served.written(target, lun, page, kept);
    device.put(served);
    answer
}

/// Notes that the host can't write a page.
#[tactic(auto, using(crate::proofs::LiveServe::serving, crate::proofs::LiveServe::without))]
pub fn denied(device: &mut LiveDevice, alloc: Global, target: u8, lun: u16, page: u64) -> Answer
    ensures { ServingLive (DeniesPage target lun page) (Unit {0}) (live_at device.old) result (live_at device.new) }
{
    let Some(mut served) = device.take(alloc) else {
        return Answer::NoDevice;
    };
    let answer = served.denied(target, lun, page);
    device.put(served);
    answer
}

/// Has each command that waits tried again, and tells how many these are.
#[tactic(auto, using(crate::proofs::LiveServe::serving, crate::proofs::LiveServe::without))]
pub fn wake(device: &mut LiveDevice, alloc: Global, waiting: &mut u64) -> Answer
    ensures { ServingLive (Wakes waiting.old waiting.new) (waiting.new ≡ waiting.old) (live_at device.old) result
        (live_at device.new) }
{
    let Some(mut served) = device.take(alloc) else {
        return Answer::NoDevice;
    };
    let answer = served.wake(waiting);
    device.put(served);
    answer
}
