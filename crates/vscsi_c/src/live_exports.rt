//! The exports for a device on live memory, which C calls: each is one call, and its answer's number.

ghost use Rattle.std.specs.Prelude.{◌≡◌, is_some};
ghost use Rattle.c_calls.specs.Answers.{Tells};
ghost use Rattle.c_calls.specs.Kept.{live_at, disks_at};
ghost use Rattle.c_calls.specs.LiveAsked.{ServesAskedPortion};
ghost use Rattle.c_calls.specs.Live.{ServingLive, Maps, AsksDriver, ServesPortion, Owes, IsStatus, Breaks, Resets, Resizes, Holds, Gives, TellsCounts, TellsPosition, TellsChanges, CreatesLive, DestroysLive};
ghost use Rattle.c_calls.specs.LiveDisks.{CreatesLiveOver, ClosesLive};
ghost use Rattle.c_calls.specs.Storage.{OwesPage, WantsPage, LoadsPage, FailsPage, LosesPage, GivesPage, KeepsPage, DeniesPage, Wakes};

use c_calls::{
    BlockRange, Disk, Fault, LiveDevice, Region, RingPosition, Told, UnitCounts, WantedRing,
    WantedUnit, live_calls, live_handing, storage_calls,
};
use std::alloc::Global;

/// Returns true if there is a device.
#[unsafe(no_mangle)]
pub extern "C" fn vscsi_raw_live_is_there(device: &mut LiveDevice) -> bool
    ensures there { result ≡ is_some (live_at device.old) }
    ensures same { live_at device.new ≡ live_at device.old }
{
    device.is_there()
}

/// Makes a device on live memory where there is none, over what C mapped.
#[unsafe(no_mangle)]
pub extern "C" fn vscsi_raw_live_create(
    device: &mut LiveDevice,
    alloc: Global,
    map: u64,
    features: u64,
    rings: &[WantedRing],
    units: &[WantedUnit],
    fault: &mut Fault,
) -> u32
    ensures { Tells result (λ a. CreatesLive map features rings.now units.now fault.old fault.new (live_at device.old)
        a (live_at device.new)) }
{
    live_calls::create(device, alloc, map, features, rings, units, fault).code()
}

/// Makes a device on live memory over disks where there is none.
#[unsafe(no_mangle)]
pub extern "C" fn vscsi_raw_live_create_with(
    device: &mut LiveDevice,
    alloc: Global,
    map: u64,
    features: u64,
    rings: &[WantedRing],
    units: &[WantedUnit],
    disks: &mut [Disk],
    fault: &mut Fault,
) -> u32
    ensures { Tells result (λ a. CreatesLiveOver map features rings.now units.now fault.old fault.new (live_at device.old)
        (disks_at disks.old) a (live_at device.new) (disks_at disks.new)) }
{
    live_handing::create_with(device, alloc, map, features, rings, units, disks, fault).code()
}

/// Ends a device, and puts its disks into slots where there is none.
#[unsafe(no_mangle)]
pub extern "C" fn vscsi_raw_live_close(
    device: &mut LiveDevice,
    alloc: Global,
    disks: &mut [Disk],
) -> u32
    ensures { Tells result (λ a. ClosesLive (live_at device.old) (disks_at disks.old) a (live_at device.new)
        (disks_at disks.new)) }
{
    live_handing::close(device, alloc, disks).code()
}

/// Lets go of a device and of all its memory.
#[unsafe(no_mangle)]
pub extern "C" fn vscsi_raw_live_destroy(device: &mut LiveDevice, alloc: Global) -> u32
    ensures { Tells result (λ a. DestroysLive (live_at device.old) a (live_at device.new)) }
{
    live_calls::destroy(device, alloc).code()
}

/// Notes which queues lie in the regions that C mapped.
#[unsafe(no_mangle)]
pub extern "C" fn vscsi_raw_live_map(
    device: &mut LiveDevice,
    alloc: Global,
    regions: &[Region],
) -> u32
    ensures { Tells result (λ a. ServingLive (Maps regions.now) (Unit {0}) (live_at device.old) a (live_at device.new)) }
{
    live_calls::map(device, alloc, regions).code()
}

/// Asks the driver of a queue to notify the device of the next chain, or of none.
#[unsafe(no_mangle)]
pub extern "C" fn vscsi_raw_live_ask(
    device: &mut LiveDevice,
    alloc: Global,
    queue: u16,
    notify: bool,
) -> u32
    ensures { Tells result (λ a. ServingLive (AsksDriver queue notify) (Unit {0})
        (live_at device.old) a (live_at device.new)) }
{
    live_calls::ask(device, alloc, queue, notify).code()
}

/// Serves some queues in at most so many steps, and says in how many, and whether more is left to do.
#[unsafe(no_mangle)]
pub extern "C" fn vscsi_raw_live_serve(
    device: &mut LiveDevice,
    alloc: Global,
    queues: u32,
    most: u64,
    steps: &mut u64,
    more: &mut bool,
) -> u32
    ensures { Tells result (λ a. ServingLive (ServesPortion queues most steps.old more.old steps.new more.new)
        ((steps.new ≡ steps.old) × (more.new ≡ more.old)) (live_at device.old) a (live_at device.new)) }
{
    live_calls::serve(device, alloc, queues, most, steps, more).code()
}

/// Serves some queues in at most so many steps, and asks their drivers for the next chains once nothing is left.
#[unsafe(no_mangle)]
pub extern "C" fn vscsi_raw_live_serve_and_ask(
    device: &mut LiveDevice,
    alloc: Global,
    queues: u32,
    most: u64,
    steps: &mut u64,
    more: &mut bool,
) -> u32
    ensures { Tells result (λ a. ServingLive (ServesAskedPortion queues most steps.old more.old steps.new more.new)
        ((steps.new ≡ steps.old) × (more.new ≡ more.old)) (live_at device.old) a (live_at device.new)) }
{
    live_calls::serve_and_ask(device, alloc, queues, most, steps, more).code()
}

/// Tells which queues' drivers are owed a notification since this was last asked.
#[unsafe(no_mangle)]
pub extern "C" fn vscsi_raw_live_owed(
    device: &mut LiveDevice,
    alloc: Global,
    queues: &mut u32,
) -> u32
    ensures { Tells result (λ a. ServingLive (Owes queues.new) (queues.new ≡ queues.old)
        (live_at device.old) a (live_at device.new)) }
{
    live_calls::owed(device, alloc, queues).code()
}

/// Tells the device's status.
#[unsafe(no_mangle)]
pub extern "C" fn vscsi_raw_live_status(
    device: &mut LiveDevice,
    alloc: Global,
    status: &mut u8,
) -> u32
    ensures { Tells result (λ a. ServingLive (IsStatus status.new) (status.new ≡ status.old)
        (live_at device.old) a (live_at device.new)) }
{
    live_calls::status(device, alloc, status).code()
}

/// Tells what broke a queue, or that it isn't mapped.
#[unsafe(no_mangle)]
pub extern "C" fn vscsi_raw_live_broken(
    device: &mut LiveDevice,
    alloc: Global,
    queue: u16,
    fault: &mut u32,
) -> u32
    ensures { Tells result (λ a. ServingLive (Breaks queue fault.old fault.new) (fault.new ≡ fault.old)
        (live_at device.old) a (live_at device.new)) }
{
    live_calls::broken(device, alloc, queue, fault).code()
}

/// Tells where a queue goes on.
#[unsafe(no_mangle)]
pub extern "C" fn vscsi_raw_live_position(
    device: &mut LiveDevice,
    alloc: Global,
    queue: u16,
    position: &mut RingPosition,
) -> u32
    ensures { Tells result (λ a. ServingLive (TellsPosition queue position.old position.new) (position.new ≡ position.old)
        (live_at device.old) a (live_at device.new)) }
{
    live_calls::position(device, alloc, queue, position).code()
}

/// Resets a unit for the operator.
#[unsafe(no_mangle)]
pub extern "C" fn vscsi_raw_live_reset(
    device: &mut LiveDevice,
    alloc: Global,
    target: u8,
    lun: u16,
) -> u32
    ensures { Tells result (λ a. ServingLive (Resets target lun) (Unit {0}) (live_at device.old) a (live_at device.new)) }
{
    live_calls::reset(device, alloc, target, lun).code()
}

/// Resizes a unit for the operator.
#[unsafe(no_mangle)]
pub extern "C" fn vscsi_raw_live_resize(
    device: &mut LiveDevice,
    alloc: Global,
    target: u8,
    lun: u16,
    blocks: u64,
) -> u32
    ensures { Tells result (λ a. ServingLive (Resizes target lun blocks) (Unit {0})
        (live_at device.old) a (live_at device.new)) }
{
    live_calls::resize(device, alloc, target, lun, blocks).code()
}

/// Tells how much a unit did.
#[unsafe(no_mangle)]
pub extern "C" fn vscsi_raw_live_counts(
    device: &mut LiveDevice,
    alloc: Global,
    target: u8,
    lun: u16,
    counts: &mut UnitCounts,
) -> u32
    ensures { Tells result (λ a. ServingLive (TellsCounts target lun counts.old counts.new) (counts.new ≡ counts.old)
        (live_at device.old) a (live_at device.new)) }
{
    live_calls::counts(device, alloc, target, lun, counts).code()
}

/// Tells how many blocks a unit has.
#[unsafe(no_mangle)]
pub extern "C" fn vscsi_raw_live_capacity(
    device: &mut LiveDevice,
    alloc: Global,
    target: u8,
    lun: u16,
    blocks: &mut u64,
) -> u32
    ensures { Tells result (λ a. ServingLive (Holds target lun blocks.old blocks.new) (blocks.new ≡ blocks.old)
        (live_at device.old) a (live_at device.new)) }
{
    live_calls::capacity(device, alloc, target, lun, blocks).code()
}

/// Reads blocks of a unit, as its commands left them.
#[unsafe(no_mangle)]
pub extern "C" fn vscsi_raw_live_blocks(
    device: &mut LiveDevice,
    alloc: Global,
    target: u8,
    lun: u16,
    first: u64,
    count: u32,
    into: &mut [u8],
) -> u32
    ensures { Tells result (λ a. ServingLive (Gives target lun first count into.old into.new) (into.new ≡ into.old)
        (live_at device.old) a (live_at device.new)) }
{
    live_calls::blocks(device, alloc, target, lun, first, count, into).code()
}

/// Tells which blocks of a unit may have changed since a place of its history.
#[unsafe(no_mangle)]
pub extern "C" fn vscsi_raw_live_changed(
    device: &mut LiveDevice,
    alloc: Global,
    target: u8,
    lun: u16,
    told: &mut Told,
    room: &mut [BlockRange],
) -> u32
    ensures { Tells result (λ a. ServingLive (TellsChanges target lun told.old room.old told.new room.new) ((told.new ≡ told.old) × (room.new ≡ room.old))
        (live_at device.old) a (live_at device.new)) }
{
    live_calls::changed(device, alloc, target, lun, told, room).code()
}

/// Tells the next page of a unit's disk that the host is to read.
#[unsafe(no_mangle)]
pub extern "C" fn vscsi_raw_live_wanted(
    device: &mut LiveDevice,
    alloc: Global,
    target: u8,
    lun: u16,
    page: &mut u64,
    found: &mut bool,
) -> u32
    ensures { Tells result (λ a. ServingLive (WantsPage target lun page.old found.old page.new found.new)
        ((page.new ≡ page.old) × (found.new ≡ found.old)) (live_at device.old) a (live_at device.new)) }
{
    storage_calls::wanted(device, alloc, target, lun, page, found).code()
}

/// Takes the bytes of a page that the host read. The host owes that its storage has them.
#[unsafe(no_mangle)]
pub extern "C" fn vscsi_raw_live_load(
    device: &mut LiveDevice,
    alloc: Global,
    target: u8,
    lun: u16,
    page: u64,
    bytes: &[u8],
) -> u32
    requires owed { OwesPage target lun page bytes.now (live_at device.old) }
    ensures { Tells result (λ a. ServingLive (LoadsPage target lun page bytes.now) (Unit {0}) (live_at device.old) a
        (live_at device.new)) }
{
    storage_calls::load(device, alloc, target, lun, page, bytes).code()
}

/// Notes that a page doesn't come.
#[unsafe(no_mangle)]
pub extern "C" fn vscsi_raw_live_load_failed(
    device: &mut LiveDevice,
    alloc: Global,
    target: u8,
    lun: u16,
    page: u64,
) -> u32
    ensures { Tells result (λ a. ServingLive (FailsPage target lun) (Unit {0}) (live_at device.old) a (live_at device.new)) }
{
    storage_calls::load_failed(device, alloc, target, lun, page).code()
}

/// Notes that the host can't read a page.
#[unsafe(no_mangle)]
pub extern "C" fn vscsi_raw_live_lost(
    device: &mut LiveDevice,
    alloc: Global,
    target: u8,
    lun: u16,
    page: u64,
) -> u32
    ensures { Tells result (λ a. ServingLive (LosesPage target lun page) (Unit {0}) (live_at device.old) a (live_at device.new)) }
{
    storage_calls::lost(device, alloc, target, lun, page).code()
}

/// Gives the host the next page that it is to write.
#[unsafe(no_mangle)]
pub extern "C" fn vscsi_raw_live_give(
    device: &mut LiveDevice,
    alloc: Global,
    target: u8,
    lun: u16,
    page: &mut u64,
    bytes: &mut [u8],
    found: &mut bool,
) -> u32
    ensures { Tells result (λ a. ServingLive (GivesPage target lun page.old bytes.old found.old page.new bytes.new found.new)
        ((page.new ≡ page.old) × (bytes.new ≡ bytes.old) × (found.new ≡ found.old))
        (live_at device.old) a (live_at device.new)) }
{
    storage_calls::give(device, alloc, target, lun, page, bytes, found).code()
}

/// Notes that the host's write of a page is over.
#[unsafe(no_mangle)]
pub extern "C" fn vscsi_raw_live_written(
    device: &mut LiveDevice,
    alloc: Global,
    target: u8,
    lun: u16,
    page: u64,
    kept: bool,
) -> u32
    ensures { Tells result (λ a. ServingLive (KeepsPage target lun page kept) (Unit {0}) (live_at device.old) a
        (live_at device.new)) }
{
    storage_calls::written(device, alloc, target, lun, page, kept).code()
}

/// Notes that the host can't write a page.
#[unsafe(no_mangle)]
pub extern "C" fn vscsi_raw_live_denied(
    device: &mut LiveDevice,
    alloc: Global,
    target: u8,
    lun: u16,
    page: u64,
) -> u32
    ensures { Tells result (λ a. ServingLive (DeniesPage target lun page) (Unit {0}) (live_at device.old) a (live_at device.new)) }
{
    storage_calls::denied(device, alloc, target, lun, page).code()
}

/// Has each command that waits tried again, and tells how many these are.
#[unsafe(no_mangle)]
pub extern "C" fn vscsi_raw_live_wake(
    device: &mut LiveDevice,
    alloc: Global,
    waiting: &mut u64,
) -> u32
    ensures { Tells result (λ a. ServingLive (Wakes waiting.old waiting.new) (waiting.new ≡ waiting.old) (live_at device.old)
        a (live_at device.new)) }
{
    storage_calls::wake(device, alloc, waiting).code()
}
