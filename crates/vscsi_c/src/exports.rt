//! The exports, which C calls: each is one call, and its answer's number. The header says what C owes for each: a
//! `Device` that C made of zeros or that a call left, and room where a call writes.

ghost use Rattle.std.specs.Prelude.{◌≡◌, ℕ, List};
ghost use Rattle.c_calls.specs.Answers.{Tells};
ghost use Rattle.c_calls.specs.Kept.{kept_in, disk_at, disks_at};
ghost use Rattle.c_calls.specs.Calls.{Serving, Settles, ServesPortion, Pokes, Peeks, Owes, IsStatus, Breaks, Counts, Resets, Resizes, Holds, Gives, Creates, Destroys};
ghost use Rattle.c_calls.specs.Changes.{TellsChanges};
ghost use Rattle.c_calls.specs.Counts.{TellsCounts};
ghost use Rattle.c_calls.specs.Position.{TellsPosition};
ghost use Rattle.c_calls.specs.Disks.{CreatesBacked, has_backed, CreatesDisk, DestroysDisk, OnDisk, HasBlocks, LoadsBlocks, Saves, CreatesOver, Closes};

use c_calls::{
    BlockRange, Device, Disk, Fault, RingPosition, Told, UnitCounts, WantedQueue, WantedUnit,
    backed, calls, disks, handing,
};
use std::alloc::Global;

/// Makes a device where there is none.
#[unsafe(no_mangle)]
pub extern "C" fn vscsi_raw_create(
    device: &mut Device,
    alloc: Global,
    pages: u32,
    features: u64,
    queues: &[WantedQueue],
    units: &[WantedUnit],
    fault: &mut Fault,
) -> u32
    ensures { Tells result (λ a. Creates pages features queues.now units.now fault.old fault.new (kept_in device.old)
        a (kept_in device.new)) }
{
    calls::create(device, alloc, pages, features, queues, units, fault).code()
}

/// Lets go of a device and of all its memory.
#[unsafe(no_mangle)]
pub extern "C" fn vscsi_raw_destroy(device: &mut Device, alloc: Global) -> u32
    ensures { Tells result (λ a. Destroys (kept_in device.old) a (kept_in device.new)) }
{
    calls::destroy(device, alloc).code()
}

/// Serves what there is, and says in how many steps.
#[unsafe(no_mangle)]
pub extern "C" fn vscsi_raw_settle(device: &mut Device, alloc: Global, steps: &mut u64) -> u32
    ensures { Tells result (λ a. Serving (Settles steps.old steps.new) (steps.new ≡ steps.old) (kept_in device.old) a
        (kept_in device.new)) }
{
    calls::settle(device, alloc, steps).code()
}

/// Serves some queues in at most so many steps, and says in how many, and whether more is left to do.
#[unsafe(no_mangle)]
pub extern "C" fn vscsi_raw_serve(
    device: &mut Device,
    alloc: Global,
    queues: u32,
    most: u64,
    steps: &mut u64,
    more: &mut bool,
) -> u32
    ensures { Tells result (λ a. Serving (ServesPortion queues most steps.old more.old steps.new more.new)
        ((steps.new ≡ steps.old) × (more.new ≡ more.old)) (kept_in device.old) a (kept_in device.new)) }
{
    calls::serve(device, alloc, queues, most, steps, more).code()
}

/// Writes bytes as the guest.
#[unsafe(no_mangle)]
pub extern "C" fn vscsi_raw_poke(device: &mut Device, alloc: Global, addr: u64, bytes: &[u8]) -> u32
    ensures { Tells result (λ a. Serving (Pokes (record { addr = addr; bytes = bytes.now })) (Unit {0})
        (kept_in device.old) a (kept_in device.new)) }
{
    calls::poke(device, alloc, addr, bytes).code()
}

/// Reads guest memory.
#[unsafe(no_mangle)]
pub extern "C" fn vscsi_raw_peek(
    device: &mut Device,
    alloc: Global,
    addr: u64,
    into: &mut [u8],
) -> u32
    ensures { Tells result (λ a. Serving (Peeks addr into.old into.new) (into.new ≡ into.old) (kept_in device.old) a
        (kept_in device.new)) }
{
    calls::peek(device, alloc, addr, into).code()
}

/// Returns whose drivers are owed a notification since this was last asked.
#[unsafe(no_mangle)]
pub extern "C" fn vscsi_raw_owed(device: &mut Device, alloc: Global, queues: &mut u32) -> u32
    ensures { Tells result (λ a. Serving (Owes queues.new) (queues.new ≡ queues.old) (kept_in device.old) a
        (kept_in device.new)) }
{
    calls::owed(device, alloc, queues).code()
}

/// Tells the device's status.
#[unsafe(no_mangle)]
pub extern "C" fn vscsi_raw_status(device: &mut Device, alloc: Global, status: &mut u8) -> u32
    ensures { Tells result (λ a. Serving (IsStatus status.new) (status.new ≡ status.old) (kept_in device.old) a
        (kept_in device.new)) }
{
    calls::status(device, alloc, status).code()
}

/// Tells what broke a queue.
#[unsafe(no_mangle)]
pub extern "C" fn vscsi_raw_broken(
    device: &mut Device,
    alloc: Global,
    queue: u16,
    fault: &mut u32,
) -> u32
    ensures { Tells result (λ a. Serving (Breaks queue fault.old fault.new) (fault.new ≡ fault.old)
        (kept_in device.old) a (kept_in device.new)) }
{
    calls::broken(device, alloc, queue, fault).code()
}

/// Tells how many chains a queue accepted, and how many of them were used.
#[unsafe(no_mangle)]
pub extern "C" fn vscsi_raw_progress(
    device: &mut Device,
    alloc: Global,
    queue: u16,
    accepted: &mut u64,
    used: &mut u64,
) -> u32
    ensures { Tells result (λ a. Serving (Counts queue accepted.old used.old accepted.new used.new)
        ((accepted.new ≡ accepted.old) × (used.new ≡ used.old)) (kept_in device.old) a (kept_in device.new)) }
{
    calls::progress(device, alloc, queue, accepted, used).code()
}

/// Tells where a queue goes on.
#[unsafe(no_mangle)]
pub extern "C" fn vscsi_raw_position(
    device: &mut Device,
    alloc: Global,
    queue: u16,
    position: &mut RingPosition,
) -> u32
    ensures { Tells result (λ a. Serving (TellsPosition queue position.old position.new) (position.new ≡ position.old)
        (kept_in device.old) a (kept_in device.new)) }
{
    calls::position(device, alloc, queue, position).code()
}

/// Resets a unit for the operator.
#[unsafe(no_mangle)]
pub extern "C" fn vscsi_raw_reset(device: &mut Device, alloc: Global, target: u8, lun: u16) -> u32
    ensures { Tells result (λ a. Serving (Resets target lun) (Unit {0}) (kept_in device.old) a (kept_in device.new)) }
{
    calls::reset(device, alloc, target, lun).code()
}

/// Resizes a unit for the operator.
#[unsafe(no_mangle)]
pub extern "C" fn vscsi_raw_resize(
    device: &mut Device,
    alloc: Global,
    target: u8,
    lun: u16,
    blocks: u64,
) -> u32
    ensures { Tells result (λ a. Serving (Resizes target lun blocks) (Unit {0}) (kept_in device.old) a
        (kept_in device.new)) }
{
    calls::resize(device, alloc, target, lun, blocks).code()
}

/// Tells how much a unit did.
#[unsafe(no_mangle)]
pub extern "C" fn vscsi_raw_counts(
    device: &mut Device,
    alloc: Global,
    target: u8,
    lun: u16,
    counts: &mut UnitCounts,
) -> u32
    ensures { Tells result (λ a. Serving (TellsCounts target lun counts.old counts.new) (counts.new ≡ counts.old)
        (kept_in device.old) a (kept_in device.new)) }
{
    calls::counts(device, alloc, target, lun, counts).code()
}

/// Tells how many blocks a unit has.
#[unsafe(no_mangle)]
pub extern "C" fn vscsi_raw_capacity(
    device: &mut Device,
    alloc: Global,
    target: u8,
    lun: u16,
    blocks: &mut u64,
) -> u32
    ensures { Tells result (λ a. Serving (Holds target lun blocks.old blocks.new) (blocks.new ≡ blocks.old)
        (kept_in device.old) a (kept_in device.new)) }
{
    calls::capacity(device, alloc, target, lun, blocks).code()
}

/// Reads blocks of a unit, as its commands left them.
#[unsafe(no_mangle)]
pub extern "C" fn vscsi_raw_blocks(
    device: &mut Device,
    alloc: Global,
    target: u8,
    lun: u16,
    first: u64,
    count: u32,
    into: &mut [u8],
) -> u32
    ensures { Tells result (λ a. Serving (Gives target lun first count into.old into.new) (into.new ≡ into.old)
        (kept_in device.old) a (kept_in device.new)) }
{
    calls::blocks(device, alloc, target, lun, first, count, into).code()
}

/// Tells which blocks of a unit may have changed since a place of its history.
#[unsafe(no_mangle)]
pub extern "C" fn vscsi_raw_changed(
    device: &mut Device,
    alloc: Global,
    target: u8,
    lun: u16,
    told: &mut Told,
    room: &mut [BlockRange],
) -> u32
    ensures { Tells result (λ a. Serving (TellsChanges target lun told.old room.old told.new room.new)
        ((told.new ≡ told.old) × (room.new ≡ room.old)) (kept_in device.old) a (kept_in device.new)) }
{
    calls::changed(device, alloc, target, lun, told, room).code()
}

/// Makes a disk of zeros where there is none.
#[unsafe(no_mangle)]
pub extern "C" fn vscsi_raw_disk_create(disk: &mut Disk, alloc: Global, blocks: u64) -> u32
    ensures { Tells result (λ a. CreatesDisk blocks (disk_at disk.old) a (disk_at disk.new)) }
{
    disks::create_disk(disk, alloc, blocks).code()
}

/// Makes a disk whose pages come and go where there is none, over a storage that has these bytes.
#[unsafe(no_mangle)]
pub extern "C" fn vscsi_raw_disk_create_backed(
    disk: &mut Disk,
    alloc: Global,
    blocks: u64,
    most_pages: usize,
) -> u32
    ghost content: { List ℕ }
    ensures { Tells result (λ a. CreatesBacked content blocks most_pages (disk_at disk.old) a (disk_at disk.new)) }
{
    backed::create(disk, alloc, blocks, most_pages).code()
}

/// Returns true if there is a disk whose pages come and go.
#[unsafe(no_mangle)]
pub extern "C" fn vscsi_raw_disk_is_backed(disk: &mut Disk, alloc: Global) -> bool
    ensures told { result ≡ has_backed (disk_at disk.old) }
    ensures same { disk_at disk.new ≡ disk_at disk.old }
{
    backed::is_backed(disk, alloc)
}

/// Lets go of a disk and of all its memory.
#[unsafe(no_mangle)]
pub extern "C" fn vscsi_raw_disk_destroy(disk: &mut Disk, alloc: Global) -> u32
    ensures { Tells result (λ a. DestroysDisk (disk_at disk.old) a (disk_at disk.new)) }
{
    disks::destroy_disk(disk, alloc).code()
}

/// Tells how many blocks a disk has.
#[unsafe(no_mangle)]
pub extern "C" fn vscsi_raw_disk_blocks(disk: &Disk, blocks: &mut u64) -> u32
    ensures { Tells result (λ a. HasBlocks blocks.old (disk_at disk.now) a blocks.new) }
{
    disks::disk_blocks(disk, blocks).code()
}

/// Puts bytes over blocks of a disk.
#[unsafe(no_mangle)]
pub extern "C" fn vscsi_raw_disk_load(
    disk: &mut Disk,
    alloc: Global,
    first: u64,
    count: u32,
    bytes: &[u8],
) -> u32
    ensures { Tells result (λ a. OnDisk (LoadsBlocks first count bytes.now) (Unit {0}) (disk_at disk.old) a
        (disk_at disk.new)) }
{
    disks::load(disk, alloc, first, count, bytes).code()
}

/// Copies blocks of a disk out.
#[unsafe(no_mangle)]
pub extern "C" fn vscsi_raw_disk_save(
    disk: &mut Disk,
    alloc: Global,
    first: u64,
    count: u32,
    into: &mut [u8],
) -> u32
    ensures { Tells result (λ a. OnDisk (Saves first count into.old into.new) (into.new ≡ into.old) (disk_at disk.old) a
        (disk_at disk.new)) }
{
    disks::save(disk, alloc, first, count, into).code()
}

/// Makes a device over disks where there is none.
#[unsafe(no_mangle)]
pub extern "C" fn vscsi_raw_create_with(
    device: &mut Device,
    alloc: Global,
    pages: u32,
    features: u64,
    queues: &[WantedQueue],
    units: &[WantedUnit],
    disks: &mut [Disk],
    fault: &mut Fault,
) -> u32
    ensures { Tells result (λ a. CreatesOver pages features queues.now units.now fault.old fault.new (kept_in device.old)
        (disks_at disks.old) a (kept_in device.new) (disks_at disks.new)) }
{
    handing::create_with(device, alloc, pages, features, queues, units, disks, fault).code()
}

/// Ends a device, and puts its disks into slots where there is none.
#[unsafe(no_mangle)]
pub extern "C" fn vscsi_raw_close(device: &mut Device, alloc: Global, disks: &mut [Disk]) -> u32
    ensures { Tells result (λ a. Closes (kept_in device.old) (disks_at disks.old) a (kept_in device.new)
        (disks_at disks.new)) }
{
    handing::close(device, alloc, disks).code()
}
