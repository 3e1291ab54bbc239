//! The calls on disks: each takes the disk out of where C keeps it, does one thing with it, and puts it back.

ghost use Rattle.std.specs.Prelude.{ℕ, ◌≡◌, ◌≤◌, ◌<◌, ◌+◌, true, false, IsTrue};
ghost use Rattle.block_store.specs.Blocks.{is_within};
ghost use Rattle.block_store.specs.Inner.Pages.{is_beside};
ghost use Rattle.backed_store.specs.Disks.{size_of, blocks_of, hosted_of, holds, has_room};
ghost use Rattle.c_calls.specs.Kept.{disk_at};
ghost use Rattle.c_calls.specs.Disks.{CreatesDisk, DestroysDisk, OnDisk, HasBlocks, IsUnchanged, LoadsBlocks, SavesBlocks, Saves};

use crate::answer::Answer;
use crate::disk::Disk;
use backed_store::Disk as UnitDisk;
use block_store::{PagedStore, Readiness, Store};
use logical_unit::is_capacity;
use std::alloc::Global;

/// Makes a disk of zeros where there is none.
pub fn create_disk(disk: &mut Disk, alloc: Global, blocks: u64) -> Answer
    ensures { CreatesDisk blocks (disk_at disk.old) result (disk_at disk.new) }
{
    if disk.is_there() {
        return Answer::InUse;
    }
    if !is_capacity(blocks) {
        return Answer::BadCapacity;
    }
    match Box::new(alloc, UnitDisk::Whole(PagedStore::new(alloc, blocks))) {
        Ok(store) => {
            disk.put(store);
            Answer::Done
        }
        Err(_) => Answer::NoMemory,
    }
}

/// Lets go of a disk and of all its memory.
pub fn destroy_disk(disk: &mut Disk, alloc: Global) -> Answer
    ensures { DestroysDisk (disk_at disk.old) result (disk_at disk.new) }
{
    match disk.take(alloc) {
        Some(store) => {
            drop(store);
            Answer::Done
        }
        None => Answer::NoDisk,
    }
}

/// Tells how many blocks a disk has.
pub fn disk_blocks(disk: &Disk, blocks: &mut u64) -> Answer
    ensures { HasBlocks blocks.old (disk_at disk.now) result blocks.new }
{
    match disk.blocks() {
        Some(count) => {
            *blocks = count;
            Answer::Done
        }
        None => Answer::NoDisk,
    }
}

/// Returns true if blocks don't all lie on a disk.
fn is_outside(store: &UnitDisk, first: u64, count: u32) -> bool
    ensures inside { result ≡ false → first + count ≤ size_of store.now }
    ensures outside { result ≡ true → size_of store.now < first + count }
{
    let capacity = store.capacity();
    first > capacity || u64::from(count) > capacity - first
}

/// Returns true if blocks can be read at once: so always of a disk whose blocks are all in memory.
fn may_read(store: &mut UnitDisk, first: u64, count: u32) -> bool
    requires { first + count ≤ size_of store.old }
    ensures held { IsTrue result → (b : ℕ) → IsTrue (is_within first count b) → IsTrue (holds store.new b) }
    ensures blocks { blocks_of store.new ≡ blocks_of store.old }
    ensures size { size_of store.new ≡ size_of store.old }
    ensures storage { hosted_of store.new ≡ hosted_of store.old }
{
    store.ask_to_read(first, count) == Readiness::Ready
}

/// Returns true if blocks can be written over at once, as [`may_read`] does.
fn may_write(store: &mut UnitDisk, first: u64, count: u32) -> bool
    requires { first + count ≤ size_of store.old }
    ensures room { IsTrue result → (b : ℕ) → IsTrue (is_within first count b) → IsTrue (has_room store.new b) }
    ensures beside { IsTrue result → (b : ℕ) → IsTrue (is_beside first count b) → IsTrue (holds store.new b) }
    ensures blocks { blocks_of store.new ≡ blocks_of store.old }
    ensures size { size_of store.new ≡ size_of store.old }
    ensures storage { hosted_of store.new ≡ hosted_of store.old }
{
    store.ask_to_write(first, count) == Readiness::Ready
}

/// Puts bytes over blocks. Of a disk whose pages come and go, only where these are in memory.
fn load_blocks(store: &mut UnitDisk, first: u64, count: u32, bytes: &[u8]) -> Answer
    ensures { LoadsBlocks first count bytes.now store.old result store.new }
{
    if bytes.len() as u64 != u64::from(count) * 512 {
        return Answer::BadLength;
    }
    if is_outside(store, first, count) {
        return Answer::Outside;
    }
    if !may_write(store, first, count) {
        return Answer::NoMemory;
    }
    match store.write_blocks(first, bytes) {
        Ok(()) => Answer::Done,
        Err(_) => Answer::NoMemory,
    }
}

/// Copies blocks out. Of a disk whose pages come and go, only where these are in memory.
fn save_blocks(
    store: &mut UnitDisk,
    alloc: Global,
    first: u64,
    count: u32,
    into: &mut [u8],
) -> Answer
    ensures saves { SavesBlocks first count into.old into.new store.old result }
    ensures same { IsUnchanged store.old store.new }
{
    if into.len() as u64 != u64::from(count) * 512 {
        return Answer::BadLength;
    }
    if is_outside(store, first, count) {
        return Answer::Outside;
    }
    if count == 0 {
        return Answer::Done;
    }
    if !may_read(store, first, count) {
        return Answer::NoMemory;
    }
    let Ok(mut bytes) = Vec::with_capacity(alloc, into.len()) else {
        return Answer::NoMemory;
    };
    store.read_blocks(first, count, &mut bytes);
    into.copy_from_slice(bytes.as_slice());
    Answer::Done
}

/// Puts bytes over blocks of a disk.
#[tactic(auto, using(crate::proofs::Serve::handling, crate::proofs::Serve::without_disk))]
pub fn load(disk: &mut Disk, alloc: Global, first: u64, count: u32, bytes: &[u8]) -> Answer
    ensures { OnDisk (LoadsBlocks first count bytes.now) (Unit {0}) (disk_at disk.old) result (disk_at disk.new) }
{
    let Some(mut store) = disk.take(alloc) else {
        return Answer::NoDisk;
    };
    let answer = load_blocks(&mut store, first, count, bytes);
    disk.put(store);
    answer
}

/// Copies blocks of a disk out.
#[tactic(auto, using(crate::proofs::Serve::handling, crate::proofs::Serve::without_disk))]
pub fn save(disk: &mut Disk, alloc: Global, first: u64, count: u32, into: &mut [u8]) -> Answer
    ensures { OnDisk (Saves first count into.old into.new) (into.new ≡ into.old) (disk_at disk.old) result
        (disk_at disk.new) }
{
    let Some(mut store) = disk.take(alloc) else {
        return Answer::NoDisk;
    };
    let answer = save_blocks(&mut store, alloc, first, count, into);
    disk.put(store);
    answer
}
