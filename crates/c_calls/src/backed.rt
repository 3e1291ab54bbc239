//! The calls on disks whose pages come and go.

ghost use Rattle.std.specs.Prelude.{ℕ, List, ◌≡◌};
ghost use Rattle.c_calls.specs.Kept.{disk_at};
ghost use Rattle.c_calls.specs.Disks.{CreatesBacked, has_backed};

use crate::answer::Answer;
use crate::disk::Disk;
use backed_store::{BackedDisk, Disk as UnitDisk};
use foundation::Record;
use logical_unit::is_capacity;
use std::alloc::Global;

/// The least number of pages that such a disk may have in memory: some more than the largest command needs.
const LEAST_PAGES: usize = 8448;

/// Makes a disk whose pages come and go where there is none, over a storage that has these bytes. C has them, and no code of
/// the device: the clause holds of whichever they are.
pub fn create(disk: &mut Disk, alloc: Global, blocks: u64, most_pages: usize) -> Answer
    ghost content: { List ℕ }
    ensures { CreatesBacked content blocks most_pages (disk_at disk.old) result (disk_at disk.new) }
{
    if disk.is_there() {
        return Answer::InUse;
    }
    if !is_capacity(blocks) {
        return Answer::BadCapacity;
    }
    if most_pages < LEAST_PAGES {
        return Answer::BadLength;
    }
    let backed = BackedDisk::new(alloc, blocks, most_pages, Record::any());
    match Box::new(alloc, UnitDisk::Backed(backed)) {
        Ok(store) => {
            disk.put(store);
            Answer::Done
        }
        Err(_) => Answer::NoMemory,
    }
}

/// Returns true if there is a disk whose pages come and go.
pub fn is_backed(disk: &mut Disk, alloc: Global) -> bool
    ensures told { result ≡ has_backed (disk_at disk.old) }
    ensures same { disk_at disk.new ≡ disk_at disk.old }
{
    let Some(store) = disk.take(alloc) else {
        return false;
    };
    let resident = store.is_resident();
    disk.put(store);
    !resident
}
