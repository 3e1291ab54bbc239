//! A device opens over disks of zeros, some of which are on storages.

ghost use Rattle.std.specs.Prelude.{◌<◌, ◌^◌, OnOk};
ghost use Rattle.stored_world.specs.Inner.Opening.{AddsDisk};

use crate::hosted::HostedDisk;
use crate::stored::StoredWorld;
use backed_store::{BackedDisk, Disk};
use block_store::PagedStore;
use config::{Config, StartFault};
use foundation::Record;
use host_storage::Storage;
use std::alloc::{AllocError, Global};
use world::World;

/// The blocks that each disk has less than.
const MOST: u64 = 1 << 60;

/// Adds a disk of so many blocks of zeros, less than 2^60 on a storage: in memory, or on a storage, and at most so many of its
/// pages in memory. It fails where memory runs out.
fn add_disk(
    alloc: Global,
    blocks: u64,
    cache: Option<usize>,
    disks: &mut Vec<Disk>,
    hosted: &mut Vec<Option<HostedDisk>>,
) -> Result<(), AllocError>
    requires few { blocks < 2 ^ 60 }
    ensures adds { OnOk result (AddsDisk blocks cache disks.old.items hosted.old.items disks.new.items hosted.new.items) }
{
    match cache {
        None => {
            disks.push(Disk::Whole(PagedStore::new(alloc, blocks)))?;
            hosted.push(None)?;
        }
        Some(budget) => {
            let disk = BackedDisk::new(alloc, blocks, budget, Record::new());
            disks.push(Disk::Backed(disk))?;
            hosted.push(Some(HostedDisk {
                storage: Storage::new(alloc),
                capacity: blocks,
            }))?;
        }
    }
    Ok(())
}

impl StoredWorld {
    ghost use Rattle.std.specs.Prelude.{◌≡◌, true, IfOk, MatchResult};
    ghost use Rattle.config.specs.Config.{is_config};
    ghost use Rattle.device_model.specs.World as plain;
    ghost use Rattle.stored_world.specs.Inner.Device.{world_of};
    ghost use Rattle.stored_world.specs.Inner.Opening.{AreCachesFor, IsStoredOpening, StoredRefusedAs};

    /// Opens the device of a configuration over disks of zeros, each of its unit's capacity. Where `caches` has a number at the
    /// unit's index, the disk is on a storage of zeros, with at most so many of its pages of 8 blocks in memory. Else all of it is
    /// in memory, and it has no storage. No clause says how many pages are in memory.
    ///
    /// Answers `BadConfig` where one of these holds, unless memory was refused before:
    ///
    /// - the configuration isn't valid;
    /// - there aren't as many caches as units;
    /// - a unit that doesn't tell of a write cache has a number there.
    ///
    /// Answers `NoMemory` where memory was refused.
    pub fn new(
        alloc: Global,
        config: &Config,
        caches: &[Option<usize>],
    ) -> Result<StoredWorld, StartFault>
        ensures opening { MatchResult result
            (λ s. (is_config config.now ≡ true) × AreCachesFor config.now.units.items caches.now × IsStoredOpening config.now caches.now s)
            (λ fault. StoredRefusedAs config.now caches.now fault) }
        ensures opens { IfOk result (λ s. plain.Opens (world_of s)) }
    {
        if config.units.len() != caches.len() {
            return Err(StartFault::BadConfig);
        }
        let mut disks = Vec::new(alloc);
        let mut hosted = Vec::new(alloc);
        for unit_index in 0..caches.len() {
            let blocks = config.units[unit_index].blocks;
            if blocks >= MOST {
                return Err(StartFault::BadConfig);
            }
            match add_disk(alloc, blocks, caches[unit_index], &mut disks, &mut hosted) {
                Ok(()) => {}
                Err(_) => return Err(StartFault::NoMemory),
            }
        }
        match World::new_with(alloc, config, &mut disks) {
            Ok(world) => Ok(StoredWorld {
                alloc,
                world,
                disks: hosted,
            }),
            Err(fault) => Err(fault),
        }
    }
}
