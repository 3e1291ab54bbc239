//! The host hands in pages, and takes those that are to be written.

use crate::stored::StoredWorld;
use backed_store::GivenPage;
use foundation::NoMemory;
use host_storage::Storage;

impl StoredWorld {
    ghost use Rattle.std.specs.Prelude.{◌≡◌, ℕ, List, Some, slice_get, IsTrue, IsFalse, IfOk, OnErr, IfSome, IfNone};
    ghost use Rattle.block_store.specs.Storage.{Dealing, Ledger};
    ghost use Rattle.unit_model.specs.Unit.{PlainUnit};
    ghost use Rattle.device_steps.specs.Paging.{HasPage};
    ghost use Rattle.world.specs.Paging.{DealsAsPromised};
    ghost use Rattle.stored_world.specs.Inner.Device.{world_of};
    ghost use Rattle.stored_world.specs.Inner.Stored.{IsStorageBy};

    /// Returns the storage of the disk of the unit at an index, as the host dealt with it; `None` where the disk is in memory, or
    /// the storage isn't there any more.
    pub fn storage(&self, unit_index: u16) -> Option<&Storage>
        ensures dealt { IfSome result (λ s. (u : PlainUnit) → slice_get (world_of self.now).units unit_index ≡ Some u →
            (l : Ledger) → u.storage ≡ Some l → IsStorageBy l s.now) }
    {
        let unit_index = unit_index as usize;
        if unit_index >= self.disks.len() {
            return None;
        }
        match &self.disks[unit_index] {
            Some(disk) => Some(&disk.storage),
            None => None,
        }
    }

    /// Returns the next page that the host is to read, as [`World::next_wanted`](world::World::next_wanted) does.
    pub fn next_wanted(&mut self, unit_index: u16) -> Option<u64>
        ensures same { world_of self.new ≡ world_of self.old }
        ensures page { IfSome result (λ page. HasPage (world_of self.old).units unit_index page) }
    {
        self.world.next_wanted(unit_index)
    }

    /// Reads a page that the host was asked for from its storage, and hands it in. Returns true if it now stands in memory.
    /// `NoMemory` where memory was refused, with nothing changed.
    pub fn load(&mut self, unit_index: u16, page: u64) -> Result<bool, NoMemory>
        ensures loaded { IfOk result (λ done. IsTrue done →
            DealsAsPromised (world_of self.old) unit_index (Dealing.Load page) (world_of self.new)) }
        ensures otherwise { IfOk result (λ done. IsFalse done → world_of self.new ≡ world_of self.old) }
    {
        let at = unit_index as usize;
        if at >= self.disks.len() {
            return Ok(false);
        }
        let Some(disk) = &self.disks[at] else {
            return Ok(false);
        };
        if !Storage::has_page(page) {
            return Ok(false);
        }
        let bytes = disk.storage.read(self.alloc, page)?;
        self.world.load(unit_index, page, bytes.as_slice())
    }

    /// Says that the host doesn't hand in a page, as [`World::load_failed`](world::World::load_failed) does.
    pub fn load_failed(&mut self, unit_index: u16, page: u64) -> bool
        ensures same { world_of self.new ≡ world_of self.old }
    {
        self.world.load_failed(unit_index, page)
    }

    /// Says that the host can't read a page, as [`World::lost`](world::World::lost) does.
    pub fn lost(&mut self, unit_index: u16, page: u64) -> bool
        ensures lost { IsTrue result → DealsAsPromised (world_of self.old) unit_index (Dealing.Lose page) (world_of self.new) }
        ensures otherwise { IsFalse result → world_of self.new ≡ world_of self.old }
    {
        self.world.lost(unit_index, page)
    }

    /// Takes the next page that is to be written, and returns its number; `None` where none is left. `NoMemory` where memory
    /// was refused: the storage may be gone then.
    pub fn give(&mut self, unit_index: u16) -> Result<Option<u64>, NoMemory>
        ensures given { IfOk result (λ given. IfSome given (λ page. (bytes : List ℕ) ×
            DealsAsPromised (world_of self.old) unit_index (Dealing.Give page bytes) (world_of self.new))) }
        ensures none { IfOk result (λ given. IfNone given (world_of self.new ≡ world_of self.old)) }
    {
        let Some(mut disk) = self.take_disk(unit_index) else {
            return Ok(None);
        };
        match self.world.give(unit_index) {
            Ok(Some(GivenPage { page, bytes })) => {
                if !Storage::has_page(page) {
                    return Err(NoMemory);
                }
                disk.storage.give(page, bytes.as_slice())?;
                self.put_disk(unit_index, disk);
                Ok(Some(page))
            }
            Ok(None) => {
                self.put_disk(unit_index, disk);
                Ok(None)
            }
            Err(fault) => {
                self.put_disk(unit_index, disk);
                Err(fault)
            }
        }
    }

    /// Says what became of the write of a page: the storage keeps it as it was given, or the write failed. Returns true if the
    /// storage has the page so now. `NoMemory` where memory was refused: the storage may be gone then.
    pub fn written(&mut self, unit_index: u16, page: u64, kept: bool) -> Result<bool, NoMemory>
        ensures told { IfOk result (λ done. IsTrue done → IsTrue kept) }
        ensures kept { IfOk result (λ done. IsTrue done →
            DealsAsPromised (world_of self.old) unit_index (Dealing.Keep page) (world_of self.new)) }
        ensures otherwise { IfOk result (λ done. IsFalse done → world_of self.new ≡ world_of self.old) }
    {
        let Some(mut disk) = self.take_disk(unit_index) else {
            return Ok(false);
        };
        match self.world.written(unit_index, page, kept) {
            Ok(true) => {
                if !Storage::has_page(page) {
                    return Err(NoMemory);
                }
                disk.storage.keep(self.alloc, page)?;
                self.put_disk(unit_index, disk);
                Ok(true)
            }
            Ok(false) => {
                self.put_disk(unit_index, disk);
                Ok(false)
            }
            Err(fault) => {
                self.put_disk(unit_index, disk);
                Err(fault)
            }
        }
    }

    /// Says that the host can't write a page, as [`World::denied`](world::World::denied) does. The storage stays as it is.
    pub fn denied(&mut self, unit_index: u16, page: u64) -> Result<bool, NoMemory>
        ensures denied { IfOk result (λ done. IsTrue done →
            DealsAsPromised (world_of self.old) unit_index (Dealing.Deny page) (world_of self.new)) }
        ensures otherwise { IfOk result (λ done. IsFalse done → world_of self.new ≡ world_of self.old) }
        ensures err { OnErr result (world_of self.new ≡ world_of self.old) }
    {
        self.world.denied(unit_index, page)
    }
}
