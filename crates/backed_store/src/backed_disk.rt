//! A store whose pages come and go, and how far the latest flush of it is.

ghost use Rattle.backed_store.specs.Fences.{IsFenced};

use crate::backed::BackedStore;
use crate::dealing::GivenPage;
use crate::numbers::PAGE_BYTES;
use block_store::{BLOCK_BYTES, Readiness, Store};
use foundation::{NoMemory, Record};
use std::alloc::Global;

/// A block of zeros.
static ZEROS: [u8; BLOCK_BYTES] = [0; BLOCK_BYTES];

/// A store whose pages come and go, and how far the latest flush of it is. What the storage keeps of a page counts for the flush
/// where it is as the page was when the flush began, or later.
#[derive(Drop)]
pub struct BackedDisk {
    pub(crate) store: BackedStore,
    // The number of the latest change when the latest flush began.
    pub(crate) fence: u64,
    // The store as it was then.
    pub(crate) began: Record<BackedStore>,
    ghost fenced: { IsFenced fence began.items store },
}

impl BackedDisk {
    ghost use Rattle.std.specs.Prelude.{◌≡◌, ℕ, ◌+◌, ◌/◌, ◌^◌, ◌<◌, ◌≤◌, [], All, true, false, IsTrue, IsFalse, IfOk, OnErr, IfSome, IfNone, length, min};
    ghost use Rattle.block_store.specs.Blocks.{is_within};
    ghost use Rattle.backed_store.specs.Stores.{contents, holds, is_dirty, backing_of, storage_of, ledger_of, latest_of};
    ghost use Rattle.block_store.specs.Pages.{blocks_in};
    ghost use Rattle.backed_store.specs.Flushes.{owes};
    ghost use Rattle.backed_store.specs.BackedDisks.{progress_of, hosted_of};
    ghost use Rattle.block_store.specs.Storage.{Dealing, IsPageOf, and_then, cut, storage_by};
    ghost use Rattle.block_store.specs.Inner.Hosted.{hosted_after};

    /// Makes a disk of so many blocks, of which the host's storage has this content. No page is in memory. At most `budget` pages
    /// will be. Takes no memory.
    pub fn new(alloc: Global, blocks: u64, budget: usize, content: Record<u8>) -> BackedDisk
        requires { blocks < 2 ^ 63 }
        ensures capacity { result.store.capacity ≡ blocks }
        ensures blocks { (b : ℕ) → contents result.store b ≡ blocks_in content.items b }
        ensures ledger { ledger_of result.store ≡ record { content = content.items; dealings = [] } }
        ensures absent { (b : ℕ) → holds result.store b ≡ false }
        ensures budget { result.store.cache.budget ≡ budget }
    {
        let store = BackedStore::new(alloc, blocks, budget, content);
        let fence = store.latest_change();
        let began = Record::new().and(&store);
        BackedDisk {
            store,
            fence,
            began,
        }
    }

    /// Begins a flush of what was changed by now. The one before is forgotten.
    pub(crate) fn begin_flush(&mut self)
        ensures store { self.new.store ≡ self.old.store }
        ensures fence { self.new.fence ≡ latest_of self.old.store }
        ensures kept { (b : ℕ) → (progress_of self.new).kept (b / 8) ≡ true →
            backing_of self.new.store b ≡ contents self.new.store b }
        ensures unkept { (b : ℕ) → (progress_of self.new).kept (b / 8) ≡ true →
            All (λ x. x ≡ contents self.new.store b) ((storage_of self.new.store).unkept b) }
        ensures given { (b : ℕ) → (progress_of self.new).given (b / 8) ≡ true →
            (storage_of self.new.store).given b ≡ contents self.new.store b }
    {
        self.fence = self.store.latest_change();
        self.began = Record::new().and(&self.store);
    }

    /// Returns true if the latest flush is over: the host's storage has what was changed before it began. It looks at the oldest
    /// change alone.
    pub(crate) fn is_flush_over(&self) -> bool
        ensures kept { IsTrue result → (p : ℕ) → (progress_of self.now).kept p ≡ true }
        ensures no { IsFalse result → (p : ℕ) × IsTrue (owes self.now.store self.now.fence p) }
    {
        self.store.is_flushed(self.fence)
    }

    /// Returns true if the host's storage has each block as it is. It looks at the oldest change alone.
    pub(crate) fn is_kept(&self) -> bool
        ensures kept { IsTrue result → (b : ℕ) → backing_of self.now.store b ≡ contents self.now.store b }
        ensures unkept { IsTrue result → (b : ℕ) →
            All (λ x. x ≡ contents self.now.store b) ((storage_of self.now.store).unkept b) }
    {
        self.store.is_flushed(self.store.latest_change())
    }

    /// Returns true if the host's storage has each block of a range as it is. It looks at each page of the range.
    pub(crate) fn are_kept(&self, first: u64, count: u32) -> bool
        requires range { first + count ≤ self.now.store.capacity }
        ensures kept { IsTrue result → (b : ℕ) → IsTrue (is_within first count b) →
            backing_of self.now.store b ≡ contents self.now.store b }
        ensures unkept { IsTrue result → (b : ℕ) → IsTrue (is_within first count b) →
            All (λ x. x ≡ contents self.now.store b) ((storage_of self.now.store).unkept b) }
        ensures changed { IsFalse result → (b : ℕ) × IsTrue (is_within first count b) × IsTrue (is_dirty self.now.store (b / 8)) }
    {
        self.store.are_kept(first, count as usize)
    }

    /// Takes the bytes of a page that the host was asked for, as [`BackedStore::load`] does.
    pub(crate) fn load(&mut self, page: u64, bytes: &[u8]) -> Result<bool, NoMemory>
        requires len { length bytes.now ≡ PAGE_BYTES }
        requires kept { IsPageOf (backing_of self.old.store) page bytes.now }
        ensures blocks { (b : ℕ) → contents self.new.store b ≡ contents self.old.store b }
        ensures size { self.new.store.capacity ≡ self.old.store.capacity }
        ensures loaded { IfOk result (λ done. IsTrue done → hosted_of self.new ≡ hosted_after (Dealing.Load page) (hosted_of self.old)) }
        ensures otherwise { IfOk result (λ done. IsFalse done → hosted_of self.new ≡ hosted_of self.old) }
        ensures err { OnErr result (hosted_of self.new ≡ hosted_of self.old) }
    {
        self.store.load(page, bytes)
    }

    /// Notes that the host can't read a page, as [`BackedStore::lost`] does.
    pub(crate) fn lost(&mut self, page: u64) -> bool
        ensures blocks { (b : ℕ) → contents self.new.store b ≡ contents self.old.store b }
        ensures size { self.new.store.capacity ≡ self.old.store.capacity }
        ensures lost { IsTrue result → hosted_of self.new ≡ hosted_after (Dealing.Lose page) (hosted_of self.old) }
        ensures otherwise { IsFalse result → hosted_of self.new ≡ hosted_of self.old }
    {
        self.store.lost(page)
    }

    /// Gives the host the next page that it is to write, as [`BackedStore::give`] does.
    pub(crate) fn give(&mut self) -> Result<Option<GivenPage>, NoMemory>
        ensures blocks { (b : ℕ) → contents self.new.store b ≡ contents self.old.store b }
        ensures size { self.new.store.capacity ≡ self.old.store.capacity }
        ensures bytes { IfOk result (λ given. IfSome given (λ g. IsPageOf (contents self.old.store) g.page g.bytes.items)) }
        ensures len { IfOk result (λ given. IfSome given (λ g. length g.bytes.items ≡ PAGE_BYTES)) }
        ensures given { IfOk result (λ given. IfSome given (λ g.
            hosted_of self.new ≡ hosted_after (Dealing.Give g.page g.bytes.items) (hosted_of self.old))) }
        ensures now { IfOk result (λ given. IfSome given (λ g. (b : ℕ) → b / 8 ≡ g.page →
            (storage_by (ledger_of self.new.store)).given b ≡ contents self.old.store b)) }
        ensures none { IfOk result (λ given. IfNone given (hosted_of self.new ≡ hosted_of self.old)) }
        ensures err { OnErr result (hosted_of self.new ≡ hosted_of self.old) }
    {
        self.store.give()
    }

    /// Notes what became of a write of the host, as [`BackedStore::written`] does.
    pub(crate) fn written(&mut self, page: u64, kept: bool) -> Result<bool, NoMemory>
        ensures blocks { (b : ℕ) → contents self.new.store b ≡ contents self.old.store b }
        ensures size { self.new.store.capacity ≡ self.old.store.capacity }
        ensures told { IfOk result (λ done. IsTrue done → IsTrue kept) }
        ensures kept { IfOk result (λ done. IsTrue done → hosted_of self.new ≡ hosted_after (Dealing.Keep page) (hosted_of self.old)) }
        ensures otherwise { IfOk result (λ done. IsFalse done → hosted_of self.new ≡ hosted_of self.old) }
        ensures err { OnErr result (hosted_of self.new ≡ hosted_of self.old) }
    {
        self.store.written(page, kept)
    }

    /// Notes that the host can't write a page, as [`BackedStore::denied`] does.
    pub(crate) fn denied(&mut self, page: u64) -> Result<bool, NoMemory>
        ensures blocks { (b : ℕ) → contents self.new.store b ≡ contents self.old.store b }
        ensures size { self.new.store.capacity ≡ self.old.store.capacity }
        ensures denied { IfOk result (λ done. IsTrue done → hosted_of self.new ≡ hosted_after (Dealing.Deny page) (hosted_of self.old)) }
        ensures otherwise { IfOk result (λ done. IsFalse done → hosted_of self.new ≡ hosted_of self.old) }
        ensures err { OnErr result (hosted_of self.new ≡ hosted_of self.old) }
    {
        self.store.denied(page)
    }

    /// Has so many blocks from now on, as [`BackedStore::resize`] does.
    pub fn resize(&mut self, blocks: u64)
        requires { blocks < 2 ^ 63 }
        ensures size { self.new.store.capacity ≡ blocks }
        ensures blocks { (b : ℕ) → contents self.new.store b ≡ cut (min self.old.store.capacity blocks) (contents self.old.store) b }
        ensures storage { hosted_of self.new ≡ hosted_after (Dealing.Cut (min self.old.store.capacity blocks)) (hosted_of self.old) }
        ensures ledger { ledger_of self.new.store ≡ and_then (Dealing.Cut (min self.old.store.capacity blocks)) (ledger_of self.old.store) }
    {
        self.store.resize(blocks);
    }
}

impl Store for BackedDisk {
    ghost use Rattle.std.specs.Prelude.{Some};
    ghost use Rattle.backed_store.specs.Stores.{contents, holds, is_coming, has_room};
    ghost use Rattle.backed_store.specs.BackedDisks.{hosted_of};
    ghost use Rattle.backed_store.specs.Inner.Whole.{length-contents};

    ghost size = { λ d. d.store.capacity };

    ghost block_at = { λ d b. contents d.store b };

    ghost is_held = { λ d b. holds d.store b };

    ghost is_coming = { λ d b. is_coming d.store b };

    ghost has_room = { λ d b. has_room d.store b };

    ghost storage = { λ d. Some (hosted_of d) };

    ghost whole = { λ d b below. length-contents d.store b };

    fn capacity(&self) -> u64 {
        self.store.capacity
    }

    fn ask_to_read(&mut self, first: u64, count: u32) -> Readiness {
        self.store.ask_all(first, count as usize)
    }

    fn ask_to_write(&mut self, first: u64, count: u32) -> Readiness {
        let room = self.store.make_room_for(first, count as usize);
        let beside = self.store.ask_beside(first, count as usize);
        room.and(beside)
    }

    fn read_blocks(&self, first: u64, count: u32, into: &mut Vec<u8>) {
        self.store.read(first, count as usize, into);
    }

    fn write_blocks(&mut self, first: u64, bytes: &[u8]) -> Result<(), NoMemory> {
        self.store.put(first, bytes);
        Ok(())
    }

    fn fill_blocks(
        &mut self,
        first: u64,
        count: u32,
        block: &[u8; BLOCK_BYTES],
    ) -> Result<(), NoMemory> {
        self.store.fill(first, count as usize, block);
        Ok(())
    }

    #[tactic(auto, unfolding(block_store::specs::Blocks::zero_block))]
    fn zero_blocks(&mut self, first: u64, count: u32) {
        self.store.fill(first, count as usize, &ZEROS);
    }

    // The host's storage has pages that aren't in memory.
    fn zero_all(&mut self) -> Result<(), NoMemory> {
        Err(NoMemory)
    }
}
