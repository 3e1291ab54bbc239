//! The storage of a disk.

ghost use Rattle.std.specs.Prelude.{◌≡◌, ◌+◌, ◌*◌, ◌<◌, ℕ, ◌^◌, length, IfOk};
ghost use Rattle.block_store.specs.Blocks.{run};
ghost use Rattle.block_store.specs.Storage.{IsPageOf};

use block_store::{BLOCK_BYTES, PagedStore, Store};
use foundation::NoMemory;
use std::alloc::Global;

/// The blocks of a page.
pub const PAGE_BLOCKS: usize = 8;

/// The bytes of a page.
const PAGE_BYTES: usize = PAGE_BLOCKS * BLOCK_BYTES;

/// The blocks of a storage, more than a disk may have.
const END: u64 = 1 << 60;

/// The pages of a storage.
const PAGES: u64 = END / PAGE_BLOCKS as u64;

/// The blocks that a host was last given of a disk, and those that it keeps: what it reads, and what a crash leaves.
#[derive(Drop)]
pub struct Storage {
    given: PagedStore,
    kept: PagedStore,
    ghost sized: { (⟦<PagedStore as Store>⟧.size given ≡ 2 ^ 60) × (⟦<PagedStore as Store>⟧.size kept ≡ 2 ^ 60) },
}

impl Storage {
    ghost use Rattle.std.specs.Prelude.{◌%◌, ◌≤◌, ◌↔◌, ◌++◌, IsTrue, IsFalse, OnOk, OnErr};
    ghost use Rattle.block_store.specs.Blocks.{zero_block};
    ghost use Rattle.block_store.specs.Pages.{blocks_in};
    ghost use Rattle.block_store.specs.Storage.{with_page, cut as cut_off};
    ghost use Rattle.host_storage.specs.Inner.Storage.{given_blocks, kept_blocks};

    /// Makes a storage of zeros. Takes no memory.
    pub fn new(alloc: Global) -> Storage
        ensures given { (b : ℕ) → given_blocks result b ≡ zero_block }
        ensures kept { (b : ℕ) → kept_blocks result b ≡ zero_block }
    {
        Storage {
            given: PagedStore::new(alloc, END),
            kept: PagedStore::new(alloc, END),
        }
    }

    /// Returns true if a page lies in the storage. Called before it is given, kept or read.
    pub fn has_page(page: u64) -> bool
        ensures { IsTrue result ↔ (page < 2 ^ 57) }
    {
        page < PAGES
    }

    /// Takes the bytes of a page, which is then under way. `NoMemory`, with nothing changed, where memory was refused.
    pub fn give(&mut self, page: u64, bytes: &[u8]) -> Result<(), NoMemory>
        requires page { page < 2 ^ 57 }
        requires len { length bytes.now ≡ 8 * BLOCK_BYTES }
        ensures given { OnOk result ((b : ℕ) →
            given_blocks self.new b ≡ with_page page (λ b. blocks_in bytes.now (b % 8)) (given_blocks self.old) b) }
        ensures kept { (b : ℕ) → kept_blocks self.new b ≡ kept_blocks self.old b }
        ensures err { OnErr result ((b : ℕ) → given_blocks self.new b ≡ given_blocks self.old b) }
    {
        self.given.write_blocks(page * PAGE_BLOCKS as u64, bytes)
    }

    /// Keeps a page as it was last given. `NoMemory`, with nothing changed, where memory was refused.
    pub fn keep(&mut self, alloc: Global, page: u64) -> Result<(), NoMemory>
        requires page { page < 2 ^ 57 }
        ensures kept { OnOk result ((b : ℕ) → kept_blocks self.new b ≡ with_page page (given_blocks self.old) (kept_blocks self.old) b) }
        ensures given { (b : ℕ) → given_blocks self.new b ≡ given_blocks self.old b }
        ensures err { OnErr result ((b : ℕ) → kept_blocks self.new b ≡ kept_blocks self.old b) }
    {
        let bytes = page_of(alloc, &self.given, page)?;
        self.kept
            .write_blocks(page * PAGE_BLOCKS as u64, bytes.as_slice())
    }

    /// Cuts the storage off at a block: it and those behind it are zeros. Takes no memory.
    pub fn cut(&mut self, blocks: u64)
        requires { blocks ≤ 2 ^ 60 }
        ensures given { (b : ℕ) → given_blocks self.new b ≡ cut_off blocks (given_blocks self.old) b }
        ensures kept { (b : ℕ) → kept_blocks self.new b ≡ cut_off blocks (kept_blocks self.old) b }
    {
        self.given.resize(blocks);
        self.given.resize(END);
        self.kept.resize(blocks);
        self.kept.resize(END);
    }

    /// Returns the bytes of a page as the storage keeps it. `NoMemory` where memory was refused.
    pub fn read(&self, alloc: Global, page: u64) -> Result<Vec<u8>, NoMemory>
        requires page { page < 2 ^ 57 }
        ensures len { IfOk result (λ bytes. length bytes.items ≡ 8 * BLOCK_BYTES) }
        ensures bytes { IfOk result (λ bytes. IsPageOf (kept_blocks self.now) page bytes.items) }
    {
        page_of(alloc, &self.kept, page)
    }

    /// Appends the bytes of `count` blocks from `first` on, as the storage keeps them. Returns false, with the list as it was,
    /// where one of them would lie behind the 2^60 of a storage. `NoMemory`, with the list as it was, where that can't grow.
    pub fn read_blocks(&self, first: u64, count: u32, into: &mut Vec<u8>) -> Result<bool, NoMemory>
        ensures read { IfOk result (λ there. IsTrue there → into.new.items ≡ into.old.items ++ run (kept_blocks self.now) first count) }
        ensures there { IfOk result (λ there. IsTrue there ↔ (first + count ≤ 2 ^ 60)) }
        ensures behind { IfOk result (λ there. IsFalse there → into.new.items ≡ into.old.items) }
        ensures err { OnErr result (into.new.items ≡ into.old.items) }
    {
        if first > END || u64::from(count) > END - first {
            return Ok(false);
        }
        into.reserve(BLOCK_BYTES * count as usize)?;
        self.kept.read_blocks(first, count, into);
        Ok(true)
    }
}

/// Returns the bytes of a page of a store. `NoMemory` where memory was refused.
fn page_of(alloc: Global, store: &PagedStore, page: u64) -> Result<Vec<u8>, NoMemory>
    requires page { page < 2 ^ 57 }
    requires size { ⟦<PagedStore as Store>⟧.size store.now ≡ 2 ^ 60 }
    ensures len { IfOk result (λ bytes. length bytes.items ≡ 8 * BLOCK_BYTES) }
    ensures bytes { IfOk result (λ bytes. bytes.items ≡ run (⟦<PagedStore as Store>⟧.block_at store.now) (8 * page) 8) }
{
    let mut bytes = Vec::with_capacity(alloc, PAGE_BYTES)?;
    store.read_blocks(page * PAGE_BLOCKS as u64, PAGE_BLOCKS as u32, &mut bytes);
    Ok(bytes)
}
