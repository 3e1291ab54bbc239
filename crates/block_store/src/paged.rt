//! A store in pages.

ghost use Rattle.std.specs.Prelude.{◌≡◌, ℕ, ◌+◌, ◌^◌, ◌<◌, ◌≤◌, ◌↔◌, IsTrue, IfOk, OnErr, if◌then◌else◌};
ghost use Rattle.block_store.specs.Blocks.{zero_block, is_within};
ghost use Rattle.block_store.specs.Pages.{covered};
ghost use Rattle.block_store.specs.Drafts.{edges_draft, prepared_draft};
ghost use Rattle.block_store.specs.Inner.Drafts.{IsAsCopied};

use crate::edges::{Edges, Prepared};
use crate::numbers::{PAGE_BLOCKS, in_row, page_end, page_from, page_of, position_of};
use crate::pages::Pages;
use crate::{BLOCK_BYTES, Readiness, Store, row};
use foundation::NoMemory;
use std::alloc::Global;

/// Keeps blocks in pages of 8, by number. A page that was never written, or was zeroed whole, isn't there, and reads as
/// zeros: a store costs nothing until it is written. A page that is far from all others costs its 4 KiB and at most 11
/// KiB of tables on the way to it.
///
/// Writing and filling may want memory, zeroing takes none.
#[derive(Drop)]
pub struct PagedStore {
    alloc: Global,
    capacity: u64,
    pages: Pages,
    ghost counted: { capacity < 2 ^ 64 },
}

impl PagedStore {
    /// Makes a store of so many blocks of zeros. Takes no memory.
    pub fn new(alloc: Global, blocks: u64) -> PagedStore
        ensures capacity { ⟦<PagedStore as Store>⟧.size result ≡ blocks }
        ensures zeros { (b : ℕ) → ⟦<PagedStore as Store>⟧.block_at result b ≡ zero_block }
    {
        PagedStore {
            alloc,
            capacity: blocks,
            pages: Pages::new(alloc),
        }
    }
}

impl PagedStore {
    ghost use Rattle.std.specs.Prelude.{length, ◌*◌, ◌%◌};
    ghost use Rattle.block_store.specs.Blocks.{run};

    /// Returns the bytes of `count` blocks of one page where they stand, which spares a copy: zeros where the page isn't
    /// there. Takes no memory.
    #[inline(always)]
    pub fn blocks_in_place(&self, first: u64, count: usize) -> &[u8]
        requires page { first % 8 + count ≤ 8 }
        ensures bytes { result.now ≡ run (⟦<PagedStore as Store>⟧.block_at self.now) first count }
        ensures len { length result.now ≡ BLOCK_BYTES * count }
    {
        self.pages.part(first, count)
    }

    /// Copies the pages that a range covers in part, at most two, so that a write of the range can be prepared away
    /// from the store. `NoMemory` where memory was refused.
    pub fn edges(&self, first: u64, count: u32) -> Result<Edges, NoMemory>
        requires range { first + count ≤ ⟦<PagedStore as Store>⟧.size self.now }
        ensures first { IfOk result (λ edges. (edges_draft edges).first ≡ first) }
        ensures count { IfOk result (λ edges. (edges_draft edges).count ≡ count) }
        ensures copied { IfOk result (λ edges. IsAsCopied (edges_draft edges) (⟦<PagedStore as Store>⟧.block_at self.now)) }
    {
        let (head, tail) = self.pages.edges(self.alloc, first, count)?;
        Ok(Edges {
            alloc: self.alloc,
            first,
            count,
            head,
            tail,
        })
    }

    /// Puts the new pages over the blocks of their range, where the blocks beside it, in these pages, are as they were
    /// copied. Answers true with the pages that stood there, or false with the new pages. After false nothing is
    /// changed; nor is it after `NoMemory`, where memory was refused. The caller frees the pages that come back, once
    /// no one waits for the store.
    pub fn install(&mut self, prepared: Prepared) -> Result<(bool, Prepared), NoMemory>
        requires range { (prepared_draft prepared).first + (prepared_draft prepared).count ≤ ⟦<PagedStore as Store>⟧.size self.old }
        ensures exactly { IfOk result (λ answer. IsTrue answer.0 ↔
            IsAsCopied (prepared_draft prepared) (⟦<PagedStore as Store>⟧.block_at self.old)) }
        ensures ok { IfOk result (λ answer. (b : ℕ) → ⟦<PagedStore as Store>⟧.block_at self.new b
            ≡ (if answer.0 then covered (⟦<PagedStore as Store>⟧.block_at self.old)
            (prepared_draft prepared).blocks (prepared_draft prepared).first (prepared_draft prepared).count b
            else ⟦<PagedStore as Store>⟧.block_at self.old b)) }
        ensures first { IfOk result (λ answer. (prepared_draft answer.1).first ≡ (prepared_draft prepared).first) }
        ensures count { IfOk result (λ answer. (prepared_draft answer.1).count ≡ (prepared_draft prepared).count) }
        ensures back { IfOk result (λ answer. (b : ℕ) →
            IsTrue (is_within (prepared_draft prepared).first (prepared_draft prepared).count b) →
            (prepared_draft answer.1).blocks b
            ≡ (if answer.0 then ⟦<PagedStore as Store>⟧.block_at self.old b else (prepared_draft prepared).blocks b)) }
        ensures err { OnErr result ((b : ℕ) → ⟦<PagedStore as Store>⟧.block_at self.new b ≡ ⟦<PagedStore as Store>⟧.block_at self.old b) }
        ensures size { ⟦<PagedStore as Store>⟧.size self.new ≡ ⟦<PagedStore as Store>⟧.size self.old }
    {
        let Prepared {
            first,
            count,
            mut row,
        } = prepared;
        if !self.pages.agrees(&row, first, count) {
            return Ok((false, Prepared { first, count, row }));
        }
        let start = page_of(first);
        let pages = (page_end(first, count) - start) as usize;
        row::reach(&mut row, self.alloc, pages)?;
        self.pages.place_all(self.alloc, start, pages)?;
        self.pages.exchange_all(self.alloc, start, &mut row, pages);
        Ok((true, Prepared { first, count, row }))
    }
}

impl PagedStore {
    ghost use Rattle.std.specs.Prelude.{nat_lt, min};

    /// Has so many blocks from now on. Those at or above the new capacity are lost: where it grows again, they are
    /// zeros. Takes no memory.
    pub fn resize(&mut self, blocks: u64)
        ensures size { ⟦<PagedStore as Store>⟧.size self.new ≡ blocks }
        ensures blocks { (b : ℕ) → ⟦<PagedStore as Store>⟧.block_at self.new b
            ≡ (if nat_lt b (min (⟦<PagedStore as Store>⟧.size self.old) blocks)
            then ⟦<PagedStore as Store>⟧.block_at self.old b else zero_block) }
    {
        let left = self.capacity.min(blocks);
        let behind = (PAGE_BLOCKS - position_of(left)) % PAGE_BLOCKS;
        self.pages.cut(self.alloc, page_from(left));
        self.pages.clear_part(self.alloc, left, behind);
        self.capacity = blocks;
    }
}

impl Store for PagedStore {
    ghost use Rattle.std.specs.Prelude.{◌/◌, ◌%◌, true, None, IsOk};
    ghost use Rattle.block_store.specs.Kept.{kept, blocks_of};
    ghost use Rattle.block_store.specs.Inner.Padding.{length-blocks_in};

    ghost size = { λ s. s.capacity };

    ghost block_at = { λ s. blocks_of s.pages };

    ghost is_held = { λ s b. true };

    ghost is_coming = { λ s b. true };

    ghost has_room = { λ s b. true };

    ghost storage = { λ s. None };

    ghost whole = { λ s b below. length-blocks_in (kept s.pages (b / 8)) (b % 8) };

    fn capacity(&self) -> u64 {
        self.capacity
    }

    fn ask_to_read(&mut self, _first: u64, _count: u32) -> Readiness {
        Readiness::Ready
    }

    fn ask_to_write(&mut self, _first: u64, _count: u32) -> Readiness {
        Readiness::Ready
    }

    fn read_blocks(&self, first: u64, count: u32, into: &mut Vec<u8>) {
        self.pages.read(first, count as usize, into);
    }

    fn write_blocks(&mut self, first: u64, bytes: &[u8]) -> Result<(), NoMemory> {
        let count = bytes.len() / BLOCK_BYTES;
        if in_row(first, count) == count && self.pages.try_put(first, bytes) {
            return Ok(());
        }
        self.pages.make_all(self.alloc, first, count)?;
        self.pages.put(self.alloc, first, bytes);
        Ok(())
    }

    fn fill_blocks(
        &mut self,
        first: u64,
        count: u32,
        block: &[u8; BLOCK_BYTES],
    ) -> Result<(), NoMemory> {
        self.pages.make_all(self.alloc, first, count as usize)?;
        self.pages.fill(self.alloc, first, count as usize, block);
        Ok(())
    }

    fn zero_blocks(&mut self, first: u64, count: u32) {
        self.pages.clear(self.alloc, first, count as usize);
    }

    fn zero_all(&mut self) -> Result<(), NoMemory>
        ensures zeros { (b : ℕ) → blocks_of self.new.pages b ≡ zero_block }
        ensures size { self.new.capacity ≡ self.old.capacity }
        ensures takes_no_memory { IsOk result }
    {
        self.pages = Pages::new(self.alloc);
        Ok(())
    }
}
