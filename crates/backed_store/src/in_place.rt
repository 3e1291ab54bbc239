//! Blocks of a disk where they stand.

ghost use Rattle.std.specs.Prelude.{◌≡◌, ℕ, ◌+◌, ◌*◌, ◌%◌, ◌<◌, ◌≤◌, ◌++◌, ◌==◌, length, IsTrue};
ghost use Rattle.block_store.specs.Blocks.{run, is_within};
ghost use Rattle.backed_store.specs.Disks.{size_of, blocks_of, holds};

use crate::disk::Disk;
use crate::numbers::in_page;
use block_store::{BLOCK_BYTES, Store};
use std::marker::Model;

/// Blocks of a disk where they stand, each in memory. They are taken page after page, which spares a copy. Clauses see the
/// bytes of those that are left, end to end.
#[derive(Drop)]
pub struct BlocksInPlace<'a> {
    disk: &'a Disk,
    first: u64,
    count: u32,
}

impl<'a> Model for BlocksInPlace<'a> {
    ghost use Rattle.std.specs.Prelude.{◌≡◌, ℕ, List, ◌+◌, ◌<◌, ◌^◌, IsTrue};
    ghost use Rattle.block_store.specs.Blocks.{run, is_within};
    ghost use Rattle.backed_store.specs.Disks.{blocks_of, holds};

    ghost Value = { List ℕ };

    ghost view = { λ s. run (blocks_of s.disk.now) s.first s.count };

    ghost invariant = { λ s. (s.first + s.count < 2 ^ 64)
        × ((b : ℕ) → IsTrue (is_within s.first s.count b) → IsTrue (holds s.disk.now b)) };
}

impl Disk {
    /// Returns the bytes of `count` blocks of one page that is in memory, where they stand.
    #[inline(always)]
    fn part(&self, first: u64, count: usize) -> &[u8]
        requires page { first % 8 + count ≤ 8 }
        requires held { IsTrue (holds self.now first) }
        ensures bytes { result.now ≡ run (blocks_of self.now) first count }
        ensures len { length result.now ≡ BLOCK_BYTES * count }
    {
        match self {
            Disk::Whole(store) => store.blocks_in_place(first, count),
            Disk::Backed(disk) => disk.store.part(first, count),
        }
    }

    /// Returns `count` blocks from `first` on where they stand. They are in memory, which the caller sees to. Takes no
    /// memory.
    #[inline(always)]
    pub fn blocks_in_place(&self, first: u64, count: u32) -> BlocksInPlace<'_>
        requires range { first + count ≤ size_of self.now }
        requires held { (b : ℕ) → IsTrue (is_within first count b) → IsTrue (holds self.now b) }
        ensures bytes { result ≡ run (blocks_of self.now) first count }
        ensures len { length result ≡ BLOCK_BYTES * count }
    {
        let _capacity = self.capacity();
        BlocksInPlace {
            disk: self,
            first,
            count,
        }
    }
}

impl<'a> BlocksInPlace<'a> {
    /// Counts the bytes that are left.
    #[inline(always)]
    pub fn len(&self) -> usize
        ensures { result ≡ length self.now }
    {
        BLOCK_BYTES * self.count as usize
    }

    /// Returns true if none are left.
    #[inline(always)]
    pub fn is_empty(&self) -> bool
        ensures { result ≡ (length self.now == 0) }
    {
        self.count == 0
    }

    /// Takes the first blocks that are left, as far as they lie in one page, and returns their bytes: none where no blocks
    /// are left.
    #[inline(always)]
    pub fn take_page(&mut self) -> &'a [u8]
        ensures split { self.old ≡ result.now ++ self.new }
        ensures some { 0 < length self.old → 0 < length result.now }
    {
        if self.count == 0 {
            return &[];
        }
        let some = in_page(self.first, self.count as usize);
        let bytes = self.disk.part(self.first, some);
        self.first += some as u64;
        self.count -= some as u32;
        bytes
    }
}
