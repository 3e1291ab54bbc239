//! Parts of a range that lie in one page.

ghost use Rattle.std.specs.Prelude.{◌≡◌, ℕ, ◌+◌, ◌*◌, ◌/◌, ◌%◌, ◌<◌, ◌≤◌, IsTrue, length};
ghost use Rattle.block_store.specs.Blocks.{block_count, overwritten, filled, run};
ghost use Rattle.block_store.specs.Inner.Pages.{is_beside};
ghost use Rattle.backed_store.specs.Stores.{contents, holds, has_room, IsHost};

use crate::backed::BackedStore;
use crate::numbers::{page_of, position_of};
use block_store::{BLOCK_BYTES, blocks_at};

impl BackedStore {
    /// Returns the bytes of `count` blocks of one page that is in memory, where they stand.
    #[inline(always)]
    pub(crate) fn part(&self, first: u64, count: usize) -> &[u8]
        requires fits { first % 8 + count ≤ 8 }
        requires held { IsTrue (holds self.now first) }
        ensures bytes { result.now ≡ run (contents self.now) first count }
        ensures len { length result.now ≡ BLOCK_BYTES * count }
    {
        match self.cache.slots.held(page_of(first)) {
            Some(bytes) => blocks_at(bytes, position_of(first), count),
            None => &[],
        }
    }

    /// Puts the bytes over blocks of one page.
    pub(crate) fn put_part(&mut self, first: u64, bytes: &[u8])
        requires some { 0 < block_count bytes.now }
        requires whole { length bytes.now % BLOCK_BYTES ≡ 0 }
        requires range { first % 8 + block_count bytes.now ≤ 8 }
        requires room { IsTrue (has_room self.old first) }
        requires beside { (b : ℕ) → IsTrue (is_beside first (block_count bytes.now) b) → IsTrue (holds self.old b) }
        ensures blocks { (b : ℕ) → contents self.new b ≡ overwritten (contents self.old) first bytes.now b }
        ensures held { (b : ℕ) → IsTrue (holds self.old b) → IsTrue (holds self.new b) }
        ensures keeps_room { (b : ℕ) → IsTrue (has_room self.old b) → IsTrue (has_room self.new b) }
        ensures host { IsHost self.old self.new }
        ensures size { self.new.capacity ≡ self.old.capacity }
        ensures budget { self.new.cache.budget ≡ self.old.cache.budget }
    {
        self.cache.put(page_of(first), position_of(first), bytes);
    }

    /// Puts the block into each of `count` places of one page.
    pub(crate) fn fill_part(&mut self, first: u64, count: usize, block: &[u8; BLOCK_BYTES])
        requires some { 0 < count }
        requires range { first % 8 + count ≤ 8 }
        requires room { IsTrue (has_room self.old first) }
        requires beside { (b : ℕ) → IsTrue (is_beside first count b) → IsTrue (holds self.old b) }
        ensures blocks { (b : ℕ) → contents self.new b ≡ filled (contents self.old) first count block.now b }
        ensures held { (b : ℕ) → IsTrue (holds self.old b) → IsTrue (holds self.new b) }
        ensures keeps_room { (b : ℕ) → IsTrue (has_room self.old b) → IsTrue (has_room self.new b) }
        ensures host { IsHost self.old self.new }
        ensures size { self.new.capacity ≡ self.old.capacity }
        ensures budget { self.new.cache.budget ≡ self.old.cache.budget }
    {
        self.cache
            .fill(page_of(first), position_of(first), count, block);
    }
}
