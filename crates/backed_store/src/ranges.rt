//! Ranges of blocks, page after page.

ghost use Rattle.std.specs.Prelude.{◌≡◌, ◌≢◌, ℕ, ◌+◌, ◌*◌, ◌/◌, ◌%◌, ◌^◌, ◌<◌, ◌≤◌, ◌++◌, IsTrue, length, vec_len, vec_capacity};
ghost use Rattle.block_store.specs.Blocks.{block_count, overwritten, filled, run, is_within};
ghost use Rattle.block_store.specs.Inner.Pages.{is_beside};
ghost use Rattle.block_store.specs.declared.readiness.Readiness.TheVariants.{Ready, Full};
ghost use Rattle.backed_store.specs.Stores.{contents, holds, is_coming, has_room, IsSame, IsHost};

use crate::backed::BackedStore;
use crate::numbers::{in_page, page_of, position_of};
use block_store::{BLOCK_BYTES, Readiness};

impl BackedStore {
    /// Asks for the page of a block.
    fn ask(&mut self, block: u64) -> Readiness
        ensures ready { result ≡ Ready → (b : ℕ) → b / 8 ≡ block / 8 → IsTrue (holds self.new b) }
        ensures asked { result ≢ Full → (b : ℕ) → b / 8 ≡ block / 8 → IsTrue (is_coming self.new b) }
        ensures same { IsSame self.old self.new }
        ensures host { IsHost self.old self.new }
        ensures held { (b : ℕ) → IsTrue (holds self.old b) → IsTrue (holds self.new b) }
        ensures coming { (b : ℕ) → IsTrue (is_coming self.old b) → IsTrue (is_coming self.new b) }
        ensures keeps_room { (b : ℕ) → IsTrue (has_room self.old b) → IsTrue (has_room self.new b) }
    {
        self.cache.ask(page_of(block))
    }

    /// Makes room for the page of a block.
    fn make_room(&mut self, block: u64) -> Readiness
        ensures room { result ≢ Full → (b : ℕ) → b / 8 ≡ block / 8 → IsTrue (has_room self.new b) }
        ensures same { IsSame self.old self.new }
        ensures host { IsHost self.old self.new }
        ensures held { (b : ℕ) → IsTrue (holds self.old b) → IsTrue (holds self.new b) }
        ensures coming { (b : ℕ) → IsTrue (is_coming self.old b) → IsTrue (is_coming self.new b) }
        ensures keeps_room { (b : ℕ) → IsTrue (has_room self.old b) → IsTrue (has_room self.new b) }
    {
        if self.cache.make_room(page_of(block)) {
            return Readiness::Ready;
        }
        Readiness::Full
    }

    /// Asks for the pages of a range.
    pub(crate) fn ask_all(&mut self, first: u64, count: usize) -> Readiness
        requires number { first + count < 2 ^ 64 }
        ensures ready { result ≡ Ready → (b : ℕ) → IsTrue (is_within first count b) → IsTrue (holds self.new b) }
        ensures asked { result ≢ Full → (b : ℕ) → IsTrue (is_within first count b) → IsTrue (is_coming self.new b) }
        ensures same { IsSame self.old self.new }
        ensures host { IsHost self.old self.new }
        ensures held { (b : ℕ) → IsTrue (holds self.old b) → IsTrue (holds self.new b) }
        ensures coming { (b : ℕ) → IsTrue (is_coming self.old b) → IsTrue (is_coming self.new b) }
        ensures keeps_room { (b : ℕ) → IsTrue (has_room self.old b) → IsTrue (has_room self.new b) }
    {
        let mut so_far = Readiness::Ready;
        let mut done = 0;
        while done < count {
            let at = first + done as u64;
            let here = self.ask(at);
            so_far = so_far.and(here);
            done += in_page(at, count - done);
        }
        so_far
    }

    /// Makes room for the pages of a range.
    pub(crate) fn make_room_for(&mut self, first: u64, count: usize) -> Readiness
        requires number { first + count < 2 ^ 64 }
        ensures room { result ≢ Full → (b : ℕ) → IsTrue (is_within first count b) → IsTrue (has_room self.new b) }
        ensures same { IsSame self.old self.new }
        ensures host { IsHost self.old self.new }
        ensures held { (b : ℕ) → IsTrue (holds self.old b) → IsTrue (holds self.new b) }
        ensures coming { (b : ℕ) → IsTrue (is_coming self.old b) → IsTrue (is_coming self.new b) }
        ensures keeps_room { (b : ℕ) → IsTrue (has_room self.old b) → IsTrue (has_room self.new b) }
    {
        let mut so_far = Readiness::Ready;
        let mut done = 0;
        while done < count {
            let at = first + done as u64;
            let here = self.make_room(at);
            so_far = so_far.and(here);
            done += in_page(at, count - done);
        }
        so_far
    }

    /// Asks for the pages that a range covers in part.
    pub(crate) fn ask_beside(&mut self, first: u64, count: usize) -> Readiness
        requires number { first + count < 2 ^ 64 }
        ensures ready { result ≡ Ready → (b : ℕ) → IsTrue (is_beside first count b) → IsTrue (holds self.new b) }
        ensures asked { result ≢ Full → (b : ℕ) → IsTrue (is_beside first count b) → IsTrue (is_coming self.new b) }
        ensures same { IsSame self.old self.new }
        ensures host { IsHost self.old self.new }
        ensures held { (b : ℕ) → IsTrue (holds self.old b) → IsTrue (holds self.new b) }
        ensures coming { (b : ℕ) → IsTrue (is_coming self.old b) → IsTrue (is_coming self.new b) }
        ensures keeps_room { (b : ℕ) → IsTrue (has_room self.old b) → IsTrue (has_room self.new b) }
    {
        if count == 0 {
            return Readiness::Ready;
        }
        let end = first + count as u64;
        let head = self.ask_where(position_of(first) != 0, first);
        let tail = self.ask_where(position_of(end) != 0, end);
        head.and(tail)
    }

    /// Asks for the page of a block, if it is wanted.
    fn ask_where(&mut self, wanted: bool, block: u64) -> Readiness
        ensures ready { IsTrue wanted → result ≡ Ready → (b : ℕ) → b / 8 ≡ block / 8 → IsTrue (holds self.new b) }
        ensures asked { IsTrue wanted → result ≢ Full → (b : ℕ) → b / 8 ≡ block / 8 → IsTrue (is_coming self.new b) }
        ensures same { IsSame self.old self.new }
        ensures host { IsHost self.old self.new }
        ensures held { (b : ℕ) → IsTrue (holds self.old b) → IsTrue (holds self.new b) }
        ensures coming { (b : ℕ) → IsTrue (is_coming self.old b) → IsTrue (is_coming self.new b) }
        ensures keeps_room { (b : ℕ) → IsTrue (has_room self.old b) → IsTrue (has_room self.new b) }
    {
        if !wanted {
            return Readiness::Ready;
        }
        self.ask(block)
    }

    /// Appends the bytes of a range to a list that has room for them.
    pub(crate) fn read(&self, first: u64, count: usize, into: &mut Vec<u8>)
        requires number { first + count < 2 ^ 64 }
        requires held { (b : ℕ) → IsTrue (is_within first count b) → IsTrue (holds self.now b) }
        requires room { vec_len into.old + BLOCK_BYTES * count ≤ vec_capacity into.old }
        ensures bytes { into.new.items ≡ into.old.items ++ run (contents self.now) first count }
        ensures len { vec_len into.new ≡ vec_len into.old + BLOCK_BYTES * count }
        ensures keeps_room { vec_capacity into.old ≤ vec_capacity into.new }
    {
        let mut done = 0;
        while done < count {
            let at = first + done as u64;
            let some = in_page(at, count - done);
            // The list has room, so nothing is refused.
            let _ = into.extend_from_slice(self.part(at, some));
            done += some;
        }
    }

    /// Puts the bytes over the blocks from `first` on.
    pub(crate) fn put(&mut self, first: u64, bytes: &[u8])
        requires number { first + block_count bytes.now < 2 ^ 64 }
        requires whole { length bytes.now % BLOCK_BYTES ≡ 0 }
        requires room { (b : ℕ) → IsTrue (is_within first (block_count bytes.now) b) → IsTrue (has_room self.old b) }
        requires beside { (b : ℕ) → IsTrue (is_beside first (block_count bytes.now) b) → IsTrue (holds self.old b) }
        ensures blocks { (b : ℕ) → contents self.new b ≡ overwritten (contents self.old) first bytes.now b }
        ensures held { (b : ℕ) → IsTrue (holds self.old b) → IsTrue (holds self.new b) }
        ensures keeps_room { (b : ℕ) → IsTrue (has_room self.old b) → IsTrue (has_room self.new b) }
        ensures host { IsHost self.old self.new }
        ensures size { self.new.capacity ≡ self.old.capacity }
    {
        let count = bytes.len() / BLOCK_BYTES;
        let mut done = 0;
        while done < count {
            let at = first + done as u64;
            let some = in_page(at, count - done);
            let chunk = &bytes[BLOCK_BYTES * done..BLOCK_BYTES * (done + some)];
            self.put_part(at, chunk);
            done += some;
        }
    }

    /// Puts the block into each of `count` places from `first` on.
    pub(crate) fn fill(&mut self, first: u64, count: usize, block: &[u8; BLOCK_BYTES])
        requires number { first + count < 2 ^ 64 }
        requires room { (b : ℕ) → IsTrue (is_within first count b) → IsTrue (has_room self.old b) }
        requires beside { (b : ℕ) → IsTrue (is_beside first count b) → IsTrue (holds self.old b) }
        ensures blocks { (b : ℕ) → contents self.new b ≡ filled (contents self.old) first count block.now b }
        ensures held { (b : ℕ) → IsTrue (holds self.old b) → IsTrue (holds self.new b) }
        ensures keeps_room { (b : ℕ) → IsTrue (has_room self.old b) → IsTrue (has_room self.new b) }
        ensures host { IsHost self.old self.new }
        ensures size { self.new.capacity ≡ self.old.capacity }
    {
        let mut done = 0;
        while done < count {
            let at = first + done as u64;
            let some = in_page(at, count - done);
            self.fill_part(at, some, block);
            done += some;
        }
    }
}
