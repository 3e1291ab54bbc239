//! Pages of blocks, by number, in rows of 64.

ghost use Rattle.std.specs.Prelude.{◌≡◌, ◌≢◌, ℕ, ◌+◌, ◌-◌, ◌*◌, ◌/◌, ◌%◌, ◌^◌, ◌<◌, ◌≤◌, ◌++◌, [], length, vec_len, vec_capacity, OnOk, IsTrue, IsFalse, if◌then◌else◌};
ghost use Rattle.block_store.specs.Blocks.{block_count, overwritten, filled, zeroed, run, is_within};
ghost use Rattle.block_store.specs.Kept.{kept, blocks_of, tree_row};
ghost use Rattle.block_store.specs.Inner.Kept.{is_made, tree_has};

use crate::numbers::{in_page, in_row, in_row_of, row_of};
use crate::page::Page;
use crate::table::{Level, Table, Tree};
use crate::{BLOCK_BYTES, row};
use foundation::NoMemory;
use std::alloc::Global;

/// Keeps pages by number. One that isn't there is zeros.
///
/// A call that changes pages takes their row out of the tree, changes it, and puts it back.
#[derive(Drop)]
pub(crate) struct Pages {
    pub(crate) held: Tree,
}

impl Pages {
    /// Makes one with no pages.
    pub(crate) fn new(alloc: Global) -> Pages
        ensures { (p : ℕ) → kept result p ≡ [] }
    {
        Pages {
            held: Level::new(alloc),
        }
    }

    /// Returns the bytes of `count` blocks of one page.
    #[inline(always)]
    pub(crate) fn part(&self, first: u64, count: usize) -> &[u8]
        requires { first % 8 + count ≤ 8 }
        ensures { result.now ≡ run (blocks_of self.now) first count }
    {
        row::part(self.held.row(row_of(first)), in_row_of(first), count)
    }

    /// Appends the bytes of `count` blocks to a list that has room for them.
    pub(crate) fn read(&self, first: u64, count: usize, into: &mut Vec<u8>)
        requires range { first + count < 2 ^ 64 }
        requires room { vec_len into.old + BLOCK_BYTES * count ≤ vec_capacity into.old }
        ensures bytes { into.new.items ≡ into.old.items ++ run (blocks_of self.now) first count }
        ensures len { vec_len into.new ≡ vec_len into.old + BLOCK_BYTES * count }
        ensures keeps_room { vec_capacity into.old ≤ vec_capacity into.new }
    {
        if in_page(first, count) == count {
            // The list has room, so nothing is refused.
            let _ = into.extend_from_slice(self.part(first, count));
            return;
        }
        let mut done = 0;
        while done < count {
            let at = first + done as u64;
            let some = in_row(at, count - done);
            row::read(self.held.row(row_of(at)), in_row_of(at), some, into);
            done += some;
        }
    }

    /// Puts pages into the slot of a row that has none, if there are any.
    pub(crate) fn put_row(&mut self, number: u64, row: Vec<Page>)
        requires placed { 0 < length row.items → IsTrue (tree_has self.old.held number) }
        requires gone { tree_row self.old.held number ≡ [] }
        ensures here { tree_row self.new.held number ≡ row.items }
        ensures others { (m : ℕ) → m ≢ number → tree_row self.new.held m ≡ tree_row self.old.held m }
        ensures slots { (m : ℕ) → tree_has self.new.held m ≡ tree_has self.old.held m }
    {
        if !row.is_empty() {
            self.held.put(number, row);
        }
    }

    /// Makes the pages of `count` blocks of one row that keep no bytes yet.
    fn make_part(&mut self, alloc: Global, first: u64, count: usize) -> Result<(), NoMemory>
        requires { first % 512 + count ≤ 512 }
        ensures made { OnOk result ((b : ℕ) → IsTrue (is_within first count b) → IsTrue (is_made self.new (b / 8))) }
        ensures others { (p : ℕ) → IsTrue (is_made self.old p) → IsTrue (is_made self.new p) }
        ensures blocks { (b : ℕ) → blocks_of self.new b ≡ blocks_of self.old b }
    {
        let number = row_of(first);
        self.held.place(alloc, number)?;
        let mut row = self.held.take(alloc, number);
        let made = row::make_all(&mut row, alloc, in_row_of(first), count);
        self.put_row(number, row);
        made
    }

    /// Makes the pages of `count` blocks that keep no bytes yet.
    pub(crate) fn make_all(
        &mut self,
        alloc: Global,
        first: u64,
        count: usize,
    ) -> Result<(), NoMemory>
        requires { first + count < 2 ^ 64 }
        ensures made { OnOk result ((b : ℕ) → IsTrue (is_within first count b) → IsTrue (is_made self.new (b / 8))) }
        ensures blocks { (b : ℕ) → blocks_of self.new b ≡ blocks_of self.old b }
    {
        let mut done = 0;
        while done < count {
            let at = first + done as u64;
            let some = in_row(at, count - done);
            self.make_part(alloc, at, some)?;
            done += some;
        }
        Ok(())
    }

    /// Puts the bytes over blocks of one row, whose pages keep their bytes.
    fn put_part(&mut self, alloc: Global, first: u64, bytes: &[u8])
        requires made { (b : ℕ) → IsTrue (is_within first (block_count bytes.now) b) → IsTrue (is_made self.old (b / 8)) }
        requires whole { length bytes.now % BLOCK_BYTES ≡ 0 }
        requires range { first % 512 + block_count bytes.now ≤ 512 }
        ensures blocks { (b : ℕ) → blocks_of self.new b ≡ overwritten (blocks_of self.old) first bytes.now b }
        ensures made { (p : ℕ) → is_made self.new p ≡ is_made self.old p }
    {
        let number = row_of(first);
        let mut row = self.held.take(alloc, number);
        row::put(&mut row, in_row_of(first), bytes);
        self.put_row(number, row);
    }

    /// Puts the bytes over blocks of one row, if their pages keep their bytes. Returns true if they
    /// do.
    pub(crate) fn try_put(&mut self, first: u64, bytes: &[u8]) -> bool
        requires whole { length bytes.now % BLOCK_BYTES ≡ 0 }
        requires range { first % 512 + block_count bytes.now ≤ 512 }
        ensures put { IsTrue result → (b : ℕ) → blocks_of self.new b ≡ overwritten (blocks_of self.old) first bytes.now b }
        ensures same { IsFalse result → (b : ℕ) → blocks_of self.new b ≡ blocks_of self.old b }
    {
        self.held.try_put(row_of(first), in_row_of(first), bytes)
    }

    /// Puts the bytes over the blocks from `first` on, whose pages keep their bytes.
    pub(crate) fn put(&mut self, alloc: Global, first: u64, bytes: &[u8])
        requires range { first + block_count bytes.now < 2 ^ 64 }
        requires whole { length bytes.now % BLOCK_BYTES ≡ 0 }
        requires made { (b : ℕ) → IsTrue (is_within first (block_count bytes.now) b) → IsTrue (is_made self.old (b / 8)) }
        ensures blocks { (b : ℕ) → blocks_of self.new b ≡ overwritten (blocks_of self.old) first bytes.now b }
        ensures made { (p : ℕ) → is_made self.new p ≡ is_made self.old p }
    {
        let count = bytes.len() / BLOCK_BYTES;
        let mut done = 0;
        while done < count {
            let at = first + done as u64;
            let some = in_row(at, count - done);
            let chunk = &bytes[BLOCK_BYTES * done..BLOCK_BYTES * (done + some)];
            self.put_part(alloc, at, chunk);
            done += some;
        }
    }

    /// Puts the block into each of `count` places of one row, whose pages keep their bytes.
    fn fill_part(&mut self, alloc: Global, first: u64, count: usize, block: &[u8; BLOCK_BYTES])
        requires made { (b : ℕ) → IsTrue (is_within first count b) → IsTrue (is_made self.old (b / 8)) }
        requires range { first % 512 + count ≤ 512 }
        ensures blocks { (b : ℕ) → blocks_of self.new b ≡ filled (blocks_of self.old) first count block.now b }
        ensures made { (p : ℕ) → is_made self.new p ≡ is_made self.old p }
    {
        let number = row_of(first);
        let mut row = self.held.take(alloc, number);
        row::fill(&mut row, in_row_of(first), count, block);
        self.put_row(number, row);
    }

    /// Puts the block into each of `count` places from `first` on, whose pages keep their bytes.
    pub(crate) fn fill(
        &mut self,
        alloc: Global,
        first: u64,
        count: usize,
        block: &[u8; BLOCK_BYTES],
    )
        requires range { first + count < 2 ^ 64 }
        requires made { (b : ℕ) → IsTrue (is_within first count b) → IsTrue (is_made self.old (b / 8)) }
        ensures blocks { (b : ℕ) → blocks_of self.new b ≡ filled (blocks_of self.old) first count block.now b }
    {
        let mut done = 0;
        while done < count {
            let at = first + done as u64;
            let some = in_row(at, count - done);
            self.fill_part(alloc, at, some, block);
            done += some;
        }
    }

    /// Puts zeros into each of `count` places of one row. Frees the pages that are zeroed whole, and the tables that
    /// have none left.
    pub(crate) fn clear_part(&mut self, alloc: Global, first: u64, count: usize)
        requires { first % 512 + count ≤ 512 }
        ensures { (b : ℕ) → blocks_of self.new b ≡ zeroed (blocks_of self.old) first count b }
    {
        let number = row_of(first);
        let mut row = self.held.take(alloc, number);
        row::clear(&mut row, alloc, in_row_of(first), count);
        row::trim(&mut row);
        self.put_row(number, row);
        self.held.give_back(alloc, number);
    }

    /// Puts zeros into each of `count` places from `first` on. Takes no memory.
    pub(crate) fn clear(&mut self, alloc: Global, first: u64, count: usize)
        requires { first + count < 2 ^ 64 }
        ensures { (b : ℕ) → blocks_of self.new b ≡ zeroed (blocks_of self.old) first count b }
    {
        let mut done = 0;
        while done < count {
            let at = first + done as u64;
            let some = in_row(at, count - done);
            self.clear_part(alloc, at, some);
            done += some;
        }
    }
}
