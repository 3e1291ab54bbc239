//! Pages that go from a store to others, and from others to a store.

ghost use Rattle.std.specs.Prelude.{◌≡◌, ℕ, ◌+◌, ◌-◌, ◌/◌, ◌%◌, ◌^◌, ◌<◌, ◌≤◌, ◌==◌, ◌&&◌, ◌↔◌, [], nat_le, nat_lt, vec_len, IfOk, OnOk, IsTrue, if◌then◌else◌};
ghost use Rattle.block_store.specs.Blocks.{is_within};
ghost use Rattle.block_store.specs.Pages.{paged};
ghost use Rattle.block_store.specs.Inner.Pages.{is_beside};
ghost use Rattle.block_store.specs.Kept.{kept, kept_at_ends, kept_from, blocks_of};
ghost use Rattle.block_store.specs.Inner.Kept.{has_slot};

use crate::numbers::{PAGE_BLOCKS, ROW_PAGES, page_of, position_of};
use crate::page::Page;
use crate::pages::Pages;
use crate::row;
use crate::table::Table;
use foundation::NoMemory;
use std::alloc::Global;

impl Pages {
    /// Copies a page, if it is wanted. Returns one without bytes elsewhere.
    fn copy_where(&self, wanted: bool, alloc: Global, page: u64) -> Result<Page, NoMemory>
        ensures { IfOk result (λ copy. copy.bytes.items ≡ (if wanted then kept self.now page else [])) }
    {
        if !wanted {
            return Ok(Page::absent(alloc));
        }
        let row = self.held.row(page / ROW_PAGES as u64);
        match row.get((page % ROW_PAGES as u64) as usize) {
            Some(found) => found.copy(alloc),
            None => Ok(Page::absent(alloc)),
        }
    }

    /// Copies the pages that a range covers in part: the first, and the last where that is another one.
    pub(crate) fn edges(
        &self,
        alloc: Global,
        first: u64,
        count: u32,
    ) -> Result<(Page, Page), NoMemory>
        requires { first + count < 2 ^ 64 }
        ensures { IfOk result (λ copies. (b : ℕ) → IsTrue (is_beside first count b)
            → blocks_of self.now b ≡ paged (kept_at_ends (first / 8) ((first + count) / 8) copies.0.bytes.items copies.1.bytes.items) b) }
    {
        let end = first + u64::from(count);
        let apart = page_of(end) != page_of(first);
        let head = count != 0 && (position_of(first) != 0 || !apart);
        let tail = count != 0 && position_of(end) != 0 && apart;
        let head = self.copy_where(head, alloc, page_of(first))?;
        let tail = self.copy_where(tail, alloc, page_of(end))?;
        Ok((head, tail))
    }

    /// Returns true if `count` blocks of one page are those of a row that begins at page `start`.
    fn is_same(&self, start: u64, row: &[Page], first: u64, count: usize) -> bool
        requires page { first % 8 + count ≤ 8 }
        requires begun { start ≤ first / 8 }
        ensures { IsTrue result ↔ ((b : ℕ) → IsTrue (is_within first count b) → blocks_of self.now b ≡ paged (kept_from start row.now) b) }
    {
        self.part(first, count) == row::part(row, first - start * PAGE_BLOCKS as u64, count)
    }

    /// Returns true if the blocks beside a range, in its pages, are those of a row that begins at its first page.
    pub(crate) fn agrees(&self, row: &[Page], first: u64, count: u32) -> bool
        requires { first + count < 2 ^ 64 }
        ensures { IsTrue result ↔ ((b : ℕ) → IsTrue (is_beside first count b) →
            blocks_of self.now b ≡ paged (kept_from (first / 8) row.now) b) }
    {
        if count == 0 {
            return true;
        }
        let start = page_of(first);
        let end = first + u64::from(count);
        let before = position_of(first);
        let behind = (PAGE_BLOCKS - position_of(end)) % PAGE_BLOCKS;
        let head = self.is_same(start, row, first - before as u64, before);
        let tail = self.is_same(start, row, end, behind);
        head && tail
    }

    /// Makes slots for `count` pages of one row from `page` on.
    fn place_part(&mut self, alloc: Global, page: u64, count: usize) -> Result<(), NoMemory>
        requires { page % 64 + count ≤ 64 }
        ensures placed { OnOk result ((p : ℕ) → IsTrue (is_within page count p) → IsTrue (has_slot self.new p)) }
        ensures others { (p : ℕ) → IsTrue (has_slot self.old p) → IsTrue (has_slot self.new p) }
        ensures kept { (p : ℕ) → kept self.new p ≡ kept self.old p }
    {
        let number = page / ROW_PAGES as u64;
        self.held.place(alloc, number)?;
        let mut row = self.held.take(alloc, number);
        let reached = row::reach(&mut row, alloc, (page % ROW_PAGES as u64) as usize + count);
        self.put_row(number, row);
        reached
    }

    /// Makes slots for `count` pages from `start` on.
    pub(crate) fn place_all(
        &mut self,
        alloc: Global,
        start: u64,
        count: usize,
    ) -> Result<(), NoMemory>
        requires { start + count < 2 ^ 64 }
        ensures placed { OnOk result ((p : ℕ) → IsTrue (is_within start count p) → IsTrue (has_slot self.new p)) }
        ensures kept { (p : ℕ) → kept self.new p ≡ kept self.old p }
    {
        let mut done = 0;
        while done < count {
            let at = start + done as u64;
            let some = of_row(at, count - done);
            self.place_part(alloc, at, some)?;
            done += some;
        }
        Ok(())
    }

    /// Exchanges `count` pages of one row from `start + done` on with those of a row that begins at page `start`.
    fn exchange_part(
        &mut self,
        alloc: Global,
        start: u64,
        done: usize,
        row: &mut Vec<Page>,
        count: usize,
    )
        requires number { start + done + count < 2 ^ 64 }
        requires some { 0 < count }
        requires part { (start + done) % 64 + count ≤ 64 }
        requires placed { (p : ℕ) → IsTrue (is_within (start + done) count p) → IsTrue (has_slot self.old p) }
        requires long { done + count ≤ vec_len row.old }
        ensures here { (p : ℕ) → kept self.new p
            ≡ (if is_within (start + done) count p then kept_from start row.old.items p else kept self.old p) }
        ensures there { (p : ℕ) → kept_from start row.new.items p
            ≡ (if is_within (start + done) count p then kept self.old p else kept_from start row.old.items p) }
        ensures slots { (p : ℕ) → has_slot self.new p ≡ has_slot self.old p }
        ensures len { vec_len row.new ≡ vec_len row.old }
    {
        let page = start + done as u64;
        let number = page / ROW_PAGES as u64;
        let mut held = self.held.take(alloc, number);
        row::exchange(
            &mut held,
            (page % ROW_PAGES as u64) as usize,
            row,
            done,
            count,
        );
        self.put_row(number, held);
    }

    /// Exchanges `count` pages from `start` on with those of a row that begins there.
    pub(crate) fn exchange_all(
        &mut self,
        alloc: Global,
        start: u64,
        row: &mut Vec<Page>,
        count: usize,
    )
        requires number { start + count < 2 ^ 64 }
        requires placed { (p : ℕ) → IsTrue (is_within start count p) → IsTrue (has_slot self.old p) }
        requires long { count ≤ vec_len row.old }
        ensures here { (p : ℕ) → kept self.new p
            ≡ (if is_within start count p then kept_from start row.old.items p else kept self.old p) }
        ensures there { (p : ℕ) → kept_from start row.new.items p
            ≡ (if is_within start count p then kept self.old p else kept_from start row.old.items p) }
    {
        let mut done = 0;
        while done < count {
            let some = of_row(start + done as u64, count - done);
            self.exchange_part(alloc, start, done, row, some);
            done += some;
        }
    }
}

/// Counts the pages of the `count` from `page` on that lie in the row of the first.
fn of_row(page: u64, count: usize) -> usize
    ensures some { 0 < count → 0 < result }
    ensures bound { result ≤ count }
    ensures fits { page % 64 + result ≤ 64 }
{
    let room = ROW_PAGES - (page % ROW_PAGES as u64) as usize;
    room.min(count)
}
