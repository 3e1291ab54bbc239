//! A page of blocks.

ghost use Rattle.std.specs.Prelude.{◌≡◌, ℕ, ◌+◌, ◌*◌, ◌%◌, ◌<◌, ◌≤◌, [], length, replicate, nat_lt, IfOk, IfSome};
ghost use Rattle.block_store.specs.Blocks.{block_count, nth_block, overwritten, filled, zeroed, run, zero_block};
ghost use Rattle.block_store.specs.Pages.{blocks_in};

use crate::BLOCK_BYTES;
use crate::bytes::{blocks_at, put_blocks, put_copies, put_zeros};
use crate::numbers::PAGE_BLOCKS;
use foundation::NoMemory;
use std::alloc::Global;

/// The bytes of a page.
pub(crate) const PAGE_BYTES: usize = 4096;

/// The bytes of a page of zeros.
static ZEROS: [u8; PAGE_BYTES] = [0; PAGE_BYTES];

/// A page of blocks: its bytes, or none where all are zeros.
#[derive(Drop)]
pub(crate) struct Page {
    pub(crate) bytes: Vec<u8>,
    ghost whole: { length bytes.items % 4096 ≡ 0 },
}

/// Returns the bytes of so many blocks of zeros, a page of them at most.
pub(crate) fn zeros(count: usize) -> &'static [u8]
    requires { count ≤ 8 }
    ensures { result.now ≡ replicate (512 * count) 0 }
{
    &ZEROS[..BLOCK_BYTES * count]
}

/// Takes the last page that keeps its bytes out of a list, and drops those behind it.
fn take_made(pages: &mut Vec<Page>) -> Option<Page>
    ensures { IfSome result (λ page. length page.bytes.items ≡ PAGE_BYTES) }
{
    while let Some(page) = pages.pop() {
        if page.bytes.len() == PAGE_BYTES {
            return Some(page);
        }
    }
    None
}

impl Page {
    /// Makes a page that keeps no bytes.
    pub(crate) fn absent(alloc: Global) -> Page
        ensures { result.bytes.items ≡ [] }
    {
        Page {
            bytes: Vec::new(alloc),
        }
    }

    /// Makes a page of zeros that keeps its bytes.
    pub(crate) fn zeroed(alloc: Global) -> Result<Page, NoMemory>
        ensures { IfOk result (λ page. page.bytes.items ≡ replicate 4096 0) }
    {
        let bytes = vec![in alloc; 0; PAGE_BYTES]?;
        Ok(Page { bytes })
    }

    /// Makes a page of the same bytes.
    pub(crate) fn copy(&self, alloc: Global) -> Result<Page, NoMemory>
        ensures { IfOk result (λ page. page.bytes.items ≡ self.now.bytes.items) }
    {
        let bytes = Vec::from_slice(alloc, &self.bytes)?;
        Ok(Page { bytes })
    }

    /// Makes a page of these bytes. Puts them over those of a spare page, if there is one.
    pub(crate) fn of(alloc: Global, bytes: &[u8], spare: &mut Vec<Page>) -> Result<Page, NoMemory>
        requires { length bytes.now ≡ PAGE_BYTES }
        ensures { IfOk result (λ page. page.bytes.items ≡ bytes.now) }
    {
        match take_made(spare) {
            Some(mut page) => {
                page.bytes.copy_from_slice(bytes);
                Ok(page)
            }
            None => {
                let bytes = Vec::from_slice(alloc, bytes)?;
                Ok(Page { bytes })
            }
        }
    }

    /// Returns true if the page keeps its bytes.
    pub(crate) fn is_made(&self) -> bool
        ensures { result ≡ nat_lt 0 (length self.now.bytes.items) }
    {
        !self.bytes.is_empty()
    }

    /// Returns the bytes of `count` blocks of the page.
    pub(crate) fn part(&self, from: usize, count: usize) -> &[u8]
        requires { from + count ≤ 8 }
        ensures { result.now ≡ run (blocks_in self.now.bytes.items) from count }
    {
        if !self.is_made() {
            return zeros(count);
        }
        blocks_at(&self.bytes, from, count)
    }

    /// Puts the bytes over the blocks from `from` on.
    pub(crate) fn put(&mut self, from: usize, bytes: &[u8])
        requires made { 0 < length self.old.bytes.items }
        requires whole { length bytes.now % BLOCK_BYTES ≡ 0 }
        requires range { from + block_count bytes.now ≤ 8 }
        ensures blocks { (k : ℕ) → nth_block self.new.bytes.items k ≡ overwritten (nth_block self.old.bytes.items) from bytes.now k }
        ensures len { length self.new.bytes.items ≡ length self.old.bytes.items }
    {
        put_blocks(&mut self.bytes, from, bytes);
    }

    /// Puts the block into each of `count` places from `from` on.
    pub(crate) fn fill(&mut self, from: usize, count: usize, block: &[u8; BLOCK_BYTES])
        requires made { 0 < length self.old.bytes.items }
        requires range { from + count ≤ 8 }
        ensures blocks { (k : ℕ) → nth_block self.new.bytes.items k ≡ filled (nth_block self.old.bytes.items) from count block.now k }
        ensures len { length self.new.bytes.items ≡ length self.old.bytes.items }
    {
        put_copies(&mut self.bytes, from, count, block);
    }

    /// Puts zeros into each of `count` places from `from` on.
    fn wipe(&mut self, from: usize, count: usize)
        requires made { 0 < length self.old.bytes.items }
        requires range { from + count ≤ 8 }
        ensures blocks { (k : ℕ) → nth_block self.new.bytes.items k ≡ zeroed (nth_block self.old.bytes.items) from count k }
        ensures len { length self.new.bytes.items ≡ length self.old.bytes.items }
    {
        put_zeros(&mut self.bytes, from, count);
    }

    /// Puts zeros into each of `count` places from `from` on. A page that is zeroed whole keeps no bytes.
    pub(crate) fn clear(&mut self, alloc: Global, from: usize, count: usize)
        requires range { from + count ≤ 8 }
        ensures { (k : ℕ) → k < 8 → blocks_in self.new.bytes.items k ≡ zeroed (blocks_in self.old.bytes.items) from count k }
    {
        if count == PAGE_BLOCKS {
            self.bytes = Vec::new(alloc);
        } else if self.is_made() {
            self.wipe(from, count);
        }
    }
}
