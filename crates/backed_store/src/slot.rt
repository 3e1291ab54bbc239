//! A page in memory.

ghost use Rattle.std.specs.Prelude.{◌≡◌, ℕ, ◌+◌, ◌-◌, ◌%◌, ◌≤◌, length, is_some, if◌then◌else◌};

use crate::mark::{Mark, NOTHING};
use crate::numbers::{PAGE_BLOCKS, PAGE_BYTES};
use block_store::{BLOCK_BYTES, put_blocks, put_copies, put_zeros};
use foundation::NoMemory;
use std::alloc::Global;

/// The slot of a page in memory: its bytes, and what is known of it.
#[derive(Drop)]
pub(crate) struct Slot {
    pub(crate) mark: Mark,
    pub(crate) bytes: Vec<u8>,
    ghost full: { length bytes.items ≡ 4096 },
}

impl Slot {
    ghost use Rattle.std.specs.Prelude.{IfOk};
    ghost use Rattle.backed_store.specs.Changed.{unknown};
    ghost use Rattle.block_store.specs.Blocks.{block_count, nth_block, overwritten, filled, zeroed};

    /// Makes a slot of which nothing is known. `NoMemory` where memory was refused.
    pub(crate) fn unknown(alloc: Global) -> Result<Slot, NoMemory>
        ensures { IfOk result (λ slot. slot.mark ≡ unknown) }
    {
        let bytes = vec![in alloc; 0; PAGE_BYTES]?;
        Ok(Slot {
            mark: NOTHING,
            bytes,
        })
    }

    /// Takes a spare slot, else makes a new one. Nothing is known of it, nor of its bytes. `NoMemory` where memory was refused.
    pub(crate) fn taken(spare: &mut Vec<Slot>, alloc: Global) -> Result<Slot, NoMemory>
        ensures unknown { IfOk result (λ slot. slot.mark ≡ unknown) }
        ensures fewer { length spare.new.items ≡ length spare.old.items - 1 }
    {
        match spare.pop() {
            Some(mut slot) => {
                slot.mark = NOTHING;
                Ok(slot)
            }
            None => Slot::unknown(alloc),
        }
    }

    /// Puts the bytes over the blocks from `from` on.
    pub(crate) fn put(&mut self, from: usize, bytes: &[u8])
        requires whole { length bytes.now % BLOCK_BYTES ≡ 0 }
        requires range { from + block_count bytes.now ≤ 8 }
        ensures blocks { (k : ℕ) → nth_block self.new.bytes.items k ≡ overwritten (nth_block self.old.bytes.items) from bytes.now k }
        ensures mark { self.new.mark ≡ self.old.mark }
    {
        put_blocks(&mut self.bytes, from, bytes);
    }

    /// Puts the block into each of `count` places from `from` on.
    pub(crate) fn fill(&mut self, from: usize, count: usize, block: &[u8; BLOCK_BYTES])
        requires { from + count ≤ 8 }
        ensures blocks { (k : ℕ) → nth_block self.new.bytes.items k ≡ filled (nth_block self.old.bytes.items) from count block.now k }
        ensures mark { self.new.mark ≡ self.old.mark }
    {
        put_copies(&mut self.bytes, from, count, block);
    }

    /// Puts zeros into the blocks from `from` on.
    pub(crate) fn wipe(&mut self, from: usize)
        requires { from ≤ 8 }
        ensures blocks { (k : ℕ) → nth_block self.new.bytes.items k ≡ zeroed (nth_block self.old.bytes.items) from (8 - from) k }
        ensures mark { self.new.mark ≡ self.old.mark }
    {
        put_zeros(&mut self.bytes, from, PAGE_BLOCKS as usize - from);
    }
}

/// Keeps the slot of a page that went, if there is one, for a page that comes. Frees it where memory for the list was refused.
pub(crate) fn put_aside(spare: &mut Vec<Slot>, slot: Option<Slot>)
    ensures { length spare.new.items ≤ length spare.old.items + (if is_some slot then 1 else 0) }
{
    if let Some(slot) = slot {
        let _ = spare.push(slot);
    }
}
