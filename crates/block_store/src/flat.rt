//! A store in one run of bytes.

ghost use Rattle.std.specs.Prelude.{◌≡◌, ℕ, ◌+◌, ◌%◌, ◌<◌, ◌≤◌, length, IsOk, IfOk};
ghost use Rattle.block_store.specs.Blocks.{block_count, nth_block, overwritten, filled, zero_block};

use crate::bytes::{blocks_at, put_blocks, put_copies, put_zeros};
use crate::{BLOCK_BYTES, Readiness, Store};
use foundation::NoMemory;
use std::alloc::Global;
use std::marker::Model;

/// Blocks that lie end to end in one run of bytes, which is had at once.
///
/// Clauses see it as these bytes. Only `new` takes memory.
#[derive(Drop)]
pub struct FlatStore {
    bytes: Vec<u8>,
}

impl Model for FlatStore {
    ghost use Rattle.std.specs.Prelude.{◌≡◌, ℕ, List, ◌%◌, length};

    ghost Value = { List ℕ };

    ghost view = { λ s. s.bytes.items };

    ghost invariant = { λ s. length s.bytes.items % 512 ≡ 0 };
}

impl FlatStore {
    /// Makes a store of so many blocks of zeros. Refuses where the memory can't be had, also where so many bytes are
    /// more than a `usize` counts.
    pub fn new(alloc: Global, blocks: u64) -> Result<FlatStore, NoMemory>
        ensures capacity { IfOk result (λ s. ⟦<FlatStore as Store>⟧.size s ≡ blocks) }
        ensures zeros { IfOk result (λ s. (b : ℕ) → b < blocks → ⟦<FlatStore as Store>⟧.block_at s b ≡ zero_block) }
    {
        let Some(size) = blocks.checked_mul(BLOCK_BYTES as u64) else {
            return Err(NoMemory);
        };
        let Ok(size) = usize::try_from(size) else {
            return Err(NoMemory);
        };
        let bytes = vec![in alloc; 0; size]?;
        Ok(FlatStore { bytes })
    }
}

impl Store for FlatStore {
    ghost use Rattle.std.specs.Prelude.{true, None};
    ghost use Rattle.block_store.specs.Inner.Whole.{length-nth_block};

    ghost size = { block_count };

    ghost block_at = { nth_block };

    ghost is_held = { λ s b. true };

    ghost is_coming = { λ s b. true };

    ghost has_room = { λ s b. true };

    ghost storage = { λ s. None };

    ghost whole = { length-nth_block };

    fn capacity(&self) -> u64 {
        (self.bytes.len() / BLOCK_BYTES) as u64
    }

    fn ask_to_read(&mut self, _first: u64, _count: u32) -> Readiness {
        Readiness::Ready
    }

    fn ask_to_write(&mut self, _first: u64, _count: u32) -> Readiness {
        Readiness::Ready
    }

    fn read_blocks(&self, first: u64, count: u32, into: &mut Vec<u8>) {
        // The list has room, so nothing is refused.
        let _ = into.extend_from_slice(blocks_at(&self.bytes, first as usize, count as usize));
    }

    fn write_blocks(&mut self, first: u64, bytes: &[u8]) -> Result<(), NoMemory>
        requires whole { length bytes.now % BLOCK_BYTES ≡ 0 }
        requires range { first + block_count bytes.now ≤ block_count self.old }
        ensures blocks { (b : ℕ) → nth_block self.new b ≡ overwritten (nth_block self.old) first bytes.now b }
        ensures size { block_count self.new ≡ block_count self.old }
        ensures takes_no_memory { IsOk result }
    {
        put_blocks(&mut self.bytes, first as usize, bytes);
        Ok(())
    }

    fn fill_blocks(
        &mut self,
        first: u64,
        count: u32,
        block: &[u8; BLOCK_BYTES],
    ) -> Result<(), NoMemory>
        requires range { first + count ≤ block_count self.old }
        ensures blocks { (b : ℕ) → nth_block self.new b ≡ filled (nth_block self.old) first count block.now b }
        ensures size { block_count self.new ≡ block_count self.old }
        ensures takes_no_memory { IsOk result }
    {
        put_copies(&mut self.bytes, first as usize, count as usize, block);
        Ok(())
    }

    fn zero_blocks(&mut self, first: u64, count: u32) {
        put_zeros(&mut self.bytes, first as usize, count as usize);
    }

    // Its bytes would have to be walked.
    fn zero_all(&mut self) -> Result<(), NoMemory> {
        Err(NoMemory)
    }
}
