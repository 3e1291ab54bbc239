//! Blocks that lie end to end in one run of bytes.

ghost use Rattle.std.specs.Prelude.{◌≡◌, ℕ, ◌+◌, ◌*◌, ◌%◌, ◌≤◌, length};
ghost use Rattle.block_store.specs.Blocks.{block_count, nth_block, overwritten, filled, zeroed, run};

use crate::BLOCK_BYTES;

/// Returns the bytes of `count` blocks from `first` on.
pub fn blocks_at(held: &[u8], first: usize, count: usize) -> &[u8]
    requires { first + count ≤ block_count held.now }
    ensures bytes { result.now ≡ run (nth_block held.now) first count }
    ensures len { length result.now ≡ BLOCK_BYTES * count }
{
    &held[first * BLOCK_BYTES..(first + count) * BLOCK_BYTES]
}

/// Puts the bytes over the blocks from `first` on.
pub fn put_blocks(held: &mut [u8], first: usize, bytes: &[u8])
    requires whole { length bytes.now % BLOCK_BYTES ≡ 0 }
    requires range { first + block_count bytes.now ≤ block_count held.old }
    ensures { (b : ℕ) → nth_block held.new b ≡ overwritten (nth_block held.old) first bytes.now b }
{
    let start = first * BLOCK_BYTES;
    held[start..start + bytes.len()].copy_from_slice(bytes);
}

/// Puts the block into each of `count` places from `first` on.
pub fn put_copies(held: &mut [u8], first: usize, count: usize, block: &[u8; BLOCK_BYTES])
    requires { first + count ≤ block_count held.old }
    ensures { (b : ℕ) → nth_block held.new b ≡ filled (nth_block held.old) first count block.now b }
{
    for i in 0..count {
        put_blocks(held, first + i, block);
    }
}

/// Puts zeros into each of `count` places from `first` on.
pub fn put_zeros(held: &mut [u8], first: usize, count: usize)
    requires { first + count ≤ block_count held.old }
    ensures { (b : ℕ) → nth_block held.new b ≡ zeroed (nth_block held.old) first count b }
{
    held[first * BLOCK_BYTES..(first + count) * BLOCK_BYTES].fill(0);
}
