//! READ, WRITE and WRITE SAME.

ghost use Rattle.std.specs.Prelude.{◌≡◌, ◌&&◌, nat_lt, ℕ, ◌*◌, ◌-◌, [], length, vec_len, IfOk, OnOk, OnErr, Ok, IsTrue};
ghost use Rattle.block_store.specs.Blocks.{run, overwritten, filled, zeroed};
ghost use Rattle.command_model.specs.Capacity.{is_in_range, within};
ghost use Rattle.command_model.specs.Data.{done};
ghost use Rattle.block_commands.specs.Inner.Steps.{Gives, Ends, Wants};
ghost use Rattle.block_commands.specs.Inner.Ready.{is_inside, is_near_to};

use crate::capacity::is_in_range;
use crate::failure::Failure;
use block_store::{BLOCK_BYTES, Store};
use sense::Sense;
use std::mem;

/// Returns the bytes of the blocks (SBC-3 §5.11), in the room that is given, which grows where it is too small.
pub(crate) fn read<S: Store>(
    room: &mut Vec<u8>,
    store: &S,
    lba: u64,
    blocks: u16,
) -> Result<Vec<u8>, Failure>
    requires held { (b : ℕ) → IsTrue (is_inside (S.size store.now) lba blocks b) → IsTrue (S.is_held store.now b) }
    ensures answer { Gives (λ bytes. bytes.items)
        (within (S.size store.now) lba blocks (Ok (run (S.block_at store.now) lba blocks))) result }
    ensures want { Wants (nat_lt 0 blocks && is_in_range (S.size store.now) lba blocks) result }
    ensures len { IfOk result (λ bytes. vec_len bytes ≡ 512 * blocks) }
{
    if !is_in_range(store.capacity(), lba, u32::from(blocks)) {
        return Err(Failure::Refused(Sense::LBA_OUT_OF_RANGE));
    }
    let none = Vec::new(*room.allocator());
    let mut data = mem::replace(room, none);
    data.clear();
    data.reserve(BLOCK_BYTES * usize::from(blocks))?;
    store.read_blocks(lba, u32::from(blocks), &mut data);
    Ok(data)
}

/// Puts the data over the blocks (SBC-3 §5.33). After an error nothing is changed.
pub(crate) fn write<S: Store>(
    store: &mut S,
    lba: u64,
    blocks: u16,
    bytes: &[u8],
) -> Result<(), Failure>
    requires size { length bytes.now ≡ 512 * blocks }
    requires room { (b : ℕ) → IsTrue (is_inside (S.size store.old) lba blocks b) → IsTrue (S.has_room store.old b) }
    requires near { (b : ℕ) → IsTrue (is_near_to (S.size store.old) lba blocks b) → IsTrue (S.is_held store.old b) }
    ensures answer { Gives (λ _. []) (within (S.size store.old) lba blocks done) result }
    ensures want { Wants (is_in_range (S.size store.old) lba blocks) result }
    ensures ok { OnOk result ((b : ℕ) → S.block_at store.new b ≡ overwritten (S.block_at store.old) lba bytes.now b) }
    ensures err { OnErr result ((b : ℕ) → S.block_at store.new b ≡ S.block_at store.old b) }
    ensures size { S.size store.new ≡ S.size store.old }
    ensures storage { S.storage store.new ≡ S.storage store.old }
{
    if !is_in_range(store.capacity(), lba, u32::from(blocks)) {
        return Err(Failure::Refused(Sense::LBA_OUT_OF_RANGE));
    }
    store.write_blocks(lba, bytes)?;
    Ok(())
}

/// Puts the one block of data into each of the blocks (SBC-3 §5.43). After an error nothing is
/// changed.
pub(crate) fn write_same<S: Store>(
    store: &mut S,
    lba: u64,
    blocks: u32,
    bytes: &[u8],
) -> Result<(), Failure>
    requires size { length bytes.now ≡ 512 }
    requires room { (b : ℕ) → IsTrue (is_inside (S.size store.old) lba blocks b) → IsTrue (S.has_room store.old b) }
    requires near { (b : ℕ) → IsTrue (is_near_to (S.size store.old) lba blocks b) → IsTrue (S.is_held store.old b) }
    ensures answer { Gives (λ _. []) (within (S.size store.old) lba blocks done) result }
    ensures want { Wants (is_in_range (S.size store.old) lba blocks) result }
    ensures ok { OnOk result ((b : ℕ) → S.block_at store.new b ≡ filled (S.block_at store.old) lba blocks bytes.now b) }
    ensures err { OnErr result ((b : ℕ) → S.block_at store.new b ≡ S.block_at store.old b) }
    ensures size { S.size store.new ≡ S.size store.old }
    ensures storage { S.storage store.new ≡ S.storage store.old }
{
    if !is_in_range(store.capacity(), lba, blocks) {
        return Err(Failure::Refused(Sense::LBA_OUT_OF_RANGE));
    }
    let mut block = [0; BLOCK_BYTES];
    block.copy_from_slice(bytes);
    store.fill_blocks(lba, blocks, &block)?;
    Ok(())
}

/// Puts zeros into each of the blocks, as if a block of zeros had been sent (SBC-3 §5.44). After an error nothing is
/// changed. Takes no memory.
pub(crate) fn write_zeros<S: Store>(store: &mut S, lba: u64, blocks: u32) -> Result<(), Sense>
    requires room { (b : ℕ) → IsTrue (is_inside (S.size store.old) lba blocks b) → IsTrue (S.has_room store.old b) }
    requires near { (b : ℕ) → IsTrue (is_near_to (S.size store.old) lba blocks b) → IsTrue (S.is_held store.old b) }
    ensures answer { Ends (within (S.size store.old) lba blocks done) result }
    ensures ok { OnOk result ((b : ℕ) → S.block_at store.new b ≡ zeroed (S.block_at store.old) lba blocks b) }
    ensures err { OnErr result ((b : ℕ) → S.block_at store.new b ≡ S.block_at store.old b) }
    ensures size { S.size store.new ≡ S.size store.old }
    ensures storage { S.storage store.new ≡ S.storage store.old }
{
    if !is_in_range(store.capacity(), lba, blocks) {
        return Err(Sense::LBA_OUT_OF_RANGE);
    }
    store.zero_blocks(lba, blocks);
    Ok(())
}

/// Checks that the blocks lie below the capacity, which is all that SYNCHRONIZE CACHE asks of a store that has no cache
/// (SBC-3 §5.26).
pub(crate) fn synchronize<S: Store>(store: &S, lba: u64, blocks: u32) -> Result<(), Sense>
    ensures { Ends (within (S.size store.now) lba blocks done) result }
{
    if !is_in_range(store.capacity(), lba, blocks) {
        return Err(Sense::LBA_OUT_OF_RANGE);
    }
    Ok(())
}
