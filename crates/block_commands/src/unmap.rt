//! UNMAP (SBC-3 §5.28).

ghost use Rattle.std.specs.Prelude.{◌≡◌, ℕ, ◌*◌, ◌≤◌, length, nat_lt, ◌||◌, ◌&&◌, IsTrue, OnOk, OnErr, if◌then◌else◌};
ghost use Rattle.block_store.specs.Blocks.{zero_block};
ghost use Rattle.command_model.specs.Replies.{unmap_answer};
ghost use Rattle.command_model.specs.UnmapList.{descriptors_in, descriptors, blocks_named, are_in_range, is_named};
ghost use Rattle.block_commands.specs.Inner.Steps.{Ends};
ghost use Rattle.block_commands.specs.Inner.Ready.{is_done, is_near_any};

use crate::capacity::is_in_range;
use crate::extents::{UNMAP_HEADER_BYTES, extent_at, taken_descriptors};
use block_store::Store;
use sense::Sense;

/// The most descriptors of an UNMAP.
const MOST_DESCRIPTORS: usize = 16;

/// The most blocks of an UNMAP, in all its descriptors.
const MOST_BLOCKS: u64 = 65536;

/// Puts zeros into the blocks that the descriptors of the parameter list name, if none is refused:
/// after an error nothing is changed. Takes no memory.
pub(crate) fn unmap<S: Store>(store: &mut S, list: &[u8]) -> Result<(), Sense>
    requires room { (b : ℕ) → IsTrue (is_done (unmap_answer (S.size store.old) list.now) && is_named (descriptors list.now) b)
        → IsTrue (S.has_room store.old b) }
    requires near { (b : ℕ) → IsTrue (is_done (unmap_answer (S.size store.old) list.now) && is_near_any (descriptors list.now) b)
        → IsTrue (S.is_held store.old b) }
    ensures answer { Ends (unmap_answer (S.size store.old) list.now) result }
    ensures ok { OnOk result ((b : ℕ) → S.block_at store.new b
        ≡ (if is_named (descriptors list.now) b then zero_block else S.block_at store.old b)) }
    ensures err { OnErr result ((b : ℕ) → S.block_at store.new b ≡ S.block_at store.old b) }
    ensures size { S.size store.new ≡ S.size store.old }
    ensures storage { S.storage store.new ≡ S.storage store.old }
{
    if list.is_empty() {
        return Ok(());
    }
    if list.len() < UNMAP_HEADER_BYTES {
        return Err(Sense::PARAMETER_LIST_LENGTH_ERROR);
    }
    let count = taken_descriptors(list);
    let (_, taken) = list.split_at(UNMAP_HEADER_BYTES);
    if is_too_much(taken, count) {
        return Err(Sense::INVALID_FIELD_IN_PARAMETER_LIST);
    }
    if !are_in_range(store.capacity(), taken, count) {
        return Err(Sense::LBA_OUT_OF_RANGE);
    }
    zero_extents(store, taken, count);
    Ok(())
}

/// Returns true if these are more descriptors, or name more blocks in all, than an UNMAP may have.
pub(crate) fn is_too_much(taken: &[u8], count: usize) -> bool
    requires { 16 * count ≤ length taken.now }
    ensures { result ≡ (nat_lt 16 count || nat_lt 65536 (blocks_named (descriptors_in count taken.now))) }
{
    if count > MOST_DESCRIPTORS {
        return true;
    }
    let mut blocks = 0;
    for i in 0..count {
        blocks += u64::from(extent_at(taken, i).count);
    }
    blocks > MOST_BLOCKS
}

/// Returns true if each descriptor lies below the capacity.
pub(crate) fn are_in_range(capacity: u64, taken: &[u8], count: usize) -> bool
    requires { 16 * count ≤ length taken.now }
    ensures { result ≡ are_in_range capacity (descriptors_in count taken.now) }
{
    for i in 0..count {
        let extent = extent_at(taken, i);
        if !is_in_range(capacity, extent.lba, extent.count) {
            return false;
        }
    }
    true
}

/// Puts zeros into the blocks of each descriptor.
fn zero_extents<S: Store>(store: &mut S, taken: &[u8], count: usize)
    requires fits { 16 * count ≤ length taken.now }
    requires range { IsTrue (are_in_range (S.size store.old) (descriptors_in count taken.now)) }
    requires room { (b : ℕ) → IsTrue (is_named (descriptors_in count taken.now) b) → IsTrue (S.has_room store.old b) }
    requires near { (b : ℕ) → IsTrue (is_near_any (descriptors_in count taken.now) b) → IsTrue (S.is_held store.old b) }
    ensures blocks { (b : ℕ) → S.block_at store.new b
        ≡ (if is_named (descriptors_in count taken.now) b then zero_block else S.block_at store.old b) }
    ensures size { S.size store.new ≡ S.size store.old }
    ensures storage { S.storage store.new ≡ S.storage store.old }
{
    for i in 0..count {
        let extent = extent_at(taken, i);
        store.zero_blocks(extent.lba, extent.count);
    }
}
