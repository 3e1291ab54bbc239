//! COMPARE AND WRITE (SBC-3 §5.2).

ghost use Rattle.std.specs.Prelude.{◌≡◌, ℕ, ◌*◌, ◌<◌, [], length, OnOk, OnErr, IfSome, IsTrue};
ghost use Rattle.block_store.specs.Blocks.{run, overwritten};
ghost use Rattle.command_model.specs.Capacity.{is_in_range, within};
ghost use Rattle.command_model.specs.Comparing.{compared, first_unequal, to_compare, to_write};
ghost use Rattle.block_commands.specs.Inner.Steps.{Gives, Wants};
ghost use Rattle.block_commands.specs.Inner.Ready.{is_inside, is_near_to};

use crate::capacity::is_in_range;
use crate::failure::Failure;
use block_store::{BLOCK_BYTES, Store};
use sense::Sense;
use std::alloc::Global;

/// Compares the blocks with the first half of the data, and puts the second half over them where
/// they are equal. Where they differ, and after any other error, nothing is changed.
pub(crate) fn compare_and_write<S: Store>(
    alloc: Global,
    store: &mut S,
    lba: u64,
    blocks: u8,
    bytes: &[u8],
) -> Result<(), Failure>
    requires size { length bytes.now ≡ 1024 * blocks }
    requires held { (b : ℕ) → IsTrue (is_inside (S.size store.old) lba blocks b) → IsTrue (S.is_held store.old b) }
    requires room { (b : ℕ) → IsTrue (is_inside (S.size store.old) lba blocks b) → IsTrue (S.has_room store.old b) }
    requires near { (b : ℕ) → IsTrue (is_near_to (S.size store.old) lba blocks b) → IsTrue (S.is_held store.old b) }
    ensures answer { Gives (λ _. []) (within (S.size store.old) lba blocks
        (compared (first_unequal (to_compare blocks bytes.now) (run (S.block_at store.old) lba blocks)))) result }
    ensures want { Wants (is_in_range (S.size store.old) lba blocks) result }
    ensures ok { OnOk result ((b : ℕ) → S.block_at store.new b
        ≡ overwritten (S.block_at store.old) lba (to_write blocks bytes.now) b) }
    ensures err { OnErr result ((b : ℕ) → S.block_at store.new b ≡ S.block_at store.old b) }
    ensures size { S.size store.new ≡ S.size store.old }
    ensures storage { S.storage store.new ≡ S.storage store.old }
{
    if !is_in_range(store.capacity(), lba, u32::from(blocks)) {
        return Err(Failure::Refused(Sense::LBA_OUT_OF_RANGE));
    }
    let (expected, written) = bytes.split_at(BLOCK_BYTES * usize::from(blocks));
    let mut held = Vec::with_capacity(alloc, expected.len())?;
    store.read_blocks(lba, u32::from(blocks), &mut held);
    if let Some(offset) = first_unequal(expected, &held) {
        return Err(Failure::Refused(Sense::miscompare(offset as u32)));
    }
    store.write_blocks(lba, written)?;
    Ok(())
}

/// Returns the offset of the first byte in which the two differ. Where they are equal, as most often, they are compared
/// whole.
pub(crate) fn first_unequal(left: &[u8], right: &[u8]) -> Option<usize>
    ensures offset { result ≡ first_unequal left.now right.now }
    ensures bound { IfSome result (λ offset. offset < length left.now) }
{
    if left == right {
        return None;
    }
    find_unequal(left, right)
}

/// Returns the same, byte after byte.
fn find_unequal(left: &[u8], right: &[u8]) -> Option<usize>
    ensures offset { result ≡ first_unequal left.now right.now }
    ensures bound { IfSome result (λ offset. offset < length left.now) }
{
    left.iter().zip(right).position(|(a, b)| a != b)
}
