//! VERIFY that compares (SBC-3 §5.29).

ghost use Rattle.std.specs.Prelude.{◌≡◌, ℕ, ◌+◌, ◌*◌, ◌<◌, ◌≤◌, ◌&&◌, nat_lt, [], length, vec_capacity, IfSome, IsTrue};
ghost use Rattle.cdb.specs.Need.{sent_blocks};
ghost use Rattle.block_store.specs.Blocks.{nth_block, run};
ghost use Rattle.command_model.specs.Capacity.{is_in_range, within};
ghost use Rattle.command_model.specs.Comparing.{compared, first_unequal, to_verify};
ghost use Rattle.block_commands.specs.Inner.Steps.{Gives, Wants};
ghost use Rattle.block_commands.specs.Inner.Ready.{is_inside};

use crate::capacity::is_in_range;
use crate::compare::first_unequal;
use crate::failure::Failure;
use block_store::{BLOCK_BYTES, Store};
use cdb::VerifyData;
use sense::Sense;
use std::alloc::Global;

/// Compares each block of the range with the data, one after another, up to the first that differs. Has memory for one
/// block.
pub(crate) fn verify<S: Store>(
    alloc: Global,
    store: &S,
    sent: VerifyData,
    lba: u64,
    blocks: u16,
    bytes: &[u8],
) -> Result<(), Failure>
    requires size { length bytes.now ≡ 512 * sent_blocks sent blocks }
    requires held { (b : ℕ) → IsTrue (is_inside (S.size store.now) lba blocks b) → IsTrue (S.is_held store.now b) }
    ensures answer { Gives (λ _. []) (within (S.size store.now) lba blocks
        (compared (first_unequal (run (to_verify sent bytes.now) 0 blocks) (run (S.block_at store.now) lba blocks)))) result }
    ensures want { Wants (nat_lt 0 blocks && is_in_range (S.size store.now) lba blocks) result }
{
    if !is_in_range(store.capacity(), lba, u32::from(blocks)) {
        return Err(Failure::Refused(Sense::LBA_OUT_OF_RANGE));
    }
    if blocks == 0 {
        return Ok(());
    }
    let mut held = Vec::with_capacity(alloc, BLOCK_BYTES)?;
    for index in 0..blocks {
        let expected = expected_at(sent, bytes, index, blocks);
        if let Some(offset) = unequal_at(store, lba + u64::from(index), expected, &mut held) {
            return Err(Failure::Refused(Sense::miscompare(
                BLOCK_BYTES as u32 * u32::from(index) + offset,
            )));
        }
    }
    Ok(())
}

/// Returns the data with which the block of this index in the range is compared.
fn expected_at(sent: VerifyData, bytes: &[u8], index: u16, blocks: u16) -> &[u8]
    requires size { length bytes.now ≡ 512 * sent_blocks sent blocks }
    requires inside { index < blocks }
    ensures bytes { result.now ≡ to_verify sent bytes.now index }
    ensures len { length result.now ≡ 512 }
{
    match sent {
        VerifyData::EachBlock => block_in(bytes, index),
        VerifyData::OneBlock => bytes,
    }
}

/// Returns the block of this index in some bytes.
fn block_in(bytes: &[u8], index: u16) -> &[u8]
    requires { 512 * index + 512 ≤ length bytes.now }
    ensures block { result.now ≡ nth_block bytes.now index }
    ensures len { length result.now ≡ 512 }
{
    let (_, later) = bytes.split_at(BLOCK_BYTES * usize::from(index));
    &later[..BLOCK_BYTES]
}

/// Returns the offset of the first byte in which a block differs from these. The list has room for a block, whatever
/// stands there.
fn unequal_at<S: Store>(store: &S, lba: u64, expected: &[u8], held: &mut Vec<u8>) -> Option<u32>
    requires size { length expected.now ≡ 512 }
    requires range { lba + 1 ≤ S.size store.now }
    requires block { IsTrue (S.is_held store.now lba) }
    requires room { 512 ≤ vec_capacity held.old }
    ensures offset { result ≡ first_unequal expected.now (S.block_at store.now lba) }
    ensures room { 512 ≤ vec_capacity held.new }
    ensures bound { IfSome result (λ offset. offset < 512) }
{
    held.clear();
    store.read_blocks(lba, 1, held);
    let offset = first_unequal(expected, held)?;
    Some(offset as u32)
}
