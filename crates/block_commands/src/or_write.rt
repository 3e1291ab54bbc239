//! ORWRITE (SBC-3 §5.5).

ghost use Rattle.std.specs.Prelude.{◌≡◌, ℕ, ◌-◌, ◌*◌, [], length, OnOk, OnErr, IsTrue, if◌then◌else◌};
ghost use Rattle.block_store.specs.Blocks.{is_within, nth_block};
ghost use Rattle.command_model.specs.Capacity.{is_in_range, within};
ghost use Rattle.command_model.specs.Data.{done};
ghost use Rattle.command_model.specs.Effects.{or_bytes};
ghost use Rattle.block_commands.specs.Inner.Steps.{Gives, Wants};
ghost use Rattle.block_commands.specs.Inner.Ready.{is_inside, is_near_to};

use crate::capacity::is_in_range;
use crate::failure::Failure;
use block_store::Store;
use sense::Sense;
use std::alloc::Global;

/// Puts the OR of each block and its data over the block, all at once. After an error nothing is changed. Has memory for
/// all of the blocks.
pub(crate) fn or_write<S: Store>(
    alloc: Global,
    store: &mut S,
    lba: u64,
    blocks: u16,
    bytes: &[u8],
) -> Result<(), Failure>
    requires size { length bytes.now ≡ 512 * blocks }
    requires held { (b : ℕ) → IsTrue (is_inside (S.size store.old) lba blocks b) → IsTrue (S.is_held store.old b) }
    requires room { (b : ℕ) → IsTrue (is_inside (S.size store.old) lba blocks b) → IsTrue (S.has_room store.old b) }
    requires near { (b : ℕ) → IsTrue (is_near_to (S.size store.old) lba blocks b) → IsTrue (S.is_held store.old b) }
    ensures answer { Gives (λ _. []) (within (S.size store.old) lba blocks done) result }
    ensures want { Wants (is_in_range (S.size store.old) lba blocks) result }
    ensures ok { OnOk result ((b : ℕ) → S.block_at store.new b ≡ (if is_within lba blocks b
        then or_bytes (S.block_at store.old b) (nth_block bytes.now (b - lba)) else S.block_at store.old b)) }
    ensures err { OnErr result ((b : ℕ) → S.block_at store.new b ≡ S.block_at store.old b) }
    ensures size { S.size store.new ≡ S.size store.old }
    ensures storage { S.storage store.new ≡ S.storage store.old }
{
    if !is_in_range(store.capacity(), lba, u32::from(blocks)) {
        return Err(Failure::Refused(Sense::LBA_OUT_OF_RANGE));
    }
    let mut held = Vec::with_capacity(alloc, bytes.len())?;
    store.read_blocks(lba, u32::from(blocks), &mut held);
    or_all(&mut held, bytes);
    store.write_blocks(lba, &held)?;
    Ok(())
}

/// Puts the OR of each byte of a list and its counterpart over the byte.
fn or_all(held: &mut Vec<u8>, bytes: &[u8])
    requires { length held.old.items ≡ length bytes.now }
    ensures bytes { held.new.items ≡ or_bytes held.old.items bytes.now }
    ensures len { length held.new.items ≡ length held.old.items }
{
    put_or(held, bytes);
}

/// Does the same, byte after byte.
fn put_or(held: &mut [u8], bytes: &[u8])
    requires { length held.old ≡ length bytes.now }
    ensures bytes { held.new ≡ or_bytes held.old bytes.now }
    ensures len { length held.new ≡ length held.old }
{
    for at in 0..held.len() {
        held[at] |= bytes[at];
    }
}
