//! GET LBA STATUS (SBC-3 §5.4).

ghost use Rattle.std.specs.Prelude.{◌≡◌, ℕ, ◌+◌, ◌^◌, ◌<◌, ◌≤◌, ◌&&◌, nat_lt, length, take, vec_len, vec_capacity, Ok, Err, IfOk, IsTrue, if◌then◌else◌};
ghost use Rattle.block_store.specs.Blocks.{is_within};
ghost use Rattle.sense.specs.Conditions.{lba_out_of_range};
ghost use Rattle.command_model.specs.Provisioning.{alike, is_zero, looked_at, lba_status, status_data};
ghost use Rattle.block_commands.specs.Inner.Steps.{Gives, Wants};
ghost use Rattle.block_commands.specs.Inner.Ready.{is_inside};

use crate::data::cut;
use crate::failure::Failure;
use block_store::{BLOCK_BYTES, Store};
use sense::Sense;
use std::alloc::Global;

/// The most blocks that one reply tells of: as many as one command reads.
const MOST_BLOCKS: u64 = 2048;

/// The bytes that follow byte 3 of the data.
const LENGTH_BEHIND: u32 = 20;

/// The provisioning status of a block of zeros.
const DEALLOCATED: u8 = 0x01;

/// The provisioning status of any other.
const MAPPED: u8 = 0x00;

/// A block of zeros.
static ZEROS: [u8; BLOCK_BYTES] = [0; BLOCK_BYTES];

/// Returns the provisioning status of the block at the address, and for how many blocks it is the same, cut to the allocation
/// length. Has memory for one block.
#[tactic(auto, unfolding(command_model::specs::Provisioning::lba_status))]
pub(crate) fn block_status<S: Store>(
    alloc: Global,
    store: &S,
    lba: u64,
    allocation: u32,
) -> Result<Vec<u8>, Failure>
    requires held { (b : ℕ) → IsTrue (is_inside (S.size store.now) lba (looked_at (S.size store.now) lba) b)
        → IsTrue (S.is_held store.now b) }
    ensures answer { Gives (λ bytes. bytes.items) (if nat_lt lba (S.size store.now)
        then Ok (take allocation (lba_status (S.size store.now) lba (S.block_at store.now))) else Err lba_out_of_range) result }
    ensures want { Wants (nat_lt 0 allocation && nat_lt lba (S.size store.now)) result }
    ensures room { IfOk result (λ bytes. vec_len bytes ≤ allocation) }
{
    if lba >= store.capacity() {
        return Err(Failure::Refused(Sense::LBA_OUT_OF_RANGE));
    }
    if allocation == 0 {
        return Ok(Vec::new(alloc));
    }
    let mut held = Vec::with_capacity(alloc, BLOCK_BYTES)?;
    let zero = is_zero_at(store, lba, &mut held);
    let count = count_alike(
        store,
        lba,
        looked_at(store.capacity(), lba),
        zero,
        &mut held,
    );
    Ok(cut(alloc, &status_data(lba, count, status_of(zero)), allocation)?)
}

/// Returns how many blocks from `lba` on are looked at.
pub(crate) fn looked_at(capacity: u64, lba: u64) -> u32
    ensures count { result ≡ looked_at capacity lba }
{
    capacity.saturating_sub(lba).min(MOST_BLOCKS) as u32
}

/// Counts the blocks from `lba` on, `count` at most, up to one that differs from the first: in being zeros, or in not being
/// zeros. `zero` is true if the first is. The list has room for a block, whatever stands there.
fn count_alike<S: Store>(store: &S, lba: u64, count: u32, zero: bool, held: &mut Vec<u8>) -> u32
    requires some { 0 < count }
    requires fits { lba + count < 2 ^ 64 }
    requires range { lba + count ≤ S.size store.now }
    requires blocks { (b : ℕ) → IsTrue (is_within lba count b) → IsTrue (S.is_held store.now b) }
    requires first { zero ≡ is_zero (S.block_at store.now lba) }
    requires room { 512 ≤ vec_capacity held.old }
    ensures count { result ≡ alike (S.block_at store.now) lba count }
{
    for index in 1..count {
        if is_zero_at(store, lba + u64::from(index), held) != zero {
            return index;
        }
    }
    count
}

/// Returns true if the bytes of a block are zeros. The list has room for a block, whatever stands there.
fn is_zero_at<S: Store>(store: &S, lba: u64, held: &mut Vec<u8>) -> bool
    requires range { lba + 1 ≤ S.size store.now }
    requires block { IsTrue (S.is_held store.now lba) }
    requires room { 512 ≤ vec_capacity held.old }
    ensures zero { result ≡ is_zero (S.block_at store.now lba) }
    ensures room { 512 ≤ vec_capacity held.new }
{
    held.clear();
    store.read_blocks(lba, 1, held);
    is_zero(held)
}

/// Returns true if the bytes of a block are zeros. They are compared whole.
fn is_zero(block: &[u8]) -> bool
    requires { length block.now ≡ 512 }
    ensures { result ≡ is_zero block.now }
{
    block == &ZEROS[..]
}

/// Returns the provisioning status of a block of zeros, or of another.
fn status_of(zero: bool) -> u8
    ensures { result ≡ (if zero then 0x01 else 0x00) }
{
    if zero { DEALLOCATED } else { MAPPED }
}

/// Makes the data, with one descriptor.
#[tactic(auto, unfolding(command_model::specs::Provisioning::status_data))]
fn status_data(lba: u64, count: u32, status: u8) -> [u8; 24]
    ensures { result ≡ status_data lba count status }
{
    let mut data = [0; 24];
    data[..4].copy_from_slice(&LENGTH_BEHIND.to_be_bytes());
    data[8..16].copy_from_slice(&lba.to_be_bytes());
    data[16..20].copy_from_slice(&count.to_be_bytes());
    data[20] = status;
    data
}
