//! The capacity of a unit: its data, and the ranges that lie below it.

ghost use Rattle.std.specs.Prelude.{◌≡◌, ◌-◌};
ghost use Rattle.command_model.specs.Capacity.{capacity_10, capacity_16, is_in_range};

use block_store::BLOCK_BYTES;

/// LBPME and LBPRZ: the unit is thin provisioned, and unmapped blocks are zeros.
const PROVISIONED: u8 = 0xc0;

/// Returns true if so many blocks from `lba` on lie below the capacity. None may stand at its end.
pub(crate) fn is_in_range(capacity: u64, lba: u64, count: u32) -> bool
    ensures { result ≡ is_in_range capacity lba count }
{
    lba <= capacity && u64::from(count) <= capacity - lba
}

/// Returns the data of READ CAPACITY (10): the last address, all ones where it is too large, and the bytes of a block.
#[tactic(auto, unfolding(command_model::specs::Capacity::capacity_10))]
pub(crate) fn capacity_10(capacity: u64) -> [u8; 8]
    ensures { result ≡ capacity_10 capacity }
{
    let last = capacity.saturating_sub(1).min(u64::from(u32::MAX)) as u32;
    let mut data = [0; 8];
    data[..4].copy_from_slice(&last.to_be_bytes());
    data[4..].copy_from_slice(&(BLOCK_BYTES as u32).to_be_bytes());
    data
}

/// Returns the data of READ CAPACITY (16), with the exponent of a physical block.
#[tactic(auto, unfolding(command_model::specs::Capacity::capacity_16))]
pub(crate) fn capacity_16(capacity: u64, exponent: u8) -> [u8; 32]
    ensures { result ≡ capacity_16 capacity exponent }
{
    let last = capacity.saturating_sub(1);
    let mut data = [0; 32];
    data[..8].copy_from_slice(&last.to_be_bytes());
    data[8..12].copy_from_slice(&(BLOCK_BYTES as u32).to_be_bytes());
    data[13] = exponent;
    data[14] = PROVISIONED;
    data
}
