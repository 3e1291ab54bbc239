//! The data of REPORT LUNS (SPC-4 §6.33).

ghost use Rattle.std.specs.Prelude.{◌≡◌, ◌≤◌, length, take, IfOk};
ghost use Rattle.command_model.specs.Luns.{listed, lun_entry, lun_list};

use cdb::SelectReport;
use std::alloc::{AllocError, Global};

/// The bytes of an entry, and of what stands before the entries.
const ENTRY_BYTES: usize = 8;

/// The LUNs below this one are addressed in one byte.
const FLAT_SPACE_FROM: u16 = 256;

/// Flat space addressing, in the two upper bits of a LUN.
const FLAT_SPACE: u8 = 0x40;

/// Returns the LUNs of a target that a REPORT LUNS asks for: there is no well known one.
pub(crate) fn listed_luns(select: SelectReport, luns: &[u16]) -> &[u16]
    ensures { result.now ≡ listed select luns.now }
{
    match select {
        SelectReport::LogicalUnits | SelectReport::AllLogicalUnits => luns,
        SelectReport::WellKnownLogicalUnits => &luns[..0],
    }
}

/// Returns the list of these LUNs, cut to the allocation length.
pub(crate) fn lun_list(alloc: Global, luns: &[u16], allocation: u32) -> Result<Vec<u8>, AllocError>
    requires { length luns.now ≤ 16384 }
    ensures { IfOk result (λ bytes. bytes.items ≡ take allocation (lun_list luns.now)) }
{
    let bytes = ENTRY_BYTES * luns.len();
    let mut list = Vec::with_capacity(alloc, ENTRY_BYTES + bytes)?;
    list.extend_from_slice(&(bytes as u32).to_be_bytes())?;
    list.extend_from_slice(&[0; 4])?;
    for lun in luns {
        list.extend_from_slice(&lun_entry(*lun))?;
    }
    list.truncate(allocation as usize);
    Ok(list)
}

/// Returns the entry of a LUN.
fn lun_entry(lun: u16) -> [u8; ENTRY_BYTES]
    ensures { result ≡ lun_entry lun }
{
    let low = (lun % 256) as u8;
    if lun < FLAT_SPACE_FROM {
        [0, low, 0, 0, 0, 0, 0, 0]
    } else {
        [FLAT_SPACE + (lun / 256 % 64) as u8, low, 0, 0, 0, 0, 0, 0]
    }
}
