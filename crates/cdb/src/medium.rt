//! Asking for the medium itself.

ghost use Rattle.std.specs.Prelude.{◌≡◌};
ghost use Rattle.cdb.specs.Medium.{asks_medium};

use crate::commands::CDB_BYTES;
use crate::fields::has_bit;
use crate::opcodes;

/// The bit FUA of byte 1, force unit access (SBC-3 §5.11).
const FUA: u8 = 3;

/// Returns true if a CDB asks for the medium itself, whatever a volatile cache before it holds: a READ, a WRITE, a COMPARE
/// AND WRITE or an ORWRITE with FUA, and each WRITE AND VERIFY (SBC-3 §5.11, §5.37).
pub fn asks_medium(cdb: &[u8; CDB_BYTES]) -> bool
    ensures { result ≡ asks_medium cdb.now }
{
    match cdb[0] {
        opcodes::READ_10
        | opcodes::WRITE_10
        | opcodes::READ_16
        | opcodes::COMPARE_AND_WRITE
        | opcodes::WRITE_16
        | opcodes::OR_WRITE_16
        | opcodes::READ_12
        | opcodes::WRITE_12 => has_bit(cdb[1], FUA),
        opcodes::WRITE_AND_VERIFY_10
        | opcodes::WRITE_AND_VERIFY_16
        | opcodes::WRITE_AND_VERIFY_12 => true,
        _ => false,
    }
}
