//! The fields of a CDB.

ghost use Rattle.std.specs.Prelude.{◌≡◌, ◌<◌, ◌≤◌, ◌/◌, ◌%◌, ◌^◌, ◌==◌};
ghost use Rattle.cdb.specs.Fields.{number};
ghost use Rattle.cdb.specs.Profile.{length_6, lba_6, protect};

use crate::commands::CDB_BYTES;
use byteorder::{BigEndian, ByteOrder};

/// The blocks that a CDB names.
#[derive(Clone, Copy)]
pub struct Blocks {
    /// The first block.
    pub lba: u64,
    /// The number of blocks.
    pub count: u32,
}

/// Returns the logical block address of 21 bits in a CDB of 6 bytes.
pub fn lba_6(cdb: &[u8; CDB_BYTES]) -> u64
    ensures { result ≡ lba_6 cdb.now }
{
    let high = u64::from(low_bits(cdb[1], 5));
    (high << 16) + u64::from(BigEndian::read_u16(&cdb[2..4]))
}

/// Returns the logical block address in a CDB of 10 or 12 bytes.
pub fn lba_32(cdb: &[u8; CDB_BYTES]) -> u64
    ensures { result ≡ number 2 5 cdb.now }
{
    u64::from(BigEndian::read_u32(&cdb[2..6]))
}

/// Returns the logical block address in a CDB of 16 bytes.
pub fn lba_64(cdb: &[u8; CDB_BYTES]) -> u64
    ensures { result ≡ number 2 9 cdb.now }
{
    BigEndian::read_u64(&cdb[2..10])
}

/// Returns the transfer length in a CDB of 6 bytes, in blocks: 0 means 256.
pub fn length_6(cdb: &[u8; CDB_BYTES]) -> u16
    ensures length { result ≡ length_6 cdb.now }
    ensures bounded { result ≤ 256 }
{
    match cdb[4] {
        0 => 256,
        length => u16::from(length),
    }
}

/// Returns the blocks of a CDB of 10 bytes.
pub fn blocks_10(cdb: &[u8; CDB_BYTES]) -> Blocks
    ensures lba { result.lba ≡ number 2 5 cdb.now }
    ensures count { result.count ≡ number 7 8 cdb.now }
{
    Blocks {
        lba: lba_32(cdb),
        count: u32::from(BigEndian::read_u16(&cdb[7..9])),
    }
}

/// Returns the blocks of a CDB of 12 bytes.
pub fn blocks_12(cdb: &[u8; CDB_BYTES]) -> Blocks
    ensures lba { result.lba ≡ number 2 5 cdb.now }
    ensures count { result.count ≡ number 6 9 cdb.now }
{
    Blocks {
        lba: lba_32(cdb),
        count: BigEndian::read_u32(&cdb[6..10]),
    }
}

/// Returns the blocks of a CDB of 16 bytes.
pub fn blocks_16(cdb: &[u8; CDB_BYTES]) -> Blocks
    ensures lba { result.lba ≡ number 2 9 cdb.now }
    ensures count { result.count ≡ number 10 13 cdb.now }
{
    Blocks {
        lba: lba_64(cdb),
        count: BigEndian::read_u32(&cdb[10..14]),
    }
}

/// Returns true if RDPROTECT or WRPROTECT asks for protection information.
pub fn has_protect(cdb: &[u8; CDB_BYTES]) -> bool
    ensures { result ≡ protect cdb.now }
{
    cdb[1] >> 5 != 0
}

/// Returns true if this bit of a byte, 0 to 7, is 1.
pub fn has_bit(byte: u8, position: u8) -> bool
    requires { position < 8 }
    ensures { result ≡ (byte / 2 ^ position % 2 == 1) }
{
    byte >> position & 1 == 1
}

/// Returns the number in this many low bits of a byte, 0 to 7.
pub fn low_bits(byte: u8, count: u8) -> u8
    requires { count < 8 }
    ensures { result ≡ byte % 2 ^ count }
{
    byte % (1 << count)
}
