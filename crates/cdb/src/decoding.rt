//! From the bytes of a CDB to its command.

ghost use Rattle.std.specs.Prelude.{◌≡◌, ◌<◌, ◌≤◌, ◌==◌, [], ◌∷◌, if◌then◌else◌, unwrap_or, IfSome};
ghost use Rattle.cdb.specs.Fields.{bit, bits, byte, is_over, is_set};
ghost use Rattle.cdb.specs.Profile.{inquiry_causes, inquiry_meaning, page_of, protect, sense_causes, sense_meaning};
ghost use Rattle.cdb.specs.Decoding.{any, command};
ghost use Rattle.cdb.specs.Inner.Decoding.{fields_of, same_causes, same_meaning, service_causes, service_meaning, unless};
ghost use Rattle.cdb.specs.Need.{need_of};

use crate::commands::{
    CDB_BYTES, Command, InquiryData, MOST_COMPARE_BLOCKS, MOST_TRANSFER_BLOCKS,
    MOST_WRITE_SAME_BLOCKS, SelectReport,
};
use crate::fields::{
    Blocks, blocks_10, blocks_12, blocks_16, has_bit, has_protect, lba_6, lba_64, length_6,
    low_bits,
};
use crate::opcodes;
use crate::profile::Profile;
use crate::wide_commands::WideCommand;
use crate::wide_decoding::{decode_other, service_action_in_16};
use byteorder::{BigEndian, ByteOrder};
use sense::SenseFormat;

/// The service action of SERVICE ACTION IN (16) that is READ CAPACITY (16) (SBC-3 §5.16).
pub(crate) const READ_CAPACITY_16: u8 = 0x10;

/// The page code that a standard INQUIRY has.
const NO_PAGE: u8 = 0x00;

/// The bit NACA of the control byte (SAM-5 §5.2).
const NACA: u8 = 2;

/// Returns the command that a CDB asks a unit of this profile for, with its fields read and held against the device's
/// limits. Every CDB has one. A command of the profile whose fields are refused, or that asks for NACA, is `Bad`. An
/// opcode that the profile lacks is `Unknown`. None needs more than 1,048,576 bytes from the driver.
#[tactic(auto, using(crate::proofs::WideRows::by_none))]
#[inline(never)]
pub fn decode(profile: Profile, cdb: &[u8; CDB_BYTES]) -> Command
    ensures meaning { result ≡ command profile cdb.now }
    ensures data_out { (need_of result).out ≤ 1048576 }
{
    match cdb[0] {
        0x00..=0x1f => decode_6(profile, cdb),
        0x20..=0x5f => decode_10(profile, cdb),
        0x80..=0x9f => decode_16(profile, cdb),
        0xa0..=0xbf => decode_12(profile, cdb),
        _ => Command::Unknown,
    }
}

/// Decodes a CDB of 6 bytes.
#[tactic(auto, using(crate::proofs::Rows::narrow_none))]
fn decode_6(profile: Profile, cdb: &[u8; CDB_BYTES]) -> Command
    requires { byte 0 cdb.now < 0x20 }
    ensures meaning { result ≡ command profile cdb.now }
    ensures data_out { (need_of result).out ≤ 1048576 }
{
    let fields = match cdb[0] {
        opcodes::TEST_UNIT_READY => Some(Command::TestUnitReady),
        opcodes::REQUEST_SENSE => request_sense(profile, cdb),
        opcodes::READ_6 => Some(Command::Read {
            lba: lba_6(cdb),
            blocks: length_6(cdb),
        }),
        opcodes::WRITE_6 => Some(Command::Write {
            lba: lba_6(cdb),
            blocks: length_6(cdb),
        }),
        opcodes::INQUIRY => inquiry(profile, cdb),
        _ => return decode_other(profile, cdb),
    };
    under_control(cdb, 5, fields)
}

/// Decodes a CDB of 10 bytes.
#[tactic(auto, using(crate::proofs::Rows::narrow_none))]
fn decode_10(profile: Profile, cdb: &[u8; CDB_BYTES]) -> Command
    requires from { 0x20 ≤ byte 0 cdb.now }
    requires to { byte 0 cdb.now < 0x60 }
    ensures meaning { result ≡ command profile cdb.now }
    ensures data_out { (need_of result).out ≤ 1048576 }
{
    let fields = match cdb[0] {
        opcodes::READ_CAPACITY_10 => Some(Command::ReadCapacity10),
        opcodes::READ_10 => read(cdb, blocks_10(cdb)),
        opcodes::WRITE_10 => write(cdb, blocks_10(cdb)),
        opcodes::SYNCHRONIZE_CACHE_10 => Some(synchronize_cache(blocks_10(cdb))),
        opcodes::WRITE_SAME_10 => write_same(cdb, blocks_10(cdb)),
        opcodes::UNMAP => unmap(cdb),
        _ => return decode_other(profile, cdb),
    };
    under_control(cdb, 9, fields)
}

/// Decodes a CDB of 12 bytes.
#[tactic(auto, using(crate::proofs::Rows::narrow_none))]
fn decode_12(profile: Profile, cdb: &[u8; CDB_BYTES]) -> Command
    requires from { 0xa0 ≤ byte 0 cdb.now }
    requires to { byte 0 cdb.now < 0xc0 }
    ensures meaning { result ≡ command profile cdb.now }
    ensures data_out { (need_of result).out ≤ 1048576 }
{
    let fields = match cdb[0] {
        opcodes::REPORT_LUNS => report_luns(cdb),
        opcodes::READ_12 => read(cdb, blocks_12(cdb)),
        opcodes::WRITE_12 => write(cdb, blocks_12(cdb)),
        _ => return decode_other(profile, cdb),
    };
    under_control(cdb, 11, fields)
}

/// Decodes a CDB of 16 bytes.
#[tactic(auto, using(crate::proofs::Rows::narrow_none))]
fn decode_16(profile: Profile, cdb: &[u8; CDB_BYTES]) -> Command
    requires from { 0x80 ≤ byte 0 cdb.now }
    requires to { byte 0 cdb.now < 0xa0 }
    ensures meaning { result ≡ command profile cdb.now }
    ensures data_out { (need_of result).out ≤ 1048576 }
{
    let fields = match cdb[0] {
        opcodes::READ_16 => read(cdb, blocks_16(cdb)),
        opcodes::WRITE_16 => write(cdb, blocks_16(cdb)),
        opcodes::COMPARE_AND_WRITE => compare_and_write(cdb),
        opcodes::SYNCHRONIZE_CACHE_16 => Some(synchronize_cache(blocks_16(cdb))),
        opcodes::WRITE_SAME_16 => write_same_16(profile, cdb),
        opcodes::SERVICE_ACTION_IN_16 => service_action(profile, cdb),
        _ => return decode_other(profile, cdb),
    };
    under_control(cdb, 15, fields)
}

/// Returns the command that the fields say, if they aren't refused and the control byte at this index has no NACA; else
/// `Bad`.
pub(crate) fn under_control(
    cdb: &[u8; CDB_BYTES],
    control: usize,
    fields: Option<Command>,
) -> Command
    requires index { control < 16 }
    requires data_out { IfSome fields (λ c. (need_of c).out ≤ 1048576) }
    ensures meaning { result
        ≡ (if bit control 2 cdb.now then Command.Bad (byte 0 cdb.now)
        else unwrap_or fields (Command.Bad (byte 0 cdb.now))) }
    ensures data_out { (need_of result).out ≤ 1048576 }
{
    match fields {
        Some(command) if !has_bit(cdb[control], NACA) => command,
        _ => Command::Bad { opcode: cdb[0] },
    }
}

/// Decodes REQUEST SENSE; `None` where its fields are refused. So with each command below.
fn request_sense(profile: Profile, cdb: &[u8; CDB_BYTES]) -> Option<Command>
    ensures meaning { result ≡ unless (sense_causes profile cdb.now) (sense_meaning cdb.now) }
    ensures data_out { IfSome result (λ c. (need_of c).out ≤ 1048576) }
{
    let descriptor_format = has_bit(cdb[1], 0);
    if descriptor_format && profile == Profile::Narrow {
        return None;
    }
    let format = if descriptor_format {
        SenseFormat::Descriptor
    } else {
        SenseFormat::Fixed
    };
    Some(Command::RequestSense {
        format,
        allocation: u32::from(cdb[4]),
    })
}

/// Decodes INQUIRY.
fn inquiry(profile: Profile, cdb: &[u8; CDB_BYTES]) -> Option<Command>
    ensures meaning { result ≡ unless (inquiry_causes profile cdb.now) (inquiry_meaning profile cdb.now) }
    ensures data_out { IfSome result (λ c. (need_of c).out ≤ 1048576) }
{
    let vital_product_data = has_bit(cdb[1], 0);
    let what = if vital_product_data {
        page(profile, cdb[2])?
    } else if cdb[2] == NO_PAGE {
        InquiryData::Standard
    } else {
        return None;
    };
    Some(Command::Inquiry {
        what,
        allocation: u32::from(BigEndian::read_u16(&cdb[3..5])),
    })
}

/// Returns the page of vital product data of this page code, if a unit of this profile has it.
fn page(profile: Profile, code: u8) -> Option<InquiryData>
    ensures { result ≡ page_of profile code }
{
    match code {
        0x00 => Some(InquiryData::SupportedPages),
        0x80 => Some(InquiryData::SerialNumber),
        0x83 => Some(InquiryData::DeviceIdentification),
        0xb0 => Some(InquiryData::BlockLimits),
        0xb2 => Some(InquiryData::LogicalBlockProvisioning),
        0x86 if profile == Profile::Wide => Some(InquiryData::ExtendedInquiry),
        0xb1 if profile == Profile::Wide => Some(InquiryData::BlockDeviceCharacteristics),
        _ => None,
    }
}

/// Decodes REPORT LUNS.
fn report_luns(cdb: &[u8; CDB_BYTES]) -> Option<Command>
    ensures meaning { result ≡ fields_of Profile.Narrow 0xa0 cdb.now }
    ensures data_out { IfSome result (λ c. (need_of c).out ≤ 1048576) }
{
    let select = match cdb[2] {
        0x00 => SelectReport::LogicalUnits,
        0x01 => SelectReport::WellKnownLogicalUnits,
        0x02 => SelectReport::AllLogicalUnits,
        _ => return None,
    };
    Some(Command::ReportLuns {
        select,
        allocation: BigEndian::read_u32(&cdb[6..10]),
    })
}

/// Decodes the service actions of SERVICE ACTION IN (16).
fn service_action(profile: Profile, cdb: &[u8; CDB_BYTES]) -> Option<Command>
    ensures meaning { result
        ≡ unless (service_causes profile cdb.now) (service_meaning profile cdb.now) }
    ensures data_out { IfSome result (λ c. (need_of c).out ≤ 1048576) }
{
    match profile {
        Profile::Narrow => read_capacity_16(cdb),
        Profile::Wide => service_action_in_16(cdb),
    }
}

/// Decodes READ CAPACITY (16), the one service action of the narrow profile.
fn read_capacity_16(cdb: &[u8; CDB_BYTES]) -> Option<Command>
    ensures meaning { result ≡ fields_of Profile.Narrow 0x9e cdb.now }
    ensures data_out { IfSome result (λ c. (need_of c).out ≤ 1048576) }
{
    let service_action = low_bits(cdb[1], 5);
    if service_action != READ_CAPACITY_16 {
        return None;
    }
    Some(Command::ReadCapacity16 {
        allocation: BigEndian::read_u32(&cdb[10..14]),
    })
}

/// Decodes READ (10), (12) or (16), of these blocks.
fn read(cdb: &[u8; CDB_BYTES], blocks: Blocks) -> Option<Command>
    ensures meaning { result
        ≡ unless (protect cdb.now ∷ is_over 2048 blocks.count ∷ [])
        (Command.Read blocks.lba blocks.count) }
    ensures data_out { IfSome result (λ c. (need_of c).out ≤ 1048576) }
{
    Some(Command::Read {
        lba: blocks.lba,
        blocks: transfer_length(cdb, blocks.count)?,
    })
}

/// Decodes WRITE (10), (12) or (16), of these blocks.
pub(crate) fn write(cdb: &[u8; CDB_BYTES], blocks: Blocks) -> Option<Command>
    ensures meaning { result
        ≡ unless (protect cdb.now ∷ is_over 2048 blocks.count ∷ [])
        (Command.Write blocks.lba blocks.count) }
    ensures data_out { IfSome result (λ c. (need_of c).out ≤ 1048576) }
{
    Some(Command::Write {
        lba: blocks.lba,
        blocks: transfer_length(cdb, blocks.count)?,
    })
}

/// Returns how many blocks a READ, a WRITE or an ORWRITE moves; `None` where it asks for protection information or for too many.
pub(crate) fn transfer_length(cdb: &[u8; CDB_BYTES], count: u32) -> Option<u16>
    ensures length { result ≡ unless (protect cdb.now ∷ is_over 2048 count ∷ []) count }
    ensures bounded { IfSome result (λ blocks. blocks ≤ 2048) }
{
    if has_protect(cdb) || count > u32::from(MOST_TRANSFER_BLOCKS) {
        return None;
    }
    Some(count as u16)
}

/// Decodes SYNCHRONIZE CACHE, of which no field is refused.
pub(crate) fn synchronize_cache(blocks: Blocks) -> Command
    ensures meaning { result ≡ Command.SynchronizeCache blocks.lba blocks.count }
    ensures data_out { (need_of result).out ≤ 1048576 }
{
    Command::SynchronizeCache {
        lba: blocks.lba,
        blocks: blocks.count,
    }
}

/// Decodes WRITE SAME, but for what is (16) alone.
fn write_same(cdb: &[u8; CDB_BYTES], blocks: Blocks) -> Option<Command>
    ensures meaning { result
        ≡ unless (protect cdb.now ∷ bit 1 4 cdb.now ∷ is_set (bits 1 2 1 cdb.now)
        ∷ (blocks.count == 0) ∷ is_over 65536 blocks.count ∷ [])
        (Command.WriteSame blocks.lba blocks.count) }
    ensures data_out { IfSome result (λ c. (need_of c).out ≤ 1048576) }
{
    if is_refused_same(cdb, blocks.count) {
        return None;
    }
    Some(Command::WriteSame {
        lba: blocks.lba,
        blocks: blocks.count,
    })
}

/// Decodes WRITE SAME (16) without data.
fn write_zeros(cdb: &[u8; CDB_BYTES], blocks: Blocks) -> Option<Command>
    ensures meaning { result
        ≡ unless (protect cdb.now ∷ bit 1 4 cdb.now ∷ is_set (bits 1 2 1 cdb.now)
        ∷ (blocks.count == 0) ∷ is_over 65536 blocks.count ∷ [])
        (Command.Wide (WideCommand.WriteZeros blocks.count blocks.lba)) }
    ensures data_out { IfSome result (λ c. (need_of c).out ≤ 1048576) }
{
    if is_refused_same(cdb, blocks.count) {
        return None;
    }
    Some(Command::Wide(WideCommand::WriteZeros {
        blocks: blocks.count,
        lba: blocks.lba,
    }))
}

/// Returns true if a WRITE SAME of so many blocks is refused, whether it has data or not.
fn is_refused_same(cdb: &[u8; CDB_BYTES], count: u32) -> bool
    ensures { result ≡ any (protect cdb.now ∷ bit 1 4 cdb.now ∷ is_set (bits 1 2 1 cdb.now)
        ∷ (count == 0) ∷ is_over 65536 count ∷ []) }
{
    let anchor = has_bit(cdb[1], 4);
    let obsolete = has_bit(cdb[1], 2) || has_bit(cdb[1], 1);
    if has_protect(cdb) || anchor || obsolete {
        return true;
    }
    count == 0 || count > MOST_WRITE_SAME_BLOCKS
}

/// Decodes WRITE SAME (16).
fn write_same_16(profile: Profile, cdb: &[u8; CDB_BYTES]) -> Option<Command>
    ensures meaning { result ≡ unless (same_causes profile cdb.now) (same_meaning profile cdb.now) }
    ensures data_out { IfSome result (λ c. (need_of c).out ≤ 1048576) }
{
    let no_data_out = has_bit(cdb[1], 0);
    match profile {
        Profile::Narrow if no_data_out => None,
        Profile::Wide if no_data_out => write_zeros(cdb, blocks_16(cdb)),
        _ => write_same(cdb, blocks_16(cdb)),
    }
}

/// Decodes UNMAP.
fn unmap(cdb: &[u8; CDB_BYTES]) -> Option<Command>
    ensures meaning { result ≡ fields_of Profile.Narrow 0x42 cdb.now }
    ensures data_out { IfSome result (λ c. (need_of c).out ≤ 1048576) }
{
    let anchor = has_bit(cdb[1], 0);
    if anchor {
        return None;
    }
    Some(Command::Unmap {
        list_length: BigEndian::read_u16(&cdb[7..9]),
    })
}

/// Decodes COMPARE AND WRITE.
fn compare_and_write(cdb: &[u8; CDB_BYTES]) -> Option<Command>
    ensures meaning { result ≡ fields_of Profile.Narrow 0x89 cdb.now }
    ensures data_out { IfSome result (λ c. (need_of c).out ≤ 1048576) }
{
    let blocks = cdb[13];
    if has_protect(cdb) || blocks > MOST_COMPARE_BLOCKS {
        return None;
    }
    Some(Command::CompareAndWrite {
        lba: lba_64(cdb),
        blocks,
    })
}
