//! From the bytes of a CDB to its command, where the wide profile alone has its opcode.

ghost use Rattle.std.specs.Prelude.{◌≡◌, ◌<◌, ◌≤◌, ◌∷◌, ◌/◌, ◌%◌, ◌^◌, ◌==◌, [], IfSome, None};
ghost use Rattle.std.specs.List.{list_any};
ghost use Rattle.cdb.specs.Fields.{bit, bits, byte, is_over, is_set};
ghost use Rattle.cdb.specs.Profile.{protect};
ghost use Rattle.cdb.specs.WideProfile.{codes_asked, defect_causes, defect_format_of, defects_asked, format_list, mode_causes, mode_pages_of, mode_sense_of, mode_values, select_causes, subpages, verified, verified_causes};
ghost use Rattle.cdb.specs.Decoding.{command, row_of};
ghost use Rattle.cdb.specs.Inner.Decoding.{fields_of, unless};
ghost use Rattle.cdb.specs.Need.{need_of};

use crate::commands::{CDB_BYTES, Command, MOST_TRANSFER_BLOCKS};
use crate::decoding::{READ_CAPACITY_16, synchronize_cache, transfer_length, under_control, write};
use crate::fields::{
    Blocks, blocks_10, blocks_12, blocks_16, has_bit, has_protect, lba_64, low_bits,
};
use crate::opcodes;
use crate::profile::Profile;
use crate::wide_commands::{
    CodesAsked, DefectForm, DefectFormat, DefectRequest, FormatList, ModeDescriptor, ModeForm,
    ModePages, ModeRequest, ModeValues, VerifyData, WideCommand,
};
use byteorder::{BigEndian, ByteOrder};

/// The service action of SERVICE ACTION IN (16) that is GET LBA STATUS (SBC-3 §5.4).
const GET_LBA_STATUS: u8 = 0x12;

/// The service action of MAINTENANCE IN that is REPORT SUPPORTED OPERATION CODES (SPC-4 §6.35).
const REPORT_OPERATION_CODES: u8 = 0x0c;

/// The service action of MAINTENANCE IN that is REPORT SUPPORTED TASK MANAGEMENT FUNCTIONS (SPC-4 §6.36).
const REPORT_TASK_MANAGEMENT: u8 = 0x0d;

/// The least allocation length of the latter.
const LEAST_TASK_MANAGEMENT_BYTES: u32 = 4;

/// The subpage code that asks for a page with all its subpages (SPC-4 §6.13).
const ALL_SUBPAGES: u8 = 0xff;

/// Decodes a CDB whose opcode the narrow profile lacks.
#[tactic(auto, using(crate::proofs::WideRows::by_narrow))]
pub(crate) fn decode_other(profile: Profile, cdb: &[u8; CDB_BYTES]) -> Command
    requires { row_of Profile.Narrow (byte 0 cdb.now) ≡ None }
    ensures meaning { result ≡ command profile cdb.now }
    ensures data_out { (need_of result).out ≤ 1048576 }
{
    match profile {
        Profile::Narrow => Command::Unknown,
        Profile::Wide => decode_wide(cdb),
    }
}

/// Decodes the same by the wide profile.
#[tactic(auto, using(crate::proofs::WideRows::by_none_at))]
fn decode_wide(cdb: &[u8; CDB_BYTES]) -> Command
    requires { row_of Profile.Narrow (byte 0 cdb.now) ≡ None }
    ensures meaning { result ≡ command Profile.Wide cdb.now }
    ensures data_out { (need_of result).out ≤ 1048576 }
{
    match cdb[0] {
        0x00..=0x1f => wide_6(cdb),
        0x20..=0x5f => wide_10(cdb),
        0x80..=0x9f => wide_16(cdb),
        0xa0..=0xbf => wide_12(cdb),
        _ => Command::Unknown,
    }
}

/// Decodes one of 6 bytes.
#[tactic(auto, using(crate::proofs::WideRows::by_none_at))]
fn wide_6(cdb: &[u8; CDB_BYTES]) -> Command
    requires other { row_of Profile.Narrow (byte 0 cdb.now) ≡ None }
    requires to { byte 0 cdb.now < 0x20 }
    ensures meaning { result ≡ command Profile.Wide cdb.now }
    ensures data_out { (need_of result).out ≤ 1048576 }
{
    let fields = match cdb[0] {
        opcodes::FORMAT_UNIT => format_unit(cdb),
        opcodes::MODE_SELECT_6 => mode_select(cdb, ModeForm::Six, u16::from(cdb[4])),
        opcodes::MODE_SENSE_6 => mode_sense_6(cdb),
        opcodes::START_STOP_UNIT => start_stop_unit(cdb),
        opcodes::SEND_DIAGNOSTIC => send_diagnostic(cdb),
        opcodes::PREVENT_ALLOW_MEDIUM_REMOVAL => prevent_allow(cdb),
        _ => return Command::Unknown,
    };
    under_control(cdb, 5, fields)
}

/// Decodes one of 10 bytes.
#[tactic(auto, using(crate::proofs::WideRows::by_none_at))]
fn wide_10(cdb: &[u8; CDB_BYTES]) -> Command
    requires other { row_of Profile.Narrow (byte 0 cdb.now) ≡ None }
    requires from { 0x20 ≤ byte 0 cdb.now }
    requires to { byte 0 cdb.now < 0x60 }
    ensures meaning { result ≡ command Profile.Wide cdb.now }
    ensures data_out { (need_of result).out ≤ 1048576 }
{
    let fields = match cdb[0] {
        opcodes::WRITE_AND_VERIFY_10 => write_and_verify(cdb, blocks_10(cdb)),
        opcodes::VERIFY_10 => verify(cdb, blocks_10(cdb)),
        opcodes::PRE_FETCH_10 => Some(synchronize_cache(blocks_10(cdb))),
        opcodes::READ_DEFECT_DATA_10 => read_defect_data_10(cdb),
        opcodes::MODE_SELECT_10 => {
            mode_select(cdb, ModeForm::Ten, BigEndian::read_u16(&cdb[7..9]))
        }
        opcodes::MODE_SENSE_10 => mode_sense_10(cdb),
        _ => return Command::Unknown,
    };
    under_control(cdb, 9, fields)
}

/// Decodes one of 16 bytes.
#[tactic(auto, using(crate::proofs::WideRows::by_none_at))]
fn wide_16(cdb: &[u8; CDB_BYTES]) -> Command
    requires other { row_of Profile.Narrow (byte 0 cdb.now) ≡ None }
    requires from { 0x80 ≤ byte 0 cdb.now }
    requires to { byte 0 cdb.now < 0xa0 }
    ensures meaning { result ≡ command Profile.Wide cdb.now }
    ensures data_out { (need_of result).out ≤ 1048576 }
{
    let fields = match cdb[0] {
        opcodes::OR_WRITE_16 => or_write(cdb, blocks_16(cdb)),
        opcodes::WRITE_AND_VERIFY_16 => write_and_verify(cdb, blocks_16(cdb)),
        opcodes::VERIFY_16 => verify(cdb, blocks_16(cdb)),
        opcodes::PRE_FETCH_16 => Some(synchronize_cache(blocks_16(cdb))),
        _ => return Command::Unknown,
    };
    under_control(cdb, 15, fields)
}

/// Decodes one of 12 bytes.
#[tactic(auto, using(crate::proofs::WideRows::by_none_at))]
fn wide_12(cdb: &[u8; CDB_BYTES]) -> Command
    requires other { row_of Profile.Narrow (byte 0 cdb.now) ≡ None }
    requires from { 0xa0 ≤ byte 0 cdb.now }
    requires to { byte 0 cdb.now < 0xc0 }
    ensures meaning { result ≡ command Profile.Wide cdb.now }
    ensures data_out { (need_of result).out ≤ 1048576 }
{
    let fields = match cdb[0] {
        opcodes::MAINTENANCE_IN => maintenance_in(cdb),
        opcodes::WRITE_AND_VERIFY_12 => write_and_verify(cdb, blocks_12(cdb)),
        opcodes::VERIFY_12 => verify(cdb, blocks_12(cdb)),
        opcodes::READ_DEFECT_DATA_12 => read_defect_data_12(cdb),
        _ => return Command::Unknown,
    };
    under_control(cdb, 11, fields)
}

/// Decodes WRITE AND VERIFY, of these blocks; `None` where its fields are refused. So with each command below. What is
/// written is there, so nothing is left to verify.
fn write_and_verify(cdb: &[u8; CDB_BYTES], blocks: Blocks) -> Option<Command>
    ensures meaning { result
        ≡ unless (is_over 1 (bits 1 2 1 cdb.now) ∷ protect cdb.now ∷ is_over 2048 blocks.count ∷ [])
        (Command.Write blocks.lba blocks.count) }
    ensures data_out { IfSome result (λ c. (need_of c).out ≤ 1048576) }
{
    let byte_check = low_bits(cdb[1] >> 1, 2);
    if byte_check > 1 {
        return None;
    }
    write(cdb, blocks)
}

/// Decodes FORMAT UNIT. A unit keeps no list of defects, so it has but one format of it, of which it takes none.
fn format_unit(cdb: &[u8; CDB_BYTES]) -> Option<Command>
    ensures meaning { result ≡ fields_of Profile.Wide 0x04 cdb.now }
    ensures data_out { IfSome result (λ c. (need_of c).out ≤ 1048576) }
{
    let protection = cdb[1] >> 6;
    let defect_format = low_bits(cdb[1], 3);
    let has_list = has_bit(cdb[1], 4);
    if protection != 0 || defect_format != 0 {
        return None;
    }
    Some(Command::Wide(WideCommand::FormatUnit {
        list: format_list(has_list, has_bit(cdb[1], 5)),
    }))
}

/// Returns the parameter list of a FORMAT UNIT, by FMTDATA and LONGLIST.
fn format_list(has_list: bool, is_long: bool) -> FormatList
    ensures { result ≡ format_list has_list is_long }
{
    if !has_list {
        FormatList::NoList
    } else if is_long {
        FormatList::LongHeader
    } else {
        FormatList::ShortHeader
    }
}

/// Decodes ORWRITE (16), of these blocks.
fn or_write(cdb: &[u8; CDB_BYTES], blocks: Blocks) -> Option<Command>
    ensures meaning { result
        ≡ unless (protect cdb.now ∷ is_over 2048 blocks.count ∷ [])
        (Command.Wide (WideCommand.OrWrite blocks.count blocks.lba)) }
    ensures data_out { IfSome result (λ c. (need_of c).out ≤ 1048576) }
{
    Some(Command::Wide(WideCommand::OrWrite {
        blocks: transfer_length(cdb, blocks.count)?,
        lba: blocks.lba,
    }))
}

/// Decodes VERIFY, of these blocks. Where it compares nothing, all that it asks is that the blocks are there.
fn verify(cdb: &[u8; CDB_BYTES], blocks: Blocks) -> Option<Command>
    ensures meaning { result
        ≡ unless (verified_causes blocks.count cdb.now) (verified blocks.lba blocks.count cdb.now) }
    ensures data_out { IfSome result (λ c. (need_of c).out ≤ 1048576) }
{
    if has_protect(cdb) || blocks.count > u32::from(MOST_TRANSFER_BLOCKS) {
        return None;
    }
    match low_bits(cdb[1] >> 1, 2) {
        0 => Some(synchronize_cache(blocks)),
        1 => Some(comparison(VerifyData::EachBlock, blocks)),
        3 => Some(comparison(VerifyData::OneBlock, blocks)),
        _ => None,
    }
}

/// Makes a VERIFY that compares.
fn comparison(sent: VerifyData, blocks: Blocks) -> Command
    requires { blocks.count ≤ 2048 }
    ensures meaning { result ≡ Command.Wide (WideCommand.Verify sent blocks.count blocks.lba) }
    ensures data_out { (need_of result).out ≤ 1048576 }
{
    Command::Wide(WideCommand::Verify {
        sent,
        blocks: blocks.count as u16,
        lba: blocks.lba,
    })
}

/// Decodes START STOP UNIT. A unit is always active, so it can be started alone.
fn start_stop_unit(cdb: &[u8; CDB_BYTES]) -> Option<Command>
    ensures meaning { result ≡ fields_of Profile.Wide 0x1b cdb.now }
    ensures data_out { IfSome result (λ c. (need_of c).out ≤ 1048576) }
{
    let power_condition = cdb[4] >> 4;
    let load_eject = has_bit(cdb[4], 1);
    let start = has_bit(cdb[4], 0);
    if power_condition != 0 || load_eject || !start {
        return None;
    }
    Some(Command::TestUnitReady)
}

/// Decodes SEND DIAGNOSTIC. There is only the default self-test, in which nothing is found.
fn send_diagnostic(cdb: &[u8; CDB_BYTES]) -> Option<Command>
    ensures meaning { result ≡ fields_of Profile.Wide 0x1d cdb.now }
    ensures data_out { IfSome result (λ c. (need_of c).out ≤ 1048576) }
{
    let self_test_code = cdb[1] >> 5;
    let list_length = BigEndian::read_u16(&cdb[3..5]);
    if self_test_code != 0 || list_length != 0 {
        return None;
    }
    Some(Command::TestUnitReady)
}

/// Decodes PREVENT ALLOW MEDIUM REMOVAL. The medium of a unit can't be removed, so there is nothing to prevent.
fn prevent_allow(cdb: &[u8; CDB_BYTES]) -> Option<Command>
    ensures meaning { result ≡ fields_of Profile.Wide 0x1e cdb.now }
    ensures data_out { IfSome result (λ c. (need_of c).out ≤ 1048576) }
{
    let prevent = low_bits(cdb[4], 2);
    if prevent > 1 {
        return None;
    }
    Some(Command::TestUnitReady)
}

/// Decodes READ DEFECT DATA (10).
fn read_defect_data_10(cdb: &[u8; CDB_BYTES]) -> Option<Command>
    ensures meaning { result ≡ fields_of Profile.Wide 0x37 cdb.now }
    ensures data_out { IfSome result (λ c. (need_of c).out ≤ 1048576) }
{
    let allocation = BigEndian::read_u16(&cdb[7..9]);
    read_defect_data(DefectForm::Ten, cdb[2], u32::from(allocation))
}

/// Decodes READ DEFECT DATA (12).
fn read_defect_data_12(cdb: &[u8; CDB_BYTES]) -> Option<Command>
    ensures meaning { result ≡ fields_of Profile.Wide 0xb7 cdb.now }
    ensures data_out { IfSome result (λ c. (need_of c).out ≤ 1048576) }
{
    read_defect_data(DefectForm::Twelve, cdb[1], BigEndian::read_u32(&cdb[6..10]))
}

/// Decodes READ DEFECT DATA, of this form. The byte of options has REQ_PLIST, REQ_GLIST and DEFECT LIST FORMAT.
fn read_defect_data(form: DefectForm, options: u8, allocation: u32) -> Option<Command>
    ensures meaning { result
        ≡ unless (defect_causes (options % 2 ^ 3))
        (defects_asked form (options / 2 ^ 4 % 2 == 1) (options / 2 ^ 3 % 2 == 1) (options % 2 ^ 3) allocation) }
    ensures data_out { IfSome result (λ c. (need_of c).out ≤ 1048576) }
{
    Some(Command::Wide(WideCommand::ReadDefectData(DefectRequest {
        form,
        primary: has_bit(options, 4),
        grown: has_bit(options, 3),
        format: defect_format(low_bits(options, 3))?,
        allocation,
    })))
}

/// Returns the format of this DEFECT LIST FORMAT, 0 to 7, if the standard has it.
fn defect_format(code: u8) -> Option<DefectFormat>
    ensures { result ≡ defect_format_of code }
{
    match code {
        0 => Some(DefectFormat::ShortBlock),
        1 => Some(DefectFormat::ExtendedBytesFromIndex),
        2 => Some(DefectFormat::ExtendedPhysicalSector),
        3 => Some(DefectFormat::LongBlock),
        4 => Some(DefectFormat::BytesFromIndex),
        5 => Some(DefectFormat::PhysicalSector),
        _ => None,
    }
}

/// Decodes MODE SELECT, of this form.
fn mode_select(cdb: &[u8; CDB_BYTES], form: ModeForm, list_length: u16) -> Option<Command>
    ensures meaning { result
        ≡ unless (select_causes cdb.now) (Command.Wide (WideCommand.ModeSelect form list_length)) }
    ensures data_out { IfSome result (λ c. (need_of c).out ≤ 1048576) }
{
    let page_format = has_bit(cdb[1], 4);
    let save_pages = has_bit(cdb[1], 0);
    if !page_format || save_pages {
        return None;
    }
    Some(Command::Wide(WideCommand::ModeSelect { form, list_length }))
}

/// Decodes the service actions of MAINTENANCE IN.
fn maintenance_in(cdb: &[u8; CDB_BYTES]) -> Option<Command>
    ensures meaning { result ≡ fields_of Profile.Wide 0xa3 cdb.now }
    ensures data_out { IfSome result (λ c. (need_of c).out ≤ 1048576) }
{
    let service_action = low_bits(cdb[1], 5);
    let allocation = BigEndian::read_u32(&cdb[6..10]);
    match service_action {
        REPORT_OPERATION_CODES => {
            let action = BigEndian::read_u16(&cdb[4..6]);
            Some(Command::Wide(WideCommand::ReportOperationCodes {
                asked: codes_asked(low_bits(cdb[2], 3), cdb[3], action)?,
                timeouts: has_bit(cdb[2], 7),
                allocation,
            }))
        }
        REPORT_TASK_MANAGEMENT => {
            if allocation < LEAST_TASK_MANAGEMENT_BYTES {
                return None;
            }
            Some(Command::Wide(WideCommand::ReportTaskManagement {
                extended: has_bit(cdb[2], 7),
                allocation,
            }))
        }
        _ => None,
    }
}

/// Returns the commands that a reporting option, 0 to 7, asks for, if the device has that option.
fn codes_asked(option: u8, opcode: u8, action: u16) -> Option<CodesAsked>
    ensures { result ≡ unless (is_over 3 option ∷ []) (codes_asked option opcode action) }
{
    match option {
        0 => Some(CodesAsked::AllCommands),
        1 => Some(CodesAsked::OneCommand { opcode }),
        2 => Some(CodesAsked::OneServiceAction { opcode, action }),
        3 => Some(CodesAsked::OneOfEither { opcode, action }),
        _ => None,
    }
}

/// Decodes MODE SENSE (6).
fn mode_sense_6(cdb: &[u8; CDB_BYTES]) -> Option<Command>
    ensures meaning { result ≡ fields_of Profile.Wide 0x1a cdb.now }
    ensures data_out { IfSome result (λ c. (need_of c).out ≤ 1048576) }
{
    let disable_block_descriptors = has_bit(cdb[1], 3);
    let descriptor = if disable_block_descriptors {
        ModeDescriptor::Absent
    } else {
        ModeDescriptor::Short
    };
    mode_sense(cdb, ModeForm::Six, descriptor, u16::from(cdb[4]))
}

/// Decodes MODE SENSE (10).
fn mode_sense_10(cdb: &[u8; CDB_BYTES]) -> Option<Command>
    ensures meaning { result ≡ fields_of Profile.Wide 0x5a cdb.now }
    ensures data_out { IfSome result (λ c. (need_of c).out ≤ 1048576) }
{
    let disable_block_descriptors = has_bit(cdb[1], 3);
    let long_accepted = has_bit(cdb[1], 4);
    let descriptor = if disable_block_descriptors {
        ModeDescriptor::Absent
    } else if long_accepted {
        ModeDescriptor::Long
    } else {
        ModeDescriptor::Short
    };
    let allocation = BigEndian::read_u16(&cdb[7..9]);
    mode_sense(cdb, ModeForm::Ten, descriptor, allocation)
}

/// Decodes MODE SENSE, of this form.
fn mode_sense(
    cdb: &[u8; CDB_BYTES],
    form: ModeForm,
    descriptor: ModeDescriptor,
    allocation: u16,
) -> Option<Command>
    ensures meaning { result
        ≡ unless (mode_causes cdb.now) (mode_sense_of form descriptor allocation cdb.now) }
    ensures data_out { IfSome result (λ c. (need_of c).out ≤ 1048576) }
{
    if !has_subpage(cdb[3]) {
        return None;
    }
    let values = mode_values(low_bits(cdb[2] >> 6, 2));
    let pages = mode_pages(low_bits(cdb[2], 6))?;
    Some(Command::Wide(WideCommand::ModeSense(ModeRequest {
        form,
        descriptor,
        pages,
        values,
        allocation,
    })))
}

/// Returns true if this subpage code asks for pages themselves, alone or with all their subpages, of which there are
/// none.
fn has_subpage(code: u8) -> bool
    ensures { result ≡ list_any (λ known. known == code) subpages }
{
    code == 0x00 || code == ALL_SUBPAGES
}

/// Returns the mode pages of this page code, if the device has them.
fn mode_pages(code: u8) -> Option<ModePages>
    ensures { result ≡ mode_pages_of code }
{
    match code {
        0x01 => Some(ModePages::ErrorRecovery),
        0x08 => Some(ModePages::Caching),
        0x0a => Some(ModePages::Control),
        0x1c => Some(ModePages::InformationalExceptions),
        0x3f => Some(ModePages::All),
        _ => None,
    }
}

/// Returns the values that the field PC asks for, 0 to 3.
fn mode_values(page_control: u8) -> ModeValues
    ensures { result ≡ mode_values page_control }
{
    match page_control {
        0 => ModeValues::Current,
        1 => ModeValues::Changeable,
        2 => ModeValues::Default,
        _ => ModeValues::Saved,
    }
}

/// Decodes the service actions of SERVICE ACTION IN (16) that the wide profile has.
pub(crate) fn service_action_in_16(cdb: &[u8; CDB_BYTES]) -> Option<Command>
    ensures meaning { result ≡ fields_of Profile.Wide 0x9e cdb.now }
    ensures data_out { IfSome result (λ c. (need_of c).out ≤ 1048576) }
{
    let service_action = low_bits(cdb[1], 5);
    let allocation = BigEndian::read_u32(&cdb[10..14]);
    match service_action {
        READ_CAPACITY_16 => Some(Command::ReadCapacity16 { allocation }),
        GET_LBA_STATUS => Some(Command::Wide(WideCommand::GetLbaStatus {
            allocation,
            lba: lba_64(cdb),
        })),
        _ => None,
    }
}
