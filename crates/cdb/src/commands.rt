//! The commands, and the limits of the device on their fields.

use crate::wide_commands::WideCommand;
use sense::SenseFormat;
use std::mem::size_of;

/// The bytes of the CDB field of a request (VIRTIO 1.2 §5.6.6.1). A shorter CDB stands at its
/// front.
pub const CDB_BYTES: usize = 32;

/// The most blocks that a READ or a WRITE moves.
pub const MOST_TRANSFER_BLOCKS: u16 = 2048;

/// The most blocks that a WRITE SAME writes.
pub const MOST_WRITE_SAME_BLOCKS: u32 = 65536;

/// The most blocks that a COMPARE AND WRITE compares and writes.
pub const MOST_COMPARE_BLOCKS: u8 = 64;

/// A command, as a CDB asks for it. `decode` gives each field in the range that is said here; a logical block address
/// isn't yet compared with a capacity.
#[derive(Clone, Copy, PartialEq, Eq)]
pub enum Command {
    /// TEST UNIT READY (SPC-4 §6.47). In the wide profile also START STOP UNIT (SBC-3 §5.25), PREVENT ALLOW MEDIUM
    /// REMOVAL (SBC-3 §5.10) and SEND DIAGNOSTIC (SPC-4 §6.42), which leave nothing else to do.
    TestUnitReady,
    /// REQUEST SENSE (SPC-4 §6.39).
    RequestSense {
        /// The format of the sense data: of the narrow profile the fixed one.
        format: SenseFormat,
        /// The most bytes to return, 0 to 255.
        allocation: u32,
    },
    /// READ (10), (12) or (16) (SBC-3 §5.11 to §5.13), or READ (6) (SBC-2 §5.5).
    Read {
        /// The first block.
        lba: u64,
        /// The number of blocks, 0 to `MOST_TRANSFER_BLOCKS`.
        blocks: u16,
    },
    /// WRITE (10), (12) or (16) (SBC-3 §5.33 to §5.35), or WRITE (6) (SBC-2 §5.24). In the wide profile also WRITE AND
    /// VERIFY (10), (12) or (16) (SBC-3 §5.37 to §5.39).
    Write {
        /// The first block.
        lba: u64,
        /// The number of blocks, 0 to `MOST_TRANSFER_BLOCKS`.
        blocks: u16,
    },
    /// INQUIRY (SPC-4 §6.6).
    Inquiry {
        /// The data to return.
        what: InquiryData,
        /// The most bytes to return, 0 to 65,535.
        allocation: u32,
    },
    /// READ CAPACITY (10) (SBC-3 §5.15).
    ReadCapacity10,
    /// READ CAPACITY (16) (SBC-3 §5.16).
    ReadCapacity16 {
        /// The most bytes to return.
        allocation: u32,
    },
    /// SYNCHRONIZE CACHE (10) or (16) (SBC-3 §5.26, §5.27). In the wide profile also PRE-FETCH (10) or (16) (SBC-3 §5.8,
    /// §5.9), and VERIFY (10), (12) or (16) (SBC-3 §5.29 to §5.31) that compares nothing.
    SynchronizeCache {
        /// The first block.
        lba: u64,
        /// The number of blocks; 0 means all from `lba` on.
        blocks: u32,
    },
    /// WRITE SAME (10) or (16) (SBC-3 §5.43, §5.44), with a block of data.
    WriteSame {
        /// The first block.
        lba: u64,
        /// The number of blocks, 1 to `MOST_WRITE_SAME_BLOCKS`.
        blocks: u32,
    },
    /// UNMAP (SBC-3 §5.28).
    Unmap {
        /// The bytes of the parameter list, 0 to 65,535.
        list_length: u16,
    },
    /// COMPARE AND WRITE (SBC-3 §5.2).
    CompareAndWrite {
        /// The first block.
        lba: u64,
        /// The number of blocks, 0 to `MOST_COMPARE_BLOCKS`.
        blocks: u8,
    },
    /// REPORT LUNS (SPC-4 §6.33).
    ReportLuns {
        /// The logical units to list.
        select: SelectReport,
        /// The most bytes to return.
        allocation: u32,
    },
    /// A command that only the wide profile has.
    Wide(WideCommand),
    /// A command of the profile that is refused by its own fields, or because its control byte
    /// asks for NACA: INVALID FIELD IN CDB.
    Bad {
        /// The opcode, byte 0 of the CDB.
        opcode: u8,
    },
    /// A command that the profile lacks: INVALID COMMAND OPERATION CODE.
    Unknown,
}

// The commands of the wide profile alone take no more room than the others.
const _: () = prove!(size_of::<Command>() == 24);

/// The data that an INQUIRY asks for: the standard data, or a page of vital product data (SPC-4 §6.6, §7.8).
#[derive(Clone, Copy, PartialEq, Eq)]
pub enum InquiryData {
    /// Standard INQUIRY data.
    Standard,
    /// Page 00h, Supported VPD Pages.
    SupportedPages,
    /// Page 80h, Unit Serial Number.
    SerialNumber,
    /// Page 83h, Device Identification.
    DeviceIdentification,
    /// Page 86h, Extended INQUIRY Data: of the wide profile.
    ExtendedInquiry,
    /// Page B0h, Block Limits (SBC-3).
    BlockLimits,
    /// Page B1h, Block Device Characteristics (SBC-3): of the wide profile.
    BlockDeviceCharacteristics,
    /// Page B2h, Logical Block Provisioning (SBC-3).
    LogicalBlockProvisioning,
}

/// The logical units that a REPORT LUNS lists: the field SELECT REPORT (SPC-4 §6.33).
#[derive(Clone, Copy, PartialEq, Eq)]
pub enum SelectReport {
    /// 00h: the logical units that the target's addresses reach, well known ones left out.
    LogicalUnits,
    /// 01h: well known logical units alone.
    WellKnownLogicalUnits,
    /// 02h: all logical units.
    AllLogicalUnits,
}
