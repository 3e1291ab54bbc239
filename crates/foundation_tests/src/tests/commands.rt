//! Command blocks of the profile, with what each asks for and needs. Those that name blocks have a file of their own.

use super::named_blocks::ROWS as NAMED_BLOCKS;
use super::{Row, all_hold};
use cdb::{CDB_BYTES, Command, InquiryData, Profile, SelectReport, Transfer, decode, need};
use sense::SenseFormat;

/// The bytes of a command block, what it asks for, and how many bytes it needs of the driver and for it.
pub(super) struct Asks(
    pub(super) &'static [u8],
    pub(super) Command,
    pub(super) u32,
    pub(super) u32,
);

impl Row for Asks {
    /// Returns true if the command is as expected, with bytes that mean nothing behind the command block.
    fn holds(&self) -> bool {
        let Asks(bytes, command, out, into) = *self;
        let mut cdb = [0xff; CDB_BYTES];
        if bytes.len() > CDB_BYTES {
            return false;
        }
        cdb[..bytes.len()].copy_from_slice(bytes);
        decode(Profile::Narrow, &cdb) == command && need(&command) == Transfer { out, into }
    }
}

static ROWS: [Asks; 19] = [
    // REQUEST SENSE.
    Asks(
        b"\x03\x00\x00\x00\x12\x00",
        Command::RequestSense {
            format: SenseFormat::Fixed,
            allocation: 18,
        },
        0,
        18,
    ),
    Asks(
        b"\x03\xfe\xff\xff\xff\xfb",
        Command::RequestSense {
            format: SenseFormat::Fixed,
            allocation: 255,
        },
        0,
        255,
    ),
    Asks(
        b"\x03\x00\x00\x00\x00\x00",
        Command::RequestSense {
            format: SenseFormat::Fixed,
            allocation: 0,
        },
        0,
        0,
    ),
    // INQUIRY.
    Asks(
        b"\x12\x00\x00\x00\x24\x00",
        Command::Inquiry {
            what: InquiryData::Standard,
            allocation: 36,
        },
        0,
        36,
    ),
    Asks(
        b"\x12\xfe\x00\xff\xff\xfb",
        Command::Inquiry {
            what: InquiryData::Standard,
            allocation: 65535,
        },
        0,
        65535,
    ),
    Asks(
        b"\x12\x00\x00\x01\x02\x00",
        Command::Inquiry {
            what: InquiryData::Standard,
            allocation: 258,
        },
        0,
        258,
    ),
    Asks(
        b"\x12\x01\x00\x00\xff\x00",
        Command::Inquiry {
            what: InquiryData::SupportedPages,
            allocation: 255,
        },
        0,
        255,
    ),
    Asks(
        b"\x12\x01\x80\x00\x01\x00",
        Command::Inquiry {
            what: InquiryData::SerialNumber,
            allocation: 1,
        },
        0,
        1,
    ),
    Asks(
        b"\x12\x01\x83\x00\x00\x00",
        Command::Inquiry {
            what: InquiryData::DeviceIdentification,
            allocation: 0,
        },
        0,
        0,
    ),
    Asks(
        b"\x12\x01\xb0\x00\x40\x00",
        Command::Inquiry {
            what: InquiryData::BlockLimits,
            allocation: 64,
        },
        0,
        64,
    ),
    Asks(
        b"\x12\x01\xb2\x00\x08\x00",
        Command::Inquiry {
            what: InquiryData::LogicalBlockProvisioning,
            allocation: 8,
        },
        0,
        8,
    ),
    // READ CAPACITY (16).
    Asks(
        b"\x9e\x10\x00\x00\x00\x00\x00\x00\x00\x00\x00\x00\x00\x20\x00\x00",
        Command::ReadCapacity16 { allocation: 32 },
        0,
        32,
    ),
    Asks(
        b"\x9e\xf0\xff\xff\xff\xff\xff\xff\xff\xff\xff\xff\xff\xff\xff\xfb",
        Command::ReadCapacity16 {
            allocation: 4294967295,
        },
        0,
        4294967295,
    ),
    // REPORT LUNS.
    Asks(
        b"\xa0\x00\x00\x00\x00\x00\x00\x00\x10\x00\x00\x00",
        Command::ReportLuns {
            select: SelectReport::LogicalUnits,
            allocation: 4096,
        },
        0,
        4096,
    ),
    Asks(
        b"\xa0\x00\x01\x00\x00\x00\xff\xff\xff\xff\x00\xfb",
        Command::ReportLuns {
            select: SelectReport::WellKnownLogicalUnits,
            allocation: 4294967295,
        },
        0,
        4294967295,
    ),
    Asks(
        b"\xa0\x00\x02\x00\x00\x00\x01\x02\x03\x04\x00\x00",
        Command::ReportLuns {
            select: SelectReport::AllLogicalUnits,
            allocation: 16909060,
        },
        0,
        16909060,
    ),
    // READ CAPACITY (10).
    Asks(
        b"\x25\xff\xff\xff\xff\xff\xff\xff\xff\xfb",
        Command::ReadCapacity10,
        0,
        8,
    ),
    // TEST UNIT READY.
    Asks(&[0; 6], Command::TestUnitReady, 0, 0),
    Asks(b"\x00\xff\xff\xff\xff\xfb", Command::TestUnitReady, 0, 0),
];

#[test]
fn command_blocks(rt: HostRuntime) {
    all_hold(&rt, &NAMED_BLOCKS);
    all_hold(&rt, &ROWS);
}
