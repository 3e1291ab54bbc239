//! Sense data: what a device reports beside CHECK CONDITION, as a sense key, an additional sense
//! code with its qualifier, and their bytes: the 18 of the fixed format (SPC-4 §4.5.3), or the 8 or 20 of the descriptor
//! format (SPC-4 §4.5.2).
//!
//! # Proved
//!
//! The layouts are the standard's. Both formats say the same key, code, qualifier and information.
#![tactic(auto)]

ghost use Rattle.std.specs.Prelude.{◌≡◌, ◌≤◌, length};
ghost use Rattle.sense.specs.Conditions.{block_information, medium_error, miscompare, unit_attention, unrecovered_read_error, write_error};
ghost use Rattle.sense.specs.Descriptor.{descriptor, descriptor_header, information_descriptor};
ghost use Rattle.sense.specs.Fixed.{fixed};
ghost use Rattle.sense.specs.Format.{bytes_in, in_format, sent};

pub mod laws;

use arrayvec::ArrayVec;

/// The bytes of sense data in the fixed format, as this device gives it: 8 and the 10 that byte 7
/// counts.
pub const FIXED_SENSE_BYTES: usize = 18;

/// The most bytes of sense data, as this device gives it: those of the descriptor format with an information descriptor.
pub const MOST_SENSE_BYTES: usize = 20;

/// The bytes of the descriptor format before its sense data descriptors.
const DESCRIPTOR_HEADER_BYTES: usize = 8;

/// The bytes of an information sense data descriptor.
const INFORMATION_BYTES: usize = 12;

/// The bytes of sense data, in one format or the other. They stand in place, so that making them takes no memory.
pub type SenseBytes = ArrayVec<u8, MOST_SENSE_BYTES>;

/// The sense key MEDIUM ERROR: the medium failed the command.
pub const MEDIUM_ERROR: u8 = 0x03;

/// The sense key ILLEGAL REQUEST: a field of the CDB or of the parameter list is refused.
pub const ILLEGAL_REQUEST: u8 = 0x05;

/// The sense key UNIT ATTENTION: the state of the logical unit changed.
pub const UNIT_ATTENTION: u8 = 0x06;

/// The sense key DATA PROTECT: the medium may not be changed.
pub const DATA_PROTECT: u8 = 0x07;

/// The sense key MISCOMPARE: data didn't match the blocks.
pub const MISCOMPARE: u8 = 0x0e;

/// The response code of current sense data in the fixed format (SPC-4 §4.5.3).
const CURRENT_FIXED: u8 = 0x70;

/// The same with VALID, which says that the information field holds a value.
const CURRENT_FIXED_VALID: u8 = 0xf0;

/// The number of bytes that follow byte 7.
const ADDITIONAL_SENSE_LENGTH: u8 = 0x0a;

/// The response code of current sense data in the descriptor format (SPC-4 §4.5.2).
const CURRENT_DESCRIPTOR: u8 = 0x72;

/// The formats of sense data (SPC-4 §4.5.1). They say the same ([`laws::formats_say_the_same`]).
#[derive(Clone, Copy, Debug, PartialEq, Eq)]
pub enum SenseFormat {
    /// The fixed format, of response code 70h (SPC-4 §4.5.3).
    Fixed,
    /// The descriptor format, of response code 72h (SPC-4 §4.5.2).
    Descriptor,
}

/// Sense data, by its meaning (SPC-4 §4.5). CHECK CONDITION and REQUEST SENSE carry it.
#[derive(Clone, Copy, Debug, PartialEq, Eq)]
pub struct Sense {
    /// The sense key, 0 to 15: what kind of condition it is.
    pub key: u8,
    /// The additional sense code: which condition.
    pub asc: u8,
    /// The additional sense code qualifier: its detail.
    pub ascq: u8,
    /// The format in which it is sent beside a status.
    pub format: SenseFormat,
    /// The information field, if it is valid: of a miscompare the offset in bytes of the first unequal byte, of a medium
    /// error the block.
    pub information: Option<u32>,
}

impl Sense {
    /// There is nothing to report.
    pub const NO_SENSE: Sense = Sense {
        key: 0x00,
        asc: 0x00,
        ascq: 0x00,
        format: SenseFormat::Fixed,
        information: None,
    };

    /// PARAMETER LIST LENGTH ERROR: the parameter list is cut.
    pub const PARAMETER_LIST_LENGTH_ERROR: Sense = Sense {
        key: ILLEGAL_REQUEST,
        asc: 0x1a,
        ascq: 0x00,
        format: SenseFormat::Fixed,
        information: None,
    };

    /// INVALID COMMAND OPERATION CODE: no command of the device has this opcode.
    pub const INVALID_OPCODE: Sense = Sense {
        key: ILLEGAL_REQUEST,
        asc: 0x20,
        ascq: 0x00,
        format: SenseFormat::Fixed,
        information: None,
    };

    /// LOGICAL BLOCK ADDRESS OUT OF RANGE: a block past the capacity is named.
    pub const LBA_OUT_OF_RANGE: Sense = Sense {
        key: ILLEGAL_REQUEST,
        asc: 0x21,
        ascq: 0x00,
        format: SenseFormat::Fixed,
        information: None,
    };

    /// INVALID FIELD IN CDB: a field has a value that the device doesn't take.
    pub const INVALID_FIELD_IN_CDB: Sense = Sense {
        key: ILLEGAL_REQUEST,
        asc: 0x24,
        ascq: 0x00,
        format: SenseFormat::Fixed,
        information: None,
    };

    /// LOGICAL UNIT NOT SUPPORTED: the target has no such logical unit.
    pub const LOGICAL_UNIT_NOT_SUPPORTED: Sense = Sense {
        key: ILLEGAL_REQUEST,
        asc: 0x25,
        ascq: 0x00,
        format: SenseFormat::Fixed,
        information: None,
    };

    /// INVALID FIELD IN PARAMETER LIST: the same of the parameter list.
    pub const INVALID_FIELD_IN_PARAMETER_LIST: Sense = Sense {
        key: ILLEGAL_REQUEST,
        asc: 0x26,
        ascq: 0x00,
        format: SenseFormat::Fixed,
        information: None,
    };

    /// SAVING PARAMETERS NOT SUPPORTED: mode parameters that were saved are asked for.
    pub const SAVING_PARAMETERS_NOT_SUPPORTED: Sense = Sense {
        key: ILLEGAL_REQUEST,
        asc: 0x39,
        ascq: 0x00,
        format: SenseFormat::Fixed,
        information: None,
    };

    /// INVALID MESSAGE ERROR: the task attribute isn't one that the device takes.
    pub const INVALID_MESSAGE_ERROR: Sense = Sense {
        key: ILLEGAL_REQUEST,
        asc: 0x49,
        ascq: 0x00,
        format: SenseFormat::Fixed,
        information: None,
    };

    /// WRITE PROTECTED: the command would change the medium of a unit that is read-only.
    pub const WRITE_PROTECTED: Sense = Sense {
        key: DATA_PROTECT,
        asc: 0x27,
        ascq: 0x00,
        format: SenseFormat::Fixed,
        information: None,
    };

    /// Makes UNRECOVERED READ ERROR: what a command answers that needs a block which can't be read. The block's number is its
    /// information, where that is below 2^32 (SBC-3 §4.18).
    pub fn unrecovered_read_error(block: u64) -> Sense
        ensures { result ≡ unrecovered_read_error block }
    {
        medium_error(0x11, block)
    }

    /// Makes WRITE ERROR: what a command answers that needs a block to be written which can't be. The block's number is its
    /// information, where that is below 2^32 (SBC-3 §4.18).
    pub fn write_error(block: u64) -> Sense
        ensures { result ≡ write_error block }
    {
        medium_error(0x0c, block)
    }

    /// Makes MISCOMPARE DURING VERIFY OPERATION: what a COMPARE AND WRITE answers where its data and the blocks differ.
    /// `offset` is the offset in bytes of the first unequal byte (SBC-3 §5.2).
    pub const fn miscompare(offset: u32) -> Sense
        ensures { result ≡ miscompare offset }
    {
        Sense {
            key: MISCOMPARE,
            asc: 0x1d,
            ascq: 0x00,
            format: SenseFormat::Fixed,
            information: Some(offset),
        }
    }

    /// Makes a unit attention of this additional sense code and qualifier, such as 29/00 after a power on or a reset
    /// (SPC-4 §4.5, SAM-5 §5.14).
    pub const fn unit_attention(asc: u8, ascq: u8) -> Sense
        ensures { result ≡ unit_attention asc ascq }
    {
        Sense {
            key: UNIT_ATTENTION,
            asc,
            ascq,
            format: SenseFormat::Fixed,
            information: None,
        }
    }

    /// Returns the same, to be sent in this format.
    pub fn in_format(self, format: SenseFormat) -> Sense
        ensures { result ≡ in_format format self }
    {
        Sense { format, ..self }
    }

    /// Returns the sense data in the fixed format (SPC-4 §4.5.3), of current information.
    pub fn to_fixed(&self) -> [u8; FIXED_SENSE_BYTES]
        ensures { result ≡ fixed self.now }
    {
        let mut bytes = [0; FIXED_SENSE_BYTES];
        bytes[0] = CURRENT_FIXED;
        if let Some(information) = self.information {
            bytes[0] = CURRENT_FIXED_VALID;
            bytes[3..7].copy_from_slice(&information.to_be_bytes());
        }
        bytes[2] = self.key;
        bytes[7] = ADDITIONAL_SENSE_LENGTH;
        bytes[12] = self.asc;
        bytes[13] = self.ascq;
        bytes
    }

    /// Returns the sense data in the descriptor format (SPC-4 §4.5.2), of current information.
    pub fn to_descriptor(&self) -> SenseBytes
        ensures { result.items ≡ descriptor self.now }
    {
        match self.information {
            None => in_place(&descriptor_header(self, 0)),
            Some(information) => {
                let mut bytes = [0; MOST_SENSE_BYTES];
                bytes[..DESCRIPTOR_HEADER_BYTES].copy_from_slice(&descriptor_header(
                    self,
                    INFORMATION_BYTES as u8,
                ));
                bytes[DESCRIPTOR_HEADER_BYTES..].copy_from_slice(&information_descriptor(
                    information,
                ));
                in_place(&bytes)
            }
        }
    }

    /// Returns the sense data in the format in which it is sent.
    pub fn sent(&self) -> SenseBytes
        ensures { result.items ≡ sent self.now }
    {
        self.to_bytes(self.format)
    }

    /// Returns the sense data in this format, of current information.
    pub fn to_bytes(&self, format: SenseFormat) -> SenseBytes
        ensures { result.items ≡ bytes_in format self.now }
    {
        match format {
            SenseFormat::Fixed => in_place(&self.to_fixed()),
            SenseFormat::Descriptor => self.to_descriptor(),
        }
    }
}

/// Makes a condition of the medium at this block.
fn medium_error(asc: u8, block: u64) -> Sense
    ensures { result ≡ medium_error asc block }
{
    Sense {
        key: MEDIUM_ERROR,
        asc,
        ascq: 0x00,
        format: SenseFormat::Fixed,
        information: block_information(block),
    }
}

/// Returns a block's number as information, where 4 bytes can hold it.
fn block_information(block: u64) -> Option<u32>
    ensures { result ≡ block_information block }
{
    if block <= u64::from(u32::MAX) {
        Some(block as u32)
    } else {
        None
    }
}

/// Makes the first bytes of the descriptor format, before sense data descriptors of so many bytes.
fn descriptor_header(sense: &Sense, following: u8) -> [u8; DESCRIPTOR_HEADER_BYTES]
    ensures { result ≡ descriptor_header sense.now following }
{
    [
        CURRENT_DESCRIPTOR,
        sense.key,
        sense.asc,
        sense.ascq,
        0,
        0,
        0,
        following,
    ]
}

/// Makes an information sense data descriptor (SPC-4 §4.5.2.2).
fn information_descriptor(information: u32) -> [u8; INFORMATION_BYTES]
    ensures { result ≡ information_descriptor information }
{
    let mut bytes = [0; INFORMATION_BYTES];
    bytes[1] = 0x0a;
    bytes[2] = 0x80;
    bytes[4..].copy_from_slice(&u64::from(information).to_be_bytes());
    bytes
}

/// Returns a copy of the bytes.
fn in_place(from: &[u8]) -> SenseBytes
    requires { length from.now ≤ MOST_SENSE_BYTES }
    ensures { result.items ≡ from.now }
{
    let mut bytes = ArrayVec::new();
    let Ok(()) = bytes.try_extend_from_slice(from) else {
        unreachable!()
    };
    bytes
}
