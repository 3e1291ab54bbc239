//! The commands of the device's SCSI profiles (SPC-4, SBC-3). Decodes the bytes of a CDB by the profile of its logical
//! unit, and tells how many bytes of data the command needs from the driver and for it.
//!
//! # Proved
//!
//! `decode` is the table of commands of the profile (`cdb/specs/Profile.antt`), with every cause that makes a command
//! block bad. `need` is how many bytes each moves, at most 1,048,576 from the driver.
//!
//! The wide profile decodes a command of the narrow one alike, but for a short list of what it takes besides
//! (`laws::profiles`). Its usage maps have ones where a field is decoded, and nowhere else (`laws::usage_bits_matter`).
#![tactic(auto)]

mod commands;
mod decoding;
mod fields;
pub mod laws;
mod medium;
mod opcodes;
mod profile;
mod transfers;
mod wide_commands;
mod wide_decoding;

pub use commands::{
    CDB_BYTES, Command, InquiryData, MOST_COMPARE_BLOCKS, MOST_TRANSFER_BLOCKS,
    MOST_WRITE_SAME_BLOCKS, SelectReport,
};
pub use decoding::decode;
pub use medium::asks_medium;
pub use profile::Profile;
pub use transfers::{Transfer, need};
pub use wide_commands::{
    CodesAsked, DefectForm, DefectFormat, DefectRequest, FormatList, ModeDescriptor, ModeForm,
    ModePages, ModeRequest, ModeValues, VerifyData, WideCommand,
};
