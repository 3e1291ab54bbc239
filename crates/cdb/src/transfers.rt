//! The data that a command moves.

ghost use Rattle.std.specs.Prelude.{◌≡◌, ◌≤◌};
ghost use Rattle.cdb.specs.Need.{bytes_in, bytes_out, header_bytes, need_of, sent_blocks, wide_need};

use crate::{Command, FormatList, VerifyData, WideCommand};

/// The bytes of a logical block.
const BLOCK_BYTES: u32 = 512;

/// The bytes that READ CAPACITY (10) returns (SBC-3 §5.15).
const CAPACITY_10_BYTES: u32 = 8;

/// The most bytes of data that a command moves, each way.
#[derive(Clone, Copy, PartialEq, Eq)]
pub struct Transfer {
    /// Bytes from the driver to the device.
    pub out: u32,
    /// Bytes from the device to the driver.
    pub into: u32,
}

/// Returns the bytes that a command needs room for: those that it takes from the driver, and the most that it returns.
/// A length that the CDB gives counts whole. The decision on a request compares its buffers with this before the
/// command runs.
#[inline(always)]
pub fn need(command: &Command) -> Transfer
    ensures { result ≡ need_of command.now }
{
    match *command {
        Command::Read { blocks, .. } => from_device(u32::from(blocks) * BLOCK_BYTES),
        Command::Write { blocks, .. } => from_driver(u32::from(blocks) * BLOCK_BYTES),
        Command::WriteSame { .. } => from_driver(BLOCK_BYTES),
        Command::CompareAndWrite { blocks, .. } => {
            from_driver(2 * u32::from(blocks) * BLOCK_BYTES)
        }
        Command::Unmap { list_length } => from_driver(u32::from(list_length)),
        Command::RequestSense { allocation, .. }
        | Command::Inquiry { allocation, .. }
        | Command::ReadCapacity16 { allocation }
        | Command::ReportLuns { allocation, .. } => from_device(allocation),
        Command::ReadCapacity10 => from_device(CAPACITY_10_BYTES),
        Command::Wide(command) => wide_need(&command),
        Command::TestUnitReady
        | Command::SynchronizeCache { .. }
        | Command::Bad { .. }
        | Command::Unknown => Transfer { out: 0, into: 0 },
    }
}

/// Returns the same of a command of the wide profile.
fn wide_need(command: &WideCommand) -> Transfer
    ensures { result ≡ wide_need command.now }
{
    match *command {
        WideCommand::ModeSense(request) => from_device(u32::from(request.allocation)),
        WideCommand::ModeSelect { list_length, .. } => from_driver(u32::from(list_length)),
        WideCommand::ReportTaskManagement { allocation, .. }
        | WideCommand::ReportOperationCodes { allocation, .. }
        | WideCommand::GetLbaStatus { allocation, .. } => from_device(allocation),
        WideCommand::Verify { sent, blocks, .. } => from_driver(
            sent_blocks(sent, blocks) * BLOCK_BYTES,
        ),
        WideCommand::WriteZeros { .. } => Transfer { out: 0, into: 0 },
        WideCommand::OrWrite { blocks, .. } => from_driver(u32::from(blocks) * BLOCK_BYTES),
        WideCommand::FormatUnit { list } => from_driver(header_bytes(list)),
        WideCommand::ReadDefectData(request) => from_device(request.allocation),
    }
}

/// Returns how many blocks of data a VERIFY of so many blocks takes.
fn sent_blocks(sent: VerifyData, blocks: u16) -> u32
    ensures count { result ≡ sent_blocks sent blocks }
    ensures few { result ≤ blocks }
{
    match sent {
        VerifyData::EachBlock => u32::from(blocks),
        VerifyData::OneBlock => u32::from(blocks.min(1)),
    }
}

/// Returns how many bytes the parameter list of a FORMAT UNIT has.
fn header_bytes(list: FormatList) -> u32
    ensures { result ≡ header_bytes list }
{
    match list {
        FormatList::NoList => 0,
        FormatList::ShortHeader => 4,
        FormatList::LongHeader => 8,
    }
}

/// Makes a need of so many bytes from the driver alone.
fn from_driver(bytes: u32) -> Transfer
    ensures { result ≡ bytes_out bytes }
{
    Transfer {
        out: bytes,
        into: 0,
    }
}

/// Makes a need of so many bytes to the driver alone.
fn from_device(bytes: u32) -> Transfer
    ensures { result ≡ bytes_in bytes }
{
    Transfer {
        out: 0,
        into: bytes,
    }
}
