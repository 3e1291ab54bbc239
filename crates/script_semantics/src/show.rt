//! Prints what became of a request or a function.

ghost use Rattle.std.specs.Prelude.{◌≤◌};

use crate::runs::{Runs, written};
use guest_driver::{Asks, Driver, Sent};
use guest_mem::GuestMem;
use script_syntax::{LineFault, Stop};
use scsi_codec::RESPONSE_BYTES;
use std::io::Write;

/// Returns a number of four bytes of a response.
fn field(response: &[u8; RESPONSE_BYTES], at: usize) -> u32
    requires { at ≤ 100 }
{
    u32::from_le_bytes([
        response[at],
        response[at + 1],
        response[at + 2],
        response[at + 3],
    ])
}

/// The response code of sense in the descriptor format (SPC-4, 4.5.2).
const DESCRIPTOR_FORMAT: u8 = 0x72;

/// The bytes of sense in the descriptor format, as the device gives it with information.
const INFORMED_BYTES: u32 = 20;

/// Prints sense in the descriptor format (SPC-4, 4.5.2): its key, code and qualifier, and the information, if any.
fn print_descriptor_sense<W: Write>(
    out: &mut W,
    response: &[u8; RESPONSE_BYTES],
    sense_len: u32,
) -> Result<(), Stop> {
    let (key, code, qualifier) = (response[13], response[14], response[15]);
    written(write!(out, "{key:02x}/{code:02x}/{qualifier:02x}"))?;
    if sense_len == INFORMED_BYTES {
        let information = u64::from_be_bytes([
            response[24],
            response[25],
            response[26],
            response[27],
            response[28],
            response[29],
            response[30],
            response[31],
        ]);
        written(write!(out, "@{information}"))?;
    }
    Ok(())
}

/// Prints the sense of a response: its key, code and qualifier, and the information where the sense
/// says that it is valid (SPC-4, 4.5.3); `-` where the response has no sense.
fn print_sense<W: Write>(
    out: &mut W,
    response: &[u8; RESPONSE_BYTES],
    sense_len: u32,
) -> Result<(), Stop> {
    if sense_len == 0 {
        return written(write!(out, "-"));
    }
    if response[12] == DESCRIPTOR_FORMAT {
        return print_descriptor_sense(out, response, sense_len);
    }
    let (kind, key) = (response[12], response[14]);
    let (code, qualifier) = (response[24], response[25]);
    written(write!(out, "{key:02x}/{code:02x}/{qualifier:02x}"))?;
    if kind == 0xf0 {
        let information = u32::from_be_bytes([
            response[15],
            response[16],
            response[17],
            response[18],
        ]);
        written(write!(out, "@{information}"))?;
    }
    Ok(())
}

/// Returns the data in behind a response, as far as it lies in memory.
fn data_in(memory: &GuestMem, response: u64, used: u32) -> &[u8] {
    let start = response.saturating_add(RESPONSE_BYTES as u64);
    let len = u64::from(used).saturating_sub(RESPONSE_BYTES as u64);
    let left = memory.size().saturating_sub(start);
    memory.slice(start, len.min(left) as usize).unwrap_or(&[])
}

/// Prints what became of a request that was used with bytes written.
fn print_response<W: Write>(
    out: &mut W,
    memory: &GuestMem,
    name: &str,
    at: u64,
    used: u32,
) -> Result<(), Stop> {
    let mut response = [0; RESPONSE_BYTES];
    if memory.read(at, &mut response).is_err() {
        return Err(Stop::Fault(LineFault::NoGuestMemory));
    }
    let (sense_len, residual) = (field(&response, 0), field(&response, 4));
    let (status, code) = (response[10], response[11]);
    written(write!(
        out,
        "{name} used={used} response={code} status={status:02x} sense_len={sense_len}"
    ))?;
    written(write!(out, " residual={residual} sense="))?;
    print_sense(out, &response, sense_len)?;
    written(write!(out, " data="))?;
    let mut runs = Runs::NONE;
    runs.add(out, data_in(memory, at, used))?;
    runs.end(out)
}

/// Prints what became of a function that was used with bytes written.
fn print_function<W: Write>(
    out: &mut W,
    memory: &GuestMem,
    name: &str,
    at: u64,
    used: u32,
) -> Result<(), Stop> {
    let mut bytes = [0; 1];
    if memory.read(at, &mut bytes).is_err() {
        return Err(Stop::Fault(LineFault::NoGuestMemory));
    }
    let code = bytes[0];
    written(writeln!(out, "{name} used={used} response={code}"))
}

/// Prints what became of a request or a function, as its response stands now.
pub(crate) fn show<W: Write>(
    out: &mut W,
    memory: &GuestMem,
    driver: &Driver,
    name: &str,
) -> Result<(), Stop> {
    let Some(
        Sent {
            asks,
            response,
            used,
            ..
        },
    ) = driver.sent(name)
    else {
        return Err(Stop::Fault(LineFault::NoSuchName));
    };
    match used {
        None => written(writeln!(out, "{name} open")),
        Some(0) => written(writeln!(out, "{name} used=0")),
        Some(used) => match asks {
            Asks::Command => print_response(out, memory, name, response, used),
            Asks::Function => print_function(out, memory, name, response, used),
        },
    }
}
