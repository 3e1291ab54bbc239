//! The names of refusals, and their numbers.

use super::none_is;
use foundation::NoMemory;
use guest_mem::MemFault;
use scsi_codec::CodecFault;
use std::alloc::Global;
use std::fmt::Display;
use std::test::Fail;

/// Returns true if a value is called so.
fn is_called<D: Display>(alloc: Global, value: &D, text: &str) -> Result<bool, Fail> {
    Ok(format!(in alloc; "{value}")?.as_str() == text)
}

/// Refusals of requests, with their numbers.
static CODEC_FAULTS: [(CodecFault, u8, &str); 3] = [
    (CodecFault::ShortRequest, 1, "request shorter than 51 bytes"),
    (
        CodecFault::ShortResponse,
        2,
        "response area shorter than 108 bytes",
    ),
    (CodecFault::BadAddress, 3, "unreadable logical unit number"),
];

/// Refusals of guest memory, with their numbers.
static MEM_FAULTS: [(MemFault, u8, &str); 2] = [
    (MemFault::Outside, 1, "outside guest memory"),
    (MemFault::NoMemory, 2, "no memory"),
];

/// Returns the first number of a refusal that is called otherwise, or has another number.
fn first_wrong(alloc: Global) -> Result<Option<usize>, Fail> {
    if !is_called(alloc, &NoMemory, "no memory")? {
        return Ok(Some(0));
    }
    for (fault, number, text) in &CODEC_FAULTS {
        if *fault as u8 != *number || !is_called(alloc, fault, text)? {
            return Ok(Some(usize::from(*number)));
        }
    }
    for (fault, number, text) in &MEM_FAULTS {
        if *fault as u8 != *number || !is_called(alloc, fault, text)? {
            return Ok(Some(usize::from(*number)));
        }
    }
    Ok(None)
}

#[test]
fn refusals_have_words_and_numbers(rt: HostRuntime) -> Result<(), Fail> {
    none_is(&rt, first_wrong(rt.alloc())?);
    Ok(())
}
