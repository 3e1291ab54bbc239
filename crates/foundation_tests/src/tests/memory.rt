//! Guest memory.

use super::none_is;
use guest_mem::{GuestMem, MemFault};
use std::alloc::Global;
use std::test::Fail;

/// An act on a memory, and what comes of it.
enum Act {
    /// A page from the first byte on is zeros.
    Zeros,
    /// So many bytes are there.
    Size(u64),
    /// Bytes are written at an address.
    Write(u64, &'static [u8], Result<(), MemFault>),
    /// Three bytes of 7 each are read over from an address on: what they are then.
    Read(u64, Result<(), MemFault>, [u8; 3]),
}

/// The acts on 512 pages, one after the other. Those behind the end are refused.
static ACTS: [Act; 8] = [
    Act::Size(2_097_152),
    Act::Write(2_097_150, &[1, 2], Ok(())),
    Act::Read(2_097_150, Err(MemFault::Outside), [7, 7, 7]),
    Act::Read(2_097_149, Ok(()), [0, 1, 2]),
    Act::Write(2_097_152, &[0], Err(MemFault::Outside)),
    Act::Write(2_097_152, &[], Ok(())),
    Act::Write(2_097_153, &[], Err(MemFault::Outside)),
    Act::Write(u64::MAX, &[0, 0], Err(MemFault::Outside)),
];

/// Does an act. Returns true if its outcome is the expected one.
fn does(memory: &mut GuestMem, act: &Act) -> bool {
    match act {
        Act::Zeros => {
            let mut out = [7; 4096];
            memory.read(0, &mut out).is_ok() && out == [0; 4096]
        }
        Act::Size(size) => memory.size() == *size,
        Act::Write(addr, bytes, result) => memory.write(*addr, bytes) == *result,
        Act::Read(addr, result, wanted) => {
            let mut out = [7; 3];
            memory.read(*addr, &mut out) == *result && out == *wanted
        }
    }
}

/// Returns the number of the first act that doesn't go as it should in a new memory of so many pages, from 0.
fn first_wrong(alloc: Global, pages: u32, acts: &[Act]) -> Result<Option<usize>, MemFault> {
    if pages > 65536 {
        return Err(MemFault::NoMemory);
    }
    let mut memory = GuestMem::new(alloc, pages)?;
    for number in 0..acts.len() {
        if !does(&mut memory, &acts[number]) {
            return Ok(Some(number));
        }
    }
    Ok(None)
}

#[test]
fn guest_memory(rt: HostRuntime) -> Result<(), Fail> {
    none_is(&rt, first_wrong(rt.alloc(), 1, &[Act::Zeros])?);
    none_is(&rt, first_wrong(rt.alloc(), 512, &ACTS)?);
    Ok(())
}
