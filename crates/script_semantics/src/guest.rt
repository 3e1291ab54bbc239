//! Runs the lines of the guest.

use guest_driver::{Driver, GuestMemory, put_bytes};
use script_syntax::{Bytes, GuestLine, Stop};
use std::alloc::Global;

/// Runs a line of the guest. A fault where the driver has no room for it; a poke that doesn't fit into memory does
/// nothing. `play` and `serve` call it for each such line.
pub fn run_guest_line<M: GuestMemory>(
    alloc: Global,
    driver: &mut Driver,
    memory: &mut M,
    line: &GuestLine<'_>,
) -> Result<(), Stop> {
    match line {
        GuestLine::Send(send) => driver.send(memory, send),
        GuestLine::TaskManagement(function) => driver.send_function(memory, function),
        GuestLine::Event => driver.send_event_buffer(memory),
        GuestLine::Poke(addr, bytes) => poke(alloc, memory, *addr, bytes),
    }
}

/// Writes bytes where they fit into memory, and does nothing where they don't.
fn poke<M: GuestMemory>(
    alloc: Global,
    memory: &mut M,
    addr: u64,
    bytes: &Bytes,
) -> Result<(), Stop> {
    let size = memory.size();
    if addr > size || bytes.length() > size - addr {
        return Ok(());
    }
    put_bytes(alloc, memory, addr, bytes)
}
