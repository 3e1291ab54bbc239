//! Prints what a script's lines ask for.

use crate::device::{Device, Hosted};
use crate::runs::{Runs, written};
use crate::show::show;
use block_store::BLOCK_BYTES;
use guest_driver::Driver;
use guest_mem::GuestMem;
use logical_unit::{StepKind, UnitState};
use ring_core::Ticket;
use script_syntax::{LineFault, PrintLine, Stop};
use scsi_codec::{Address, EVENT_BYTES};
use std::alloc::Global;
use std::io::Write;

/// The number of blocks that are read at once.
const BLOCKS_AT_ONCE: u64 = 64;

/// The bytes of as many blocks.
const BYTES_AT_ONCE: usize = 64 * BLOCK_BYTES;

/// Prints what a line asks for, of a device that stands still. `BadValue` where what it prints of isn't there,
/// `NoSuchName` where nothing of that name was sent, `CannotWrite` where the writer refused. `play` calls it between
/// two steps of its device, `serve` once that is closed.
pub fn print<D: Device, W: Write>(
    alloc: Global,
    out: &mut W,
    device: &D,
    driver: &Driver,
    line: PrintLine<'_>,
) -> Result<(), Stop> {
    match line {
        PrintLine::Show(name) => show(out, device.memory(), driver, name),
        PrintLine::Order(queue) => order(out, driver, queue),
        PrintLine::Blocks(address, first, count) => {
            let unit = unit_of(device, address)?;
            blocks(alloc, out, unit, (address, first, count))
        }
        PrintLine::History(address) => history(out, driver, address, unit_of(device, address)?),
        PrintLine::Events => events(out, device.memory(), driver),
        PrintLine::Status => {
            let status = device.status();
            written(writeln!(out, "status {status}"))
        }
        PrintLine::Notices(queue) => notices(out, queue, device.notices(queue)),
        PrintLine::Wanted(address) => {
            let hosted = hosted_of(device, address)?;
            pages(out, "wanted", address, hosted.wanted)
        }
        PrintLine::Given(address) => {
            let hosted = hosted_of(device, address)?;
            pages(out, "given", address, hosted.given)
        }
        PrintLine::Stored(address, first, count) => {
            let hosted = hosted_of(device, address)?;
            stored(alloc, out, hosted, (address, first, count))
        }
    }
}

/// Returns the unit of an address. `BadValue` where there is none.
fn unit_of<D: Device>(device: &D, address: Address) -> Result<&UnitState, LineFault> {
    match device.unit(address) {
        Some(unit) => Ok(unit),
        None => Err(LineFault::BadValue),
    }
}

/// Returns what the host has of a unit's disk. `BadValue` where the disk isn't on a storage of its.
fn hosted_of<D: Device>(device: &D, address: Address) -> Result<Hosted<'_>, LineFault> {
    match device.hosted(address) {
        Some(hosted) => Ok(hosted),
        None => Err(LineFault::BadValue),
    }
}

/// Prints pages of a unit's disk.
fn pages<W: Write>(out: &mut W, word: &str, address: Address, pages: &[u64]) -> Result<(), Stop> {
    let Address { target, lun } = address;
    written(write!(out, "{word} {target}:{lun}:"))?;
    for page in pages {
        written(write!(out, " {page}"))?;
    }
    written(writeln!(out))
}

/// Prints what a storage keeps of blocks. `BadValue` where one of them can't lie there, `NoMemory` where it is gone.
fn stored<W: Write>(
    alloc: Global,
    out: &mut W,
    hosted: Hosted<'_>,
    (address, first, count): (Address, u64, u64),
) -> Result<(), Stop> {
    let Address { target, lun } = address;
    let Some(storage) = hosted.storage else {
        return Err(Stop::NoMemory);
    };
    let mut bytes = Vec::with_capacity(alloc, BYTES_AT_ONCE)?;
    written(write!(out, "stored {target}:{lun} {first} {count}: "))?;
    let mut runs = Runs::NONE;
    let (mut at, mut left) = (first, count);
    while left > 0 {
        let now = left.min(BLOCKS_AT_ONCE);
        bytes.clear();
        if !storage.read_blocks(at, now as u32, &mut bytes)? {
            return Err(Stop::Fault(LineFault::BadValue));
        }
        runs.add(out, bytes.as_slice())?;
        at = at.saturating_add(now);
        left -= now;
    }
    runs.end(out)
}

/// Prints how many notices a queue gave. `BadValue` where there is no such queue.
fn notices<W: Write>(out: &mut W, queue: u16, notices: Option<u64>) -> Result<(), Stop> {
    match notices {
        Some(notices) => written(writeln!(out, "notices {queue}: {notices}")),
        None => Err(Stop::Fault(LineFault::BadValue)),
    }
}

/// Prints the names of a queue's used requests or functions, in order.
fn order<W: Write>(out: &mut W, driver: &Driver, queue: u16) -> Result<(), Stop> {
    let Some(names) = driver.used(queue) else {
        return Err(Stop::Fault(LineFault::BadValue));
    };
    written(write!(out, "order {queue}:"))?;
    for name in names {
        let name = name.as_str();
        written(write!(out, " {name}"))?;
    }
    written(writeln!(out))
}

/// Prints what stands in the blocks of a unit. `BadValue` where they don't all lie there.
fn blocks<W: Write>(
    alloc: Global,
    out: &mut W,
    unit: &UnitState,
    (address, first, count): (Address, u64, u64),
) -> Result<(), Stop> {
    let Address { target, lun } = address;
    let capacity = unit.capacity();
    if first > capacity || count > capacity - first {
        return Err(Stop::Fault(LineFault::BadValue));
    }
    let mut bytes = Vec::with_capacity(alloc, BYTES_AT_ONCE)?;
    written(write!(out, "blocks {target}:{lun} {first} {count}: "))?;
    let mut runs = Runs::NONE;
    let (mut at, mut left) = (first, count);
    while left > 0 {
        let now = left.min(BLOCKS_AT_ONCE);
        bytes.clear();
        unit.read_blocks(at, now as u32, &mut bytes)?;
        runs.add(out, bytes.as_slice())?;
        at += now;
        left -= now;
    }
    runs.end(out)
}

/// Prints a word, and the name of the request of a ticket: the queue's number and the ticket's where the driver sent
/// none.
fn print_named<W: Write>(
    out: &mut W,
    driver: &Driver,
    word: &str,
    ticket: Ticket,
) -> Result<(), Stop> {
    let Ticket { queue, number } = ticket;
    match driver.offered(queue, number) {
        Some(name) => written(write!(out, "{word} {name}")),
        None => written(write!(out, "{word} {queue}/{number}")),
    }
}

/// Prints a step of a unit.
fn print_step<W: Write>(out: &mut W, driver: &Driver, step: StepKind) -> Result<(), Stop> {
    match step {
        StepKind::Enter(ticket) => print_named(out, driver, "enter", ticket),
        StepKind::Full(ticket) => print_named(out, driver, "full", ticket),
        StepKind::Commit(ticket) => print_named(out, driver, "commit", ticket),
        StepKind::Busy(ticket) => print_named(out, driver, "busy", ticket),
        StepKind::Abort(_) => written(write!(out, "abort")),
        StepKind::Reset => written(write!(out, "reset")),
        StepKind::Resize => written(write!(out, "resize")),
        StepKind::Leave(ticket) => print_named(out, driver, "leave", ticket),
    }
}

/// Prints the steps of a unit that stand one by one, in order. Where older ones are folded, prints first how many.
fn history<W: Write>(
    out: &mut W,
    driver: &Driver,
    address: Address,
    unit: &UnitState,
) -> Result<(), Stop> {
    let Address { target, lun } = address;
    written(write!(out, "history {target}:{lun}:"))?;
    let base = unit.base();
    if base > 0 {
        written(write!(out, " base {base}"))?;
    }
    for place in base..unit.steps() {
        if let Some(step) = unit.step(place) {
            let before = if place == 0 { " " } else { ", " };
            written(write!(out, "{before}"))?;
            print_step(out, driver, step)?;
        }
    }
    written(writeln!(out))
}

/// Prints what an event buffer tells.
fn print_event<W: Write>(
    out: &mut W,
    memory: &GuestMem,
    number: usize,
    at: u64,
) -> Result<(), Stop> {
    let mut bytes = [0; EVENT_BYTES];
    if memory.read(at, &mut bytes).is_err() {
        return Err(Stop::Fault(LineFault::NoGuestMemory));
    }
    let event = u32::from_le_bytes([bytes[0], bytes[1], bytes[2], bytes[3]]);
    let lun = u64::from_be_bytes([
        bytes[4], bytes[5], bytes[6], bytes[7], bytes[8], bytes[9], bytes[10], bytes[11],
    ]);
    let reason = u32::from_le_bytes([bytes[12], bytes[13], bytes[14], bytes[15]]);
    written(writeln!(
        out,
        "event {number} event={event:08x} lun={lun:016x} reason={reason}"
    ))
}

/// Prints what the used event buffers tell, in the order in which they were used, as they stand now.
fn events<W: Write>(out: &mut W, memory: &GuestMem, driver: &Driver) -> Result<(), Stop> {
    for (index, at) in driver.used_event_buffers().iter().enumerate() {
        print_event(out, memory, index.saturating_add(1), *at)?;
    }
    Ok(())
}
