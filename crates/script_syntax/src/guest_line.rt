//! The acts of the guest, as lines say them.

use crate::fault::{LineFault, Stop};
use crate::send::{Send, TaskManagement};
use crate::values::{Bytes, name, number, ordinal, unit_pair};
use scsi_codec::{CDB_BYTES, write_lun};
use std::alloc::Global;

/// A change of guest memory between two reads of the device.
#[derive(Drop)]
pub struct Race {
    /// The address of its first byte.
    pub addr: u64,
    /// The bytes that stand there afterwards.
    pub bytes: Bytes,
    /// The number of the read before which they are written, from 1 on.
    pub before: u64,
}

impl Race {
    /// Reads the values of `race`.
    pub(crate) fn read(alloc: Global, values: &[&str]) -> Result<Race, Stop> {
        let (addr, bytes, read) = match values {
            [addr, bytes, word, read] if *word == "before" => (*addr, *bytes, *read),
            _ => return Err(Stop::Fault(LineFault::BadValue)),
        };
        let addr = number(addr)?;
        let before = ordinal(read)?;
        let bytes = Bytes::read(alloc, bytes)?;
        Ok(Race {
            addr,
            bytes,
            before,
        })
    }
}

/// A line of the guest, which writes into its memory.
#[derive(Drop)]
pub enum GuestLine<'a> {
    /// A request goes to the device.
    Send(Send<'a>),
    /// A task management function goes to the device.
    TaskManagement(TaskManagement<'a>),
    /// An event buffer goes to the device.
    Event,
    /// The guest writes bytes at an address.
    Poke(u64, Bytes),
}

impl<'a> GuestLine<'a> {
    /// Reads a line by its first word and the others; `None` where the first is no word of a guest's line. `BadValue`
    /// where the others aren't what it takes; `NoMemory` where memory runs out.
    pub fn read(
        alloc: Global,
        keyword: &str,
        values: &[&'a str],
    ) -> Result<Option<GuestLine<'a>>, Stop> {
        let line = match keyword {
            "send" => GuestLine::Send(send(alloc, values)?),
            "tmf" => GuestLine::TaskManagement(task_management(values)?),
            "event" if values.is_empty() => GuestLine::Event,
            "event" => return Err(Stop::Fault(LineFault::BadValue)),
            "poke" => poke(alloc, values)?,
            _ => return Ok(None),
        };
        Ok(Some(line))
    }
}

/// Reads the values of `poke`.
fn poke<'a>(alloc: Global, values: &[&str]) -> Result<GuestLine<'a>, Stop> {
    let [addr, bytes] = values else {
        return Err(Stop::Fault(LineFault::BadValue));
    };
    let addr = number(addr)?;
    Ok(GuestLine::Poke(addr, Bytes::read(alloc, bytes)?))
}

/// Reads a task attribute (SAM-5 §8.6).
pub(crate) fn attribute(word: &str) -> Result<u8, LineFault> {
    match word {
        "simple" => Ok(0),
        "ordered" => Ok(1),
        "head" => Ok(2),
        _ => number(word),
    }
}

/// Reads a command block, of 1 to 32 bytes, which zeros fill up.
pub(crate) fn command_block(alloc: Global, text: &str) -> Result<[u8; CDB_BYTES], Stop> {
    let bytes = Bytes::read(alloc, text)?;
    if bytes.length() > CDB_BYTES as u64 {
        return Err(Stop::Fault(LineFault::BadValue));
    }
    let mut all = Vec::new(alloc);
    for item in bytes.items() {
        item.append_copies(item.repeat, &mut all)?;
    }
    let mut cdb = [0; CDB_BYTES];
    for (slot, byte) in cdb.iter_mut().zip(all.iter()) {
        *slot = *byte;
    }
    Ok(cdb)
}

/// Returns the data out and the room for data in, as the last words of `send` say.
fn data<'a>(values: &[&'a str]) -> Result<(Option<&'a str>, u32), LineFault> {
    let (out, room) = match values {
        [] => (None, None),
        [word, bytes] if *word == "out" => (Some(*bytes), None),
        [word, room] if *word == "in" => (None, Some(*room)),
        [first, bytes, second, room] if *first == "out" && *second == "in" => {
            (Some(*bytes), Some(*room))
        }
        _ => return Err(LineFault::BadValue),
    };
    match room {
        Some(room) => Ok((out, number(room)?)),
        None => Ok((out, 0)),
    }
}

/// Reads the values of `send`.
fn send<'a>(alloc: Global, values: &[&'a str]) -> Result<Send<'a>, Stop> {
    let [word, queue, unit, id, task_attribute, cdb, rest @ ..] = values else {
        return Err(Stop::Fault(LineFault::BadValue));
    };
    let address = unit_pair(unit)?;
    let (out, room) = data(rest)?;
    Ok(Send {
        name: name(word)?,
        queue: number(queue)?,
        lun: write_lun(&address),
        id: number(id)?,
        attribute: attribute(task_attribute)?,
        cdb: command_block(alloc, cdb)?,
        out: match out {
            Some(bytes) => Bytes::read(alloc, bytes)?,
            None => Bytes::none(alloc),
        },
        room,
    })
}

/// Reads the values of `tmf`.
fn task_management<'a>(values: &[&'a str]) -> Result<TaskManagement<'a>, LineFault> {
    let [word, subtype, unit, id] = values else {
        return Err(LineFault::BadValue);
    };
    let address = unit_pair(unit)?;
    Ok(TaskManagement {
        name: name(word)?,
        subtype: number(subtype)?,
        lun: write_lun(&address),
        id: number(id)?,
    })
}
