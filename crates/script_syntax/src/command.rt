//! The lines behind the header.

use crate::fault::{LineFault, Stop};
use crate::guest_line::{GuestLine, Race};
use crate::header::{HeaderLine, only};
use crate::host_line::HostLine;
use crate::print_line::PrintLine;
use crate::step::Step;
use crate::values::{capacity, name, number, unit_pair};
use ring_core::Notify;
use scsi_codec::Address;
use std::alloc::Global;

/// A line behind the header. It isn't known here which of them may stand in a script, and where.
#[derive(Drop)]
pub enum Command<'a> {
    /// The guest writes into its memory.
    Guest(GuestLine<'a>),
    /// The guest changes bytes while the device runs by the next line.
    Race(Race),
    /// The operator resets a unit, which may be absent.
    Hard(Address),
    /// The operator gives a unit, which may be absent, so many blocks, 1 to 2^40 as a line is read.
    Resize(Address, u64),
    /// The device asks the driver of a queue, which may be absent, for a notification of the next chain, or for none.
    Ask(u16, Notify),
    /// The device runs until nothing is left to do.
    Settle,
    /// The device takes one step, if it applies.
    Step(Step),
    /// The host does something with a page of a disk.
    Host(HostLine),
    /// The guest waits for the answer of a request or a function.
    Wait(&'a str),
    /// The device is closed.
    Close,
    /// The device is closed, and takes no chain any more.
    Abandon,
    /// Something is printed.
    Print(PrintLine<'a>),
}

impl<'a> Command<'a> {
    /// Reads a line behind the header by its first word and the others. `UnknownLine` where the first
    /// is no word of the language, `BadValue` where the others aren't what it takes, `OutOfPlace` for
    /// a right header line; `NoMemory` where memory runs out.
    pub fn read(alloc: Global, keyword: &str, values: &[&'a str]) -> Result<Command<'a>, Stop> {
        if let Some(line) = GuestLine::read(alloc, keyword, values)? {
            return Ok(Command::Guest(line));
        }
        if let Some(line) = PrintLine::read(keyword, values)? {
            return Ok(Command::Print(line));
        }
        if let Some(step) = Step::read(keyword, values)? {
            return Ok(Command::Step(step));
        }
        if let Some(line) = HostLine::read(keyword, values)? {
            return Ok(Command::Host(line));
        }
        match keyword {
            "race" => Ok(Command::Race(Race::read(alloc, values)?)),
            "hard" => Ok(Command::Hard(unit_pair(only(values)?)?)),
            "resize" => Ok(resize(values)?),
            "ask" => Ok(ask(values)?),
            "settle" => Ok(alone(values, Command::Settle)?),
            "wait" => Ok(Command::Wait(name(only(values)?)?)),
            "close" => Ok(alone(values, Command::Close)?),
            "abandon" => Ok(alone(values, Command::Abandon)?),
            _ => Err(no_command(keyword, values)),
        }
    }
}

/// Returns why a line is no line behind the header: a header line comes late.
fn no_command(keyword: &str, values: &[&str]) -> Stop {
    match HeaderLine::read(keyword, values) {
        Ok(Some(_)) => Stop::Fault(LineFault::OutOfPlace),
        Ok(None) => Stop::Fault(LineFault::UnknownLine),
        Err(fault) => Stop::Fault(fault),
    }
}

/// Reads the values of a resize.
fn resize<'a>(values: &[&str]) -> Result<Command<'a>, LineFault> {
    let [unit, blocks] = values else {
        return Err(LineFault::BadValue);
    };
    let unit = unit_pair(unit)?;
    let blocks = capacity(blocks)?;
    Ok(Command::Resize(unit, blocks))
}

/// Reads what is asked of a driver.
pub(crate) fn notify(word: &str) -> Result<Notify, LineFault> {
    match word {
        "next" => Ok(Notify::Next),
        "never" => Ok(Notify::Never),
        _ => Err(LineFault::BadValue),
    }
}

/// Reads the values of an ask.
fn ask<'a>(values: &[&str]) -> Result<Command<'a>, LineFault> {
    let [queue, word] = values else {
        return Err(LineFault::BadValue);
    };
    let queue = number(queue)?;
    let notify = notify(word)?;
    Ok(Command::Ask(queue, notify))
}

/// Returns a line that has no values; `BadValue` where it has some.
fn alone<'a>(values: &[&str], command: Command<'a>) -> Result<Command<'a>, LineFault> {
    if values.is_empty() {
        Ok(command)
    } else {
        Err(LineFault::BadValue)
    }
}
