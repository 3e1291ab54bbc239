//! The lines that print.

use crate::fault::LineFault;
use crate::header::only;
use crate::values::{name, number, unit_pair};
use scsi_codec::Address;

/// A line that prints. It isn't known here which queues, units and blocks there are.
#[derive(Clone, Copy)]
pub enum PrintLine<'a> {
    /// The end of a request or a function.
    Show(&'a str),
    /// The requests or functions of a queue that were used, in order.
    Order(u16),
    /// The bytes of so many blocks of a unit, from one on.
    Blocks(Address, u64, u64),
    /// The steps of a unit.
    History(Address),
    /// The events that used buffers tell.
    Events,
    /// The status of the device.
    Status,
    /// The number of notices that a queue gave.
    Notices(u16),
    /// The pages of a unit's disk that the host was asked for.
    Wanted(Address),
    /// The pages that it is writing.
    Given(Address),
    /// The bytes that its storage keeps of so many blocks, from one on.
    Stored(Address, u64, u64),
}

impl<'a> PrintLine<'a> {
    /// Reads a line by its first word and the others; `None` where the first is no word of a line that prints.
    /// `BadValue` where the others aren't what it takes.
    pub fn read(keyword: &str, values: &[&'a str]) -> Result<Option<PrintLine<'a>>, LineFault> {
        let line = match keyword {
            "show" => PrintLine::Show(name(only(values)?)?),
            "order" => PrintLine::Order(number(only(values)?)?),
            "blocks" => {
                let (unit, first, count) = blocks(values)?;
                PrintLine::Blocks(unit, first, count)
            }
            "history" => PrintLine::History(unit_pair(only(values)?)?),
            "events" => alone(values, PrintLine::Events)?,
            "status" => alone(values, PrintLine::Status)?,
            "notices" => PrintLine::Notices(number(only(values)?)?),
            "wanted" => PrintLine::Wanted(unit_pair(only(values)?)?),
            "given" => PrintLine::Given(unit_pair(only(values)?)?),
            "stored" => {
                let (unit, first, count) = blocks(values)?;
                PrintLine::Stored(unit, first, count)
            }
            _ => return Ok(None),
        };
        Ok(Some(line))
    }
}

/// Returns a line that has no values; `BadValue` where it has some.
fn alone<'a>(values: &[&str], line: PrintLine<'a>) -> Result<PrintLine<'a>, LineFault> {
    if values.is_empty() {
        Ok(line)
    } else {
        Err(LineFault::BadValue)
    }
}

/// Reads a unit, and so many blocks from one on.
fn blocks(values: &[&str]) -> Result<(Address, u64, u64), LineFault> {
    let [unit, first, count] = values else {
        return Err(LineFault::BadValue);
    };
    Ok((unit_pair(unit)?, number(first)?, number(count)?))
}
