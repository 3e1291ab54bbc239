//! The lines of the host, which has the storages of disks.

use crate::fault::LineFault;
use crate::header::only;
use crate::values::{number, unit_pair};
use scsi_codec::Address;

/// A line of the host. It isn't known here which units there are, and which pages it was asked for.
#[derive(Clone, Copy)]
pub enum HostLine {
    /// A page that the host was asked for is read, and handed in.
    Load(Address, u64),
    /// It isn't handed in for now.
    Refuse(Address, u64),
    /// It can't be read.
    Lose(Address, u64),
    /// The next page that is to be written is taken.
    Give(Address),
    /// A page that was taken is written, and kept.
    Keep(Address, u64),
    /// Its write failed.
    Fail(Address, u64),
    /// It can't be written.
    Deny(Address, u64),
}

/// Reads a unit, and a page of its disk.
fn page(values: &[&str]) -> Result<(Address, u64), LineFault> {
    let [unit, page] = values else {
        return Err(LineFault::BadValue);
    };
    let unit = unit_pair(unit)?;
    let page = number::<u64>(page)?;
    Ok((unit, page))
}

impl HostLine {
    /// Reads a line by its first word and the others; `None` where the first is no word of the host.
    /// `BadValue` where the others aren't what it takes.
    pub fn read(keyword: &str, values: &[&str]) -> Result<Option<HostLine>, LineFault> {
        let line = match keyword {
            "give" => HostLine::Give(unit_pair(only(values)?)?),
            "load" | "refuse" | "lose" | "keep" | "fail" | "deny" => {
                let (unit, page) = page(values)?;
                of_page(keyword, unit, page)
            }
            _ => return Ok(None),
        };
        Ok(Some(line))
    }

    /// Returns the unit that the line is about.
    pub fn unit(self) -> Address {
        match self {
            HostLine::Load(unit, _) | HostLine::Refuse(unit, _) | HostLine::Lose(unit, _) => unit,
            HostLine::Give(unit)
            | HostLine::Keep(unit, _)
            | HostLine::Fail(unit, _)
            | HostLine::Deny(unit, _) => unit,
        }
    }
}

/// Returns the line of a page by its first word.
fn of_page(keyword: &str, unit: Address, page: u64) -> HostLine {
    match keyword {
        "load" => HostLine::Load(unit, page),
        "refuse" => HostLine::Refuse(unit, page),
        "lose" => HostLine::Lose(unit, page),
        "keep" => HostLine::Keep(unit, page),
        "deny" => HostLine::Deny(unit, page),
        _ => HostLine::Fail(unit, page),
    }
}
