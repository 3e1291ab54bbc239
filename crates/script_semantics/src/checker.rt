//! Reads a script, line by line, as one that is played.

use crate::header::Wanted;
use crate::kind::Kind;
use crate::known::Known;
use crate::script::{Script, command_of, line_number, read_whole};
use crate::wrong::Wrong;
use config::Config;
use script_syntax::{Command, GuestLine, LineFault, PrintLine, ScriptFault, Stop, lines_of};
use scsi_codec::Address;
use std::alloc::Global;
use std::collections::BTreeSet;
use std::io::Read;

/// Says what is wrong with a script: its first fault, with the line and, where one is at fault, the word. The script is
/// read whole, and no device stands beside it. So it isn't said where a queue is full, guest memory has no room, or
/// steps run out: that shows only as a script is played. A script is read as one for `serve` where `wait`, `close` or
/// `abandon` stands before each step of the device and each line that prints, else as one for `play`. A program calls
/// it before a script is played.
///
/// A reader that fails is a fault of line 0. Where memory runs out it ends with `NoMemory`.
pub fn check<S: Read>(alloc: Global, script: &mut S) -> Result<(), ScriptFault> {
    let bytes = read_whole(alloc, script)?;
    let (script, wanted) = match Script::read(alloc, bytes.as_slice()) {
        Ok(read) => read,
        Err(fault) => return Err(of_header(alloc, bytes.as_slice(), fault)),
    };
    let Ok(kind) = Kind::of(alloc, &script) else {
        return Err(ScriptFault::NoMemory);
    };
    let suits_threads = wanted.suits_threads();
    let Wanted { config, known, .. } = wanted;
    if !is_taken(config, suits_threads, kind) {
        return Err(script.refused(Stop::Fault(LineFault::BadConfig)));
    }
    let mut checker = Checker::new(alloc, kind, known);
    for (index, line) in script.lines.iter().enumerate().skip(script.header) {
        if let Err(wrong) = checker.check_line(line) {
            return Err(wrong.named(line_number(index)));
        }
    }
    Ok(())
}

/// Returns the fault of a header, with its word where a line can't be read.
fn of_header(alloc: Global, bytes: &[u8], fault: ScriptFault) -> ScriptFault {
    let ScriptFault::Line { line, fault: cause } = fault else {
        return fault;
    };
    let Ok(lines) = lines_of(alloc, bytes) else {
        return ScriptFault::NoMemory;
    };
    match lines.get(line.saturating_sub(1) as usize) {
        Some(text) => Wrong::of_line(alloc, text, Stop::Fault(cause)).named(line),
        None => fault,
    }
}

/// Returns true if the device takes what a header asks for, which may suit threads. `serve` has a number of workers of its
/// own.
fn is_taken(mut config: Config, suits_threads: bool, kind: Kind) -> bool {
    match kind {
        Kind::Play => config.is_valid(),
        Kind::Serve => {
            config.workers = 1;
            suits_threads && config.is_valid()
        }
    }
}

/// A script up to a line, as a check knows it.
#[derive(Drop)]
struct Checker {
    alloc: Global,
    kind: Kind,
    known: Known,
    /// The names of what was sent.
    names: BTreeSet<String>,
    /// True once the device was closed.
    is_closed: bool,
}

impl Checker {
    /// Begins before the first line behind the header.
    fn new(alloc: Global, kind: Kind, known: Known) -> Checker {
        Checker {
            alloc,
            kind,
            known,
            names: BTreeSet::new(alloc),
            is_closed: false,
        }
    }

    /// Reads a line, and takes down what it says.
    fn check_line(&mut self, line: &[u8]) -> Result<(), Wrong> {
        let command = match command_of(self.alloc, line) {
            Ok(Some(command)) => command,
            Ok(None) => return Ok(()),
            Err(stop) => return Err(Wrong::of_line(self.alloc, line, stop)),
        };
        if let Err(fault) = self.known.check(&command) {
            return Err(Wrong::at(self.absent(&command), fault));
        }
        if !self.may_stand(&command) {
            return Err(Wrong::at(0, LineFault::OutOfPlace));
        }
        self.take(&command)
    }

    /// Returns the word of a line, from 0 on, that names a queue, a unit or blocks which aren't there.
    fn absent(&self, command: &Command<'_>) -> usize {
        match command {
            Command::Guest(_) => 2,
            Command::Print(PrintLine::Blocks(unit, first, _)) => {
                self.absent_blocks(*unit, *first, false)
            }
            Command::Print(PrintLine::Stored(unit, first, _)) => {
                self.absent_blocks(*unit, *first, true)
            }
            _ => 1,
        }
    }

    /// Returns the word of a line of blocks from one on that are of a storage, or aren't.
    fn absent_blocks(&self, unit: Address, first: u64, is_stored: bool) -> usize {
        let unit_index = self.known.unit_index(unit);
        match unit_index.and_then(|unit_index| self.known.units.get(unit_index as usize)) {
            None => 1,
            Some(_) if self.known.is_backed(unit) != is_stored => 1,
            Some(unit) if first > unit.blocks => 2,
            Some(_) => 3,
        }
    }

    /// Returns true if a line may stand here.
    fn may_stand(&self, command: &Command<'_>) -> bool {
        match (self.kind, command) {
            (Kind::Play, Command::Wait(_) | Command::Close | Command::Abandon) => false,
            (Kind::Play, Command::Race(_)) => self.known.is_live,
            (Kind::Play, _) => true,
            (Kind::Serve, Command::Print(_)) => self.is_closed,
            (Kind::Serve, Command::Settle | Command::Step(_) | Command::Ask(_, _)) => false,
            (Kind::Serve, Command::Race(_) | Command::Host(_)) => false,
            (Kind::Serve, _) => !self.is_closed,
        }
    }

    /// Takes down what a line says. `NameTaken` and `NoSuchName` by the names that were sent before.
    fn take(&mut self, command: &Command<'_>) -> Result<(), Wrong> {
        match command {
            Command::Guest(GuestLine::Send(send)) => self.add(send.name),
            Command::Guest(GuestLine::TaskManagement(function)) => self.add(function.name),
            Command::Print(PrintLine::Show(name)) | Command::Wait(name) => self.find(name),
            Command::Resize(unit, blocks) => {
                if let Some(unit_index) = self.known.unit_index(*unit) {
                    self.known.resize(unit_index, *blocks);
                }
                Ok(())
            }
            Command::Close | Command::Abandon => {
                self.is_closed = true;
                Ok(())
            }
            _ => Ok(()),
        }
    }

    /// Takes down a name. `NameTaken` where it was sent before.
    fn add(&mut self, name: &str) -> Result<(), Wrong> {
        if self.names.contains(name) {
            return Err(Wrong::at(1, LineFault::NameTaken));
        }
        let Ok(name) = String::from_str(self.alloc, name) else {
            return Err(Wrong::without(Stop::NoMemory));
        };
        match self.names.insert(name) {
            Ok(_) => Ok(()),
            Err(_) => Err(Wrong::without(Stop::NoMemory)),
        }
    }

    /// Refuses a name by `NoSuchName` where nothing of that name was sent before.
    fn find(&self, name: &str) -> Result<(), Wrong> {
        if self.names.contains(name) {
            Ok(())
        } else {
            Err(Wrong::at(1, LineFault::NoSuchName))
        }
    }
}
