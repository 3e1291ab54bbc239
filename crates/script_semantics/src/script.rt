//! A script, before a device stands.

use crate::header::{Header, Wanted};
use script_syntax::{Command, LineFault, LineText, ScriptFault, Stop, lines_of, text_of};
use std::alloc::Global;
use std::io::{ErrorKind, Read};

/// Reads the bytes of a script. A reader that fails is a fault of line 0. Whatever plays or checks a script calls it
/// first.
pub fn read_whole<S: Read>(alloc: Global, script: &mut S) -> Result<Vec<u8>, ScriptFault> {
    let mut bytes = Vec::new(alloc);
    match script.read_to_end(&mut bytes) {
        Ok(_) => Ok(bytes),
        Err(error) if error.kind() == ErrorKind::OutOfMemory => Err(ScriptFault::NoMemory),
        Err(_) => Err(ScriptFault::Line {
            line: 0,
            fault: LineFault::CannotRead,
        }),
    }
}

/// The lines of a script, and how many of them belong to its header.
#[derive(Drop)]
pub struct Script<'a> {
    /// Its lines, without their ends.
    pub lines: Vec<&'a [u8]>,
    /// The number of lines, from the first on, that belong to its header.
    pub header: usize,
}

/// Returns the number of the line with that index, from 1 on. Called for a line at fault.
pub fn line_number(index: usize) -> u64 {
    (index as u64).saturating_add(1)
}

impl<'a> Script<'a> {
    /// Reads a script, and what its header asks for. Called once, with the script's bytes. A line of the header at
    /// fault ends it, and `NoMemory` where a growth was refused.
    pub fn read(alloc: Global, bytes: &'a [u8]) -> Result<(Script<'a>, Wanted), ScriptFault> {
        let Ok(lines) = lines_of(alloc, bytes) else {
            return Err(ScriptFault::NoMemory);
        };
        let mut header = Header::new(alloc);
        let mut count = lines.len();
        for (index, line) in lines.iter().enumerate() {
            match header.take(alloc, line) {
                Ok(true) => {}
                Ok(false) => {
                    count = index;
                    break;
                }
                Err(stop) => return Err(stop.at(line_number(index))),
            }
        }
        let script = Script {
            lines,
            header: count,
        };
        match header.wanted(alloc) {
            Ok(wanted) => Ok((script, wanted)),
            Err(stop) => Err(script.refused(stop)),
        }
    }

    /// Makes the fault of a script whose device isn't had: that of the first line behind the header, or of the last
    /// line where none follows. Called where the device refuses what the header asks for.
    pub fn refused(&self, stop: Stop) -> ScriptFault {
        stop.at(line_number(self.header).min(self.lines.len() as u64))
    }
}

/// Returns what a line behind the header says; `None` where it does nothing. Called for each line, as its turn comes.
pub fn command_of(alloc: Global, line: &[u8]) -> Result<Option<Command<'_>>, Stop> {
    match text_of(alloc, line)? {
        LineText::Blank => Ok(None),
        LineText::NoText => Err(Stop::Fault(LineFault::UnknownLine)),
        LineText::Words(words) => match words.split_first() {
            Some((keyword, values)) => Ok(Some(Command::read(alloc, keyword, values)?)),
            None => Ok(None),
        },
    }
}
