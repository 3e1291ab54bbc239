//! The names that lines may use.

use config::UnitSpec;
use script_syntax::{Command, GuestLine, LineFault, PrintLine, Race};
use scsi_codec::{Address, FIRST_REQUEST_QUEUE};

/// The names that lines may use: so many queues, and the units of the header.
#[derive(Drop)]
pub struct Known {
    /// The bytes of guest memory.
    pub memory: u64,
    /// True if lines may change bytes between two reads of the device.
    pub is_live: bool,
    /// The number of queues, the control and the event queue among them.
    pub queues: u16,
    /// The units, in the order of the header.
    pub units: Vec<UnitSpec>,
    /// The most pages of each unit's disk that are in memory, where a storage has the others.
    pub caches: Vec<Option<usize>>,
}

impl Known {
    /// Refuses a line by `BadValue` where it sends to what is no queue of requests, races for bytes outside memory,
    /// prints of a queue, a unit or blocks that aren't there, or is about the storage of a disk that has none. This is
    /// looked at before where the line stands. Called for each line behind the header.
    pub fn check(&self, command: &Command<'_>) -> Result<(), LineFault> {
        let is_known = match command {
            Command::Guest(GuestLine::Send(send)) => {
                send.queue >= FIRST_REQUEST_QUEUE && send.queue < self.queues
            }
            Command::Race(race) => self.lies_inside(race),
            Command::Print(line) => self.may_print(*line),
            Command::Host(line) => self.is_backed(line.unit()),
            _ => true,
        };
        if is_known {
            Ok(())
        } else {
            Err(LineFault::BadValue)
        }
    }

    /// Returns true if all bytes that a race changes lie in memory.
    fn lies_inside(&self, race: &Race) -> bool {
        race.addr <= self.memory && race.bytes.length() <= self.memory - race.addr
    }

    /// Returns true if what a line prints of is there.
    fn may_print(&self, line: PrintLine<'_>) -> bool {
        match line {
            PrintLine::Order(queue) | PrintLine::Notices(queue) => queue < self.queues,
            PrintLine::History(unit) => self.unit_index(unit).is_some(),
            PrintLine::Blocks(unit, first, count) => {
                !self.is_backed(unit) && self.has_blocks(unit, first, count)
            }
            PrintLine::Stored(unit, first, count) => {
                self.is_backed(unit) && self.has_blocks(unit, first, count)
            }
            PrintLine::Wanted(unit) | PrintLine::Given(unit) => self.is_backed(unit),
            PrintLine::Show(_) | PrintLine::Events | PrintLine::Status => true,
        }
    }

    /// Returns true if a unit's disk is on a storage.
    pub(crate) fn is_backed(&self, unit: Address) -> bool {
        let Some(unit_index) = self.unit_index(unit) else {
            return false;
        };
        match self.caches.get(unit_index as usize) {
            Some(cache) => cache.is_some(),
            None => false,
        }
    }

    /// Returns true if so many blocks from one on lie within a unit.
    fn has_blocks(&self, unit: Address, first: u64, count: u64) -> bool {
        for known in self.units.iter() {
            if known.target == unit.target && known.lun == unit.lun {
                return first <= known.blocks && count <= known.blocks - first;
            }
        }
        false
    }

    /// Takes down that the unit at an index has so many blocks from now on. Called once the unit was resized.
    pub fn resize(&mut self, unit_index: u16, blocks: u64) {
        if let Some(known) = self.units.get_mut(unit_index as usize) {
            known.blocks = blocks;
        }
    }

    /// Returns the index of a unit, by which the operator names it; `None` where it isn't there. Asked for a line that
    /// names a unit.
    pub fn unit_index(&self, unit: Address) -> Option<u16> {
        let unit_index = self.units.iter().position(|known| known.target == unit.target
            && known.lun == unit.lun)?;
        u16::try_from(unit_index).ok()
    }
}
