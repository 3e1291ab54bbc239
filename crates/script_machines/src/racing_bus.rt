//! A guest's memory that changes between two reads of the device.

use guest_mem::GuestMem;
use live_mem::Bus;
use std::cell::RefCell;
use std::mem;
use std::rc::Rc;

/// A change of memory that a line brings: these bytes are written right before the read of a number, from 1 on.
#[derive(Drop)]
pub(crate) struct Change {
    pub(crate) addr: u64,
    pub(crate) bytes: Vec<u8>,
    pub(crate) before: u64,
}

/// A guest's memory while a line of its device runs.
#[derive(Drop)]
pub(crate) struct RacingMemory {
    memory: GuestMem,
    /// The changes that the line brings, in the order of their lines in the script.
    changes: Vec<Change>,
    /// The number of reads since the line began.
    reads: u64,
}

impl RacingMemory {
    /// Makes one over a memory, with changes to come.
    pub(crate) fn new(memory: GuestMem, changes: Vec<Change>) -> RacingMemory {
        RacingMemory {
            memory,
            changes,
            reads: 0,
        }
    }

    /// Begins a line: trades the memory, and the changes that the line brings.
    pub(crate) fn begin(&mut self, memory: &mut GuestMem, changes: &mut Vec<Change>) {
        mem::swap(&mut self.memory, memory);
        mem::swap(&mut self.changes, changes);
        self.reads = 0;
    }

    /// Ends the line: writes the changes before reads that didn't come, and trades the memory back.
    pub(crate) fn end(&mut self, memory: &mut GuestMem) {
        for change in self.changes.iter() {
            if change.before > self.reads {
                let _ = self.memory.write(change.addr, change.bytes.as_slice());
            }
        }
        self.changes.clear();
        mem::swap(&mut self.memory, memory);
    }

    /// Writes the changes before the next read, and reads.
    fn load(&mut self, addr: u64, out: &mut [u8]) {
        self.reads = self.reads.saturating_add(1);
        for change in self.changes.iter() {
            if change.before == self.reads {
                let _ = self.memory.write(change.addr, change.bytes.as_slice());
            }
        }
        let _ = self.memory.read(addr, out);
    }

    /// Writes.
    fn store(&mut self, addr: u64, bytes: &[u8]) {
        let _ = self.memory.write(addr, bytes);
    }
}

/// The device's way to a memory that changes between two of its reads.
#[derive(Drop)]
pub(crate) struct RacingBus {
    pub(crate) guest: Rc<RefCell<RacingMemory>>,
}

impl Bus for RacingBus {
    fn begin(&mut self) {}

    fn load(&mut self, addr: u64, out: &mut [u8]) {
        if let Ok(mut guest) = self.guest.try_borrow_mut() {
            guest.load(addr, out);
        }
    }

    fn store(&mut self, addr: u64, bytes: &[u8]) {
        if let Ok(mut guest) = self.guest.try_borrow_mut() {
            guest.store(addr, bytes);
        }
    }
}
