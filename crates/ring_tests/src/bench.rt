//! A bench that makes moves, through the trait of all queues alone.

use crate::moves::Move;
use guest_mem::GuestMem;
use ring_core::{Chain, Fetched, Ring, RingFault, scatter};
use std::alloc::Global;

/// A queue in its memory, with its outstanding chains and the bytes read of the last.
#[derive(Drop)]
pub struct Bench<R: Ring> {
    ring: R,
    memory: GuestMem,
    outstanding: Vec<Chain>,
    read: Vec<u8>,
}

/// Writes bytes into a chain. Returns true if all are written.
fn scatters_into(memory: &mut GuestMem, chain: &Chain, at: u32, bytes: &[u8]) -> bool {
    let room = chain.writable_len();
    let len = bytes.len() as u64;
    if memory.size() != chain.memory() || len > 1 << 31 || at > 1 << 30 || at as u64 + len > room {
        return false;
    }
    scatter(memory, chain, at, bytes) as u64 == len
}

impl<R: Ring> Bench<R> {
    /// Makes a queue of which nothing was fetched, with a memory that it fits.
    pub(crate) fn of(alloc: Global, ring: R, memory: GuestMem) -> Bench<R> {
        Bench {
            ring,
            memory,
            outstanding: Vec::new(alloc),
            read: Vec::new(alloc),
        }
    }

    /// Makes moves. The number of the first that doesn't go as it says, from 0.
    pub(crate) fn first_wrong(&mut self, moves: &[Move]) -> Option<usize> {
        for number in 0..moves.len() {
            if !self.makes(moves[number]) {
                return Some(number);
            }
        }
        None
    }

    /// Returns true if a move goes as it says.
    fn makes(&mut self, part: Move) -> bool {
        match part {
            Move::Put(addr, bytes) => self.put(addr, bytes),
            Move::Number(addr, number) => self.put(addr, &number.to_le_bytes()),
            Move::Descriptor(number, addr, len, third, fourth) => {
                self.put_entry(0, number, addr, len, (third, fourth))
            }
            Move::Entry(table, number, addr, len, third, fourth) => {
                self.put_entry(table, number, addr, len, (third, fourth))
            }
            Move::SplitTable(table, count, len) => self.put_split_table(table, count, len),
            Move::PackedTable(table, count, len) => self.put_packed_table(table, count, len),
            Move::Linked(count, len) => self.link(count, len),
            Move::Nothing => self.finds_nothing(),
            Move::Fault(number) => self.faults(number),
            Move::Found(number, id, slots) => self.finds(number, id, slots),
            Move::Holds(parts, readable, writable, read) => {
                self.holds(parts, readable, writable, read)
            }
            Move::Read(bytes) => self.read.as_slice() == bytes,
            Move::Scatter(at, bytes) => self.scatters(at, bytes),
            Move::Complete(len, number) => self.completes(len, number),
            Move::Used(count) => self.ring.log().used() == count as u64,
            Move::Has(addr, bytes) => self.has(addr, bytes),
            Move::Notice(wanted) => self.wants_notice(wanted),
        }
    }

    /// Writes bytes, and returns true if they lie in memory.
    fn put(&mut self, addr: u64, bytes: &[u8]) -> bool {
        self.memory.write(addr, bytes).is_ok()
    }

    /// Writes a descriptor of the table at an address.
    fn put_entry(
        &mut self,
        table: u64,
        number: u16,
        addr: u64,
        len: u32,
        last: (u16, u16),
    ) -> bool {
        let mut bytes = [0; 16];
        bytes[..8].copy_from_slice(&addr.to_le_bytes());
        bytes[8..12].copy_from_slice(&len.to_le_bytes());
        bytes[12..14].copy_from_slice(&last.0.to_le_bytes());
        bytes[14..].copy_from_slice(&last.1.to_le_bytes());
        self.put(table.saturating_add(16 * u64::from(number)), &bytes)
    }

    /// Writes descriptors of a split table at 0, each linked to the next.
    fn link(&mut self, count: u16, len: u32) -> bool {
        for number in 0..count {
            if !self.put_entry(0, number, 0, len, (1, number + 1)) {
                return false;
            }
        }
        true
    }

    /// Writes the entries of a table of a split queue, each but the last linked to the next.
    fn put_split_table(&mut self, table: u64, count: u16, len: u32) -> bool {
        for number in 0..count {
            let next = number + 1;
            let last = if next < count { (1, next) } else { (0, 0) };
            if !self.put_entry(table, number, 0, len, last) {
                return false;
            }
        }
        true
    }

    /// Writes the entries of a table of a packed queue.
    fn put_packed_table(&mut self, table: u64, count: u16, len: u32) -> bool {
        for number in 0..count {
            if !self.put_entry(table, number, 0, len, (0, 0)) {
                return false;
            }
        }
        true
    }

    /// Fetches a chain. A queue that doesn't fit finds nothing.
    fn fetch(&mut self) -> Result<Option<Fetched>, RingFault> {
        if !self.ring.fits(&self.memory) {
            return Ok(None);
        }
        self.ring.fetch(&mut self.memory)
    }

    /// Returns true if a fetch finds no chain.
    fn finds_nothing(&mut self) -> bool {
        match self.fetch() {
            Ok(None) => true,
            _ => false,
        }
    }

    /// Returns true if a fetch answers the fault of this number.
    fn faults(&mut self, number: u8) -> bool {
        match self.fetch() {
            Ok(_) => false,
            Err(fault) => fault as u8 == number,
        }
    }

    /// Returns true if a fetch finds a chain of this number, id and slots of queue 2.
    fn finds(&mut self, number: u64, id: u16, slots: u16) -> bool {
        match self.fetch() {
            Ok(Some(Fetched { chain, bytes })) => {
                let found = (chain.ticket().queue, chain.ticket().number);
                let is_wanted = found == (2, number) && chain.id() == id && chain.slots() == slots;
                self.read = bytes;
                self.outstanding.push(chain).is_ok() && is_wanted
            }
            _ => false,
        }
    }

    /// Returns true if the chain found last has so many parts and bytes.
    fn holds(&self, parts: usize, readable: u64, writable: u64, read: usize) -> bool {
        match self.outstanding.last() {
            Some(chain) => {
                chain.parts().len() == parts
                    && chain.readable_len() == readable
                    && chain.writable_len() == writable
                    && self.read.len() == read
            }
            None => false,
        }
    }

    /// Writes bytes into the chain found last.
    fn scatters(&mut self, at: u32, bytes: &[u8]) -> bool {
        match self.outstanding.last() {
            Some(chain) => scatters_into(&mut self.memory, chain, at, bytes),
            None => false,
        }
    }

    /// Completes the outstanding chain that was found last. Returns true if it is owned and has this number.
    fn completes(&mut self, len: u32, number: u64) -> bool {
        let Some(chain) = self.outstanding.pop() else {
            return false;
        };
        if !self.ring.fits(&self.memory) || !self.ring.owns(&chain) {
            return false;
        }
        let ticket = self.ring.complete(&mut self.memory, chain, len).ticket();
        (ticket.queue, ticket.number) == (2, number)
    }

    /// Returns true if memory has these bytes there.
    fn has(&self, addr: u64, bytes: &[u8]) -> bool {
        match self.memory.slice(addr, bytes.len()) {
            Ok(here) => here == bytes,
            Err(_) => false,
        }
    }

    /// Returns true if the driver's wish is this.
    fn wants_notice(&mut self, wanted: bool) -> bool {
        self.ring.fits(&self.memory) && self.ring.wants_notice(&mut self.memory) == wanted
    }
}
