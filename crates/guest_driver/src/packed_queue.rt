//! The driver's side of a packed virtqueue (VIRTIO 1.2, 2.8).

ghost use Rattle.std.specs.Prelude.{◌≡◌, ◌<◌, ◌+◌, ℕ, Bool, true, false, IsTrue, ◌↔◌, not};
ghost use Rattle.ring_core.specs.Packed.{used_flags};
ghost use Rattle.guest_driver.specs.Inner.Places.{HasPassed, avail_flag, used_flag};

use crate::areas::layout_of;
use crate::guest::{descriptor, put, u16_at, u32_at};
use crate::memory::GuestMemory;
use crate::requests::{Chain, Used};
use crate::rings::Rings;
use ring_core::RingIndex;
use script_syntax::{LineFault, Stop};
use std::alloc::{AllocError, Global};
use std::collections::BTreeSet;
use std::num::NonZeroU16;

/// VIRTQ_DESC_F_NEXT: the chain goes on in the next slot.
const NEXT: u16 = 1;

/// VIRTQ_DESC_F_WRITE: the device writes the buffer.
const WRITE: u16 = 2;

/// VIRTQ_DESC_F_INDIRECT: the buffer is a table of descriptors.
const INDIRECT: u16 = 4;

/// VIRTQ_DESC_F_AVAIL.
const AVAILABLE: u16 = 1 << 7;

/// VIRTQ_DESC_F_USED.
const USED: u16 = 1 << 15;

/// The most slots that a chain takes.
const CHAIN_SLOTS: u16 = 2;

/// An open chain: its key, and how many slots it takes.
#[derive(Clone, Copy)]
struct OpenChain {
    key: usize,
    slots: u16,
}

/// A position in the ring, with the wrap counter there.
#[derive(Clone, Copy)]
struct Position {
    slot: u16,
    wrap: bool,
}

impl From<RingIndex> for Position {
    fn from(index: RingIndex) -> Position {
        Position {
            slot: index.index,
            wrap: index.wrap,
        }
    }
}

impl Position {
    /// Returns the next position in a ring of that size.
    fn next(self, size: NonZeroU16) -> Position
        ensures { (slots : ℕ) → HasPassed size.value slots self → HasPassed size.value (slots + 1) result }
    {
        if self.slot < size.get() - 1 {
            Position {
                slot: self.slot + 1,
                wrap: self.wrap,
            }
        } else {
            Position {
                slot: 0,
                wrap: !self.wrap,
            }
        }
    }

    /// Returns the two flags of a descriptor that is available here.
    fn available(self) -> u16
        ensures avail { avail_flag result ≡ self.wrap }
        ensures used { used_flag result ≡ not self.wrap }
    {
        if self.wrap { AVAILABLE } else { USED }
    }

    /// Returns true if flags are those of a descriptor that is used here: the device wrote them under this wrap
    /// counter.
    fn is_used(self, flags: u16) -> bool
        ensures { (wrap : Bool) (len : ℕ) → flags ≡ used_flags wrap len → (IsTrue result ↔ (wrap ≡ self.wrap)) }
    {
        let both = AVAILABLE | USED;
        flags & both == if self.wrap { both } else { 0 }
    }
}

/// A packed queue, as its driver keeps it. A chain takes a slot for each of its descriptors in the ring.
#[derive(Drop)]
pub struct PackedQueue {
    queue: u16,
    size: NonZeroU16,
    /// The ids of no open chain.
    free_ids: BTreeSet<u16>,
    /// The number of slots that no open chain takes.
    free_slots: u16,
    /// The open chain of each id.
    open: Vec<Option<OpenChain>>,
    /// The position of the next chain.
    next: Position,
    /// The position of the next used descriptor.
    seen: Position,
}

impl PackedQueue {
    /// Makes a queue with no chain.
    pub fn new(alloc: Global, queue: u16, rings: Rings) -> Result<PackedQueue, AllocError> {
        let size = rings.size;
        let mut free_ids = BTreeSet::new(alloc);
        for id in 0..size.get() {
            free_ids.insert(id)?;
        }
        Ok(PackedQueue {
            queue,
            size,
            free_ids,
            free_slots: size.get(),
            open: vec![in alloc; None; size.get() as usize]?,
            next: Position::from(rings.available),
            seen: Position::from(rings.used),
        })
    }

    /// Writes the flags of the slots that were used while the wrap counter was 1, in a memory of zeros: those before the
    /// position of the next used descriptor, or, where the wrap counter is 0 there, those from it on.
    pub fn begin<M: GuestMemory>(&self, memory: &mut M) -> Result<(), LineFault> {
        let layout = layout_of(self.queue, self.size.get());
        for slot in 0..self.size.get() {
            if (slot < self.seen.slot) == self.seen.wrap {
                let at = layout.desc + 16 * u64::from(slot);
                put(memory, at + 14, &(AVAILABLE | USED).to_le_bytes())?;
            }
        }
        Ok(())
    }

    /// Returns true if fewer slots are free than a chain takes that has two descriptors in the ring, or has one alone.
    pub fn is_full(&self, alone: bool) -> bool
        ensures two { alone ≡ false → (IsTrue result ↔ (self.now.free_slots < 2)) }
        ensures one { alone ≡ true → (IsTrue result ↔ (self.now.free_slots < 1)) }
    {
        self.free_slots < if alone { 1 } else { CHAIN_SLOTS }
    }

    /// Makes a chain available, under a key. The flags of the first descriptor are written last.
    pub fn offer<M: GuestMemory>(
        &mut self,
        memory: &mut M,
        chain: Chain,
        key: usize,
    ) -> Result<(), Stop> {
        let slots = match chain {
            Chain::Direct(_) => CHAIN_SLOTS,
            Chain::EventBuffer(_) | Chain::Indirect(..) => 1,
        };
        let Some(free_slots) = self.free_slots.checked_sub(slots) else {
            return Err(Stop::Fault(LineFault::QueueFull));
        };
        let Some(id) = self.free_ids.pop_first() else {
            return Err(Stop::Fault(LineFault::QueueFull));
        };
        let Some(entry) = self.open.get_mut(id as usize) else {
            return Err(Stop::Fault(LineFault::QueueFull));
        };
        *entry = Some(OpenChain { key, slots });
        let layout = layout_of(self.queue, self.size.get());
        let first = self.next;
        let at = layout.desc + 16 * u64::from(first.slot);
        let (buffer, flags, last) = match chain {
            Chain::EventBuffer(writable) => (writable, WRITE, first),
            Chain::Direct(buffers) => {
                let second = first.next(self.size);
                let flags = WRITE | second.available();
                let at = layout.desc + 16 * u64::from(second.slot);
                put(memory, at, &descriptor(buffers.writable, id, flags))?;
                (buffers.readable, NEXT, second)
            }
            Chain::Indirect(table, buffers) => {
                let readable = descriptor(buffers.readable, 0, 0);
                let writable = descriptor(buffers.writable, 0, WRITE);
                table.put(memory, &readable, &writable)?;
                (table.buffer(), INDIRECT, first)
            }
        };
        let flags = flags | first.available();
        put(memory, at, &descriptor(buffer, id, 0)[..14])?;
        put(memory, at + 14, &flags.to_le_bytes())?;
        self.next = last.next(self.size);
        self.free_slots = free_slots;
        Ok(())
    }

    /// Reads the ring from its own position on while descriptors are used, and adds what they say.
    /// It stops at an id that isn't open.
    pub fn look<M: GuestMemory>(
        &mut self,
        memory: &M,
        used: &mut Vec<Used>,
    ) -> Result<(), AllocError> {
        let layout = layout_of(self.queue, self.size.get());
        for _ in 0..self.size.get() {
            let at = layout.desc + 16 * u64::from(self.seen.slot);
            if !self.seen.is_used(u16_at(memory, at + 14)) {
                return Ok(());
            }
            let Some(OpenChain { key, slots }) = self.close(u16_at(memory, at + 12))? else {
                return Ok(());
            };
            let len = u32_at(memory, at + 8);
            used.push(Used { key, len })?;
            for _ in 0..slots {
                self.seen = self.seen.next(self.size);
            }
        }
        Ok(())
    }

    /// Frees the id and the slots of an open chain, and gives the chain.
    fn close(&mut self, id: u16) -> Result<Option<OpenChain>, AllocError> {
        let Some(entry) = self.open.get_mut(id as usize) else {
            return Ok(None);
        };
        let chain = entry.take();
        if let Some(OpenChain { key: _, slots }) = chain {
            self.free_ids.insert(id)?;
            self.free_slots = self.free_slots.saturating_add(slots);
        }
        Ok(chain)
    }
}
