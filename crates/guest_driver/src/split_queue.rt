//! The driver's side of a split virtqueue (VIRTIO 1.2, 2.7).

ghost use Rattle.std.specs.Prelude.{◌≡◌, [], IsTrue, ◌↔◌};

use crate::areas::layout_of;
use crate::guest::{descriptor, put, u16_at, u32_at};
use crate::memory::GuestMemory;
use crate::requests::{Chain, Used};
use crate::rings::Rings;
use script_syntax::{LineFault, Stop};
use std::alloc::{AllocError, Global};
use std::collections::BTreeSet;
use std::num::NonZeroU16;

/// VIRTQ_DESC_F_NEXT: the chain goes on at `next`.
const NEXT: u16 = 1;

/// VIRTQ_DESC_F_WRITE: the device writes the buffer.
const WRITE: u16 = 2;

/// VIRTQ_DESC_F_INDIRECT: the buffer is a table of descriptors.
const INDIRECT: u16 = 4;

/// A split queue, as its driver keeps it. A chain takes a pair of descriptors, an even one and the
/// next, also where it needs one alone.
#[derive(Drop)]
pub struct SplitQueue {
    queue: u16,
    size: NonZeroU16,
    /// The heads of the free pairs.
    free: BTreeSet<u16>,
    /// The key of the open chain at each head.
    open: Vec<Option<usize>>,
    /// The index of the available ring.
    available: u16,
    /// Up to which index the used ring was read.
    seen: u16,
}

impl SplitQueue {
    /// Makes a queue with no chain.
    pub fn new(alloc: Global, queue: u16, rings: Rings) -> Result<SplitQueue, AllocError> {
        let size = rings.size;
        let mut free = BTreeSet::new(alloc);
        for pair in 0..size.get() / 2 {
            free.insert(2 * pair)?;
        }
        Ok(SplitQueue {
            queue,
            size,
            free,
            open: vec![in alloc; None; size.get() as usize]?,
            available: rings.available.index,
            seen: rings.used.index,
        })
    }

    /// Writes both indices, in a memory of zeros.
    pub fn begin<M: GuestMemory>(&self, memory: &mut M) -> Result<(), LineFault> {
        let layout = layout_of(self.queue, self.size.get());
        put(memory, layout.driver + 2, &self.available.to_le_bytes())?;
        put(memory, layout.device + 2, &self.seen.to_le_bytes())
    }

    /// Returns true if no pair is free.
    pub fn is_full(&self) -> bool
        ensures { IsTrue result ↔ (self.now.free.keys ≡ []) }
    {
        self.free.is_empty()
    }

    /// Makes a chain available, under a key. The index is written last.
    pub fn offer<M: GuestMemory>(
        &mut self,
        memory: &mut M,
        chain: Chain,
        key: usize,
    ) -> Result<(), Stop> {
        let Some(head) = self.free.pop_first() else {
            return Err(Stop::Fault(LineFault::QueueFull));
        };
        let Some(entry) = self.open.get_mut(head as usize) else {
            return Err(Stop::Fault(LineFault::QueueFull));
        };
        *entry = Some(key);
        let layout = layout_of(self.queue, self.size.get());
        let first = match chain {
            Chain::EventBuffer(writable) => descriptor(writable, WRITE, 0),
            Chain::Direct(buffers) => {
                let at = layout.desc + 16 * u64::from(head | 1);
                put(memory, at, &descriptor(buffers.writable, WRITE, 0))?;
                descriptor(buffers.readable, NEXT, head | 1)
            }
            Chain::Indirect(table, buffers) => {
                let first = descriptor(buffers.readable, NEXT, 1);
                let last = descriptor(buffers.writable, WRITE, 0);
                table.put(memory, &first, &last)?;
                descriptor(table.buffer(), INDIRECT, 0)
            }
        };
        put(memory, layout.desc + 16 * u64::from(head), &first)?;
        let slot = self.available % self.size.get();
        let at = layout.driver + 4 + 2 * u64::from(slot);
        put(memory, at, &head.to_le_bytes())?;
        self.available = self.available.wrapping_add(1);
        put(memory, layout.driver + 2, &self.available.to_le_bytes())?;
        Ok(())
    }

    /// Reads the used ring up to its index, and adds what was used. An id that isn't open is
    /// skipped. Where the index is more than a ring ahead, the entries are those of one round: a
    /// further round would read the same ids, which are no longer open.
    pub fn look<M: GuestMemory>(
        &mut self,
        memory: &M,
        used: &mut Vec<Used>,
    ) -> Result<(), AllocError> {
        let layout = layout_of(self.queue, self.size.get());
        let index = u16_at(memory, layout.device + 2);
        let entries = index.wrapping_sub(self.seen).min(self.size.get());
        for entry in 0..entries {
            let slot = self.seen.wrapping_add(entry) % self.size.get();
            let at = layout.device + 4 + 8 * u64::from(slot);
            let len = u32_at(memory, at + 4);
            if let Some(key) = self.close(u32_at(memory, at))? {
                used.push(Used { key, len })?;
            }
        }
        self.seen = index;
        Ok(())
    }

    /// Frees the pair of an open chain, and gives its key.
    fn close(&mut self, id: u32) -> Result<Option<usize>, AllocError> {
        let Ok(head) = u16::try_from(id) else {
            return Ok(None);
        };
        let Some(entry) = self.open.get_mut(head as usize) else {
            return Ok(None);
        };
        let key = entry.take();
        if key.is_some() {
            self.free.insert(head)?;
        }
        Ok(key)
    }
}
