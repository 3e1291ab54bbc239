//! The guest's driver: it sends requests and functions, and finds what was used by reading guest memory alone.

ghost use Rattle.std.specs.Prelude.{◌≤◌, ◌^◌};

use crate::guest::{put, put_bytes};
use crate::memory::GuestMemory;
use crate::packed_queue::PackedQueue;
use crate::requests::{
    Buffers, Chain, FUNCTION_BYTES, Space, Table, Used, function_request, request_head,
};
use crate::rings::Rings;
use crate::split_queue::SplitQueue;
use ring_core::Form;
use script_syntax::{Features, LineFault, Send, Stop, TaskManagement};
use scsi_codec::{CONTROL_QUEUE, EVENT_BYTES, EVENT_QUEUE, REQUEST_BYTES, RESPONSE_BYTES};
use slab::Slab;
use std::alloc::{AllocError, Global};
use std::collections::BTreeMap;

/// The bytes of the response to a task management function (VIRTIO 1.2, 5.6.6.2).
const FUNCTION_RESPONSE_BYTES: u64 = 1;

/// A queue of either form.
#[derive(Drop)]
enum Ring {
    Split(SplitQueue),
    Packed(PackedQueue),
}

impl Ring {
    /// Makes a queue with no chain.
    fn new(alloc: Global, queue: u16, rings: Rings) -> Result<Ring, AllocError> {
        Ok(match rings.form {
            Form::Split => Ring::Split(SplitQueue::new(alloc, queue, rings)?),
            Form::Packed => Ring::Packed(PackedQueue::new(alloc, queue, rings)?),
        })
    }

    /// Writes what stands in the queue's areas where its rings begin, in a memory of zeros.
    fn begin<M: GuestMemory>(&self, memory: &mut M) -> Result<(), LineFault> {
        match self {
            Ring::Split(ring) => ring.begin(memory),
            Ring::Packed(ring) => ring.begin(memory),
        }
    }

    /// Returns true if there is no room for a chain of two descriptors, or of one alone.
    fn is_full(&self, alone: bool) -> bool {
        match self {
            Ring::Split(ring) => ring.is_full(),
            Ring::Packed(ring) => ring.is_full(alone),
        }
    }

    /// Makes a chain available.
    fn offer<M: GuestMemory>(
        &mut self,
        memory: &mut M,
        chain: Chain,
        key: usize,
    ) -> Result<(), Stop> {
        match self {
            Ring::Split(ring) => ring.offer(memory, chain, key),
            Ring::Packed(ring) => ring.offer(memory, chain, key),
        }
    }

    /// Adds what was used since the last look.
    fn look<M: GuestMemory>(&mut self, memory: &M, used: &mut Vec<Used>) -> Result<(), AllocError> {
        match self {
            Ring::Split(ring) => ring.look(memory, used),
            Ring::Packed(ring) => ring.look(memory, used),
        }
    }
}

/// A queue, with the names of its requests or functions in the order in which they were made available, and of those
/// that were used, in order.
#[derive(Drop)]
struct Queue {
    ring: Ring,
    offered: Vec<String>,
    used: Vec<String>,
}

/// A chain that is open.
#[derive(Drop)]
enum Open {
    /// The request or function of this name.
    Named(String),
    /// An event buffer at this address.
    EventBuffer(u64),
}

/// The chain of a request or a function, as it was placed in memory.
#[derive(Clone, Copy)]
struct Placed {
    /// Where its table is, if it has one.
    table: Option<Table>,
    buffers: Buffers,
}

impl Placed {
    /// Returns the chain.
    fn chain(self) -> Chain {
        match self.table {
            Some(table) => Chain::Indirect(table, self.buffers),
            None => Chain::Direct(self.buffers),
        }
    }
}

/// The kinds of chains that a driver sends.
#[derive(Clone, Copy)]
pub enum Asks {
    /// A command, by a request.
    Command,
    /// A task management function.
    Function,
}

/// A request or a function that was sent, as far as the driver knows.
#[derive(Clone, Copy)]
pub struct Sent {
    /// The kind: a request or a function.
    pub asks: Asks,
    /// The queue that it went to.
    pub queue: u16,
    /// The address of its response.
    pub response: u64,
    /// The number of bytes that the device says it wrote, once the request was used.
    pub used: Option<u32>,
}

/// The driver.
#[derive(Drop)]
pub struct Driver {
    alloc: Global,
    /// The features that it agreed to.
    features: Features,
    queues: Vec<Queue>,
    space: Space,
    /// The chains that are open.
    open: Slab<Open>,
    /// The requests and functions that were sent, by name.
    sent: BTreeMap<String, Sent>,
    /// The addresses of the event buffers that were used, in order.
    events: Vec<u64>,
}

impl Driver {
    /// Returns a driver of so many queues with these rings, which sent nothing. Beside it stands a device whose queues
    /// have these rings and lie where `layout_of` says, and for which these features were agreed. It fails where memory
    /// runs out.
    pub fn new(
        alloc: Global,
        features: Features,
        count: u16,
        rings: Rings,
    ) -> Result<Driver, AllocError> {
        let mut queues = Vec::new(alloc);
        for queue in 0..count {
            let ring = Ring::new(alloc, queue, rings)?;
            queues.push(Queue {
                ring,
                offered: Vec::new(alloc),
                used: Vec::new(alloc),
            })?;
        }
        Ok(Driver {
            alloc,
            features,
            queues,
            space: Space::START,
            open: Slab::new(alloc),
            sent: BTreeMap::new(alloc),
            events: Vec::new(alloc),
        })
    }

    /// Writes what stands in the areas of all queues where their rings begin, in a memory of zeros: each chain before was
    /// used. `NoGuestMemory` where the memory refuses it. Called once, before anything is sent.
    pub fn begin<M: GuestMemory>(&self, memory: &mut M) -> Result<(), LineFault> {
        for queue in self.queues.iter() {
            queue.ring.begin(memory)?;
        }
        Ok(())
    }

    /// Places a chain that goes to a queue under a name, in a memory of that size, with so many bytes to read, and so
    /// many to write. A table lies before them if indirect descriptors were agreed. The faults are those of `send`.
    fn place(
        &mut self,
        memory: u64,
        queue: u16,
        name: &str,
        readable: u64,
        writable: u64,
    ) -> Result<Placed, Stop>
        requires { memory ≤ 2 ^ 44 }
    {
        let Some(queue) = self.queues.get(queue as usize) else {
            return Err(Stop::Fault(LineFault::BadValue));
        };
        if self.sent.contains_key(name) {
            return Err(Stop::Fault(LineFault::NameTaken));
        }
        if queue.ring.is_full(self.features.indirect) {
            return Err(Stop::Fault(LineFault::QueueFull));
        }
        let table = if self.features.indirect {
            let table = self.space.place(u64::from(Table::BYTES), memory)?;
            Some(Table::at(table.at))
        } else {
            None
        };
        let readable = self.space.place(readable, memory)?;
        let writable = self.space.place(writable, memory)?;
        Ok(Placed {
            table,
            buffers: Buffers { readable, writable },
        })
    }

    /// Makes the chain available, under a name, whose buffers were written.
    fn offer<M: GuestMemory>(
        &mut self,
        memory: &mut M,
        queue: u16,
        name: &str,
        placed: Placed,
        asks: Asks,
    ) -> Result<(), Stop> {
        let Some(chains) = self.queues.get_mut(queue as usize) else {
            return Err(Stop::Fault(LineFault::BadValue));
        };
        let key = self
            .open
            .insert(Open::Named(String::from_str(self.alloc, name)?))?;
        chains.ring.offer(memory, placed.chain(), key)?;
        chains.offered.push(String::from_str(self.alloc, name)?)?;
        let sent = Sent {
            asks,
            queue,
            response: placed.buffers.writable.at,
            used: None,
        };
        self.sent.insert(String::from_str(self.alloc, name)?, sent)?;
        Ok(())
    }

    /// Sends a request: places its buffers, writes it, and makes its chain available. It is refused, in this order:
    ///
    /// - `BadValue` where there is no such queue;
    /// - `NameTaken` where anything of that name was sent;
    /// - `QueueFull` where the queue has no room for a chain;
    /// - `NoGuestMemory` where a buffer doesn't fit.
    ///
    /// `NoMemory` where memory runs out.
    pub fn send<M: GuestMemory>(&mut self, memory: &mut M, send: &Send<'_>) -> Result<(), Stop> {
        let readable = send.out.length().saturating_add(REQUEST_BYTES as u64);
        let writable = u64::from(send.room) + RESPONSE_BYTES as u64;
        let placed = self.place(memory.size(), send.queue, send.name, readable, writable)?;
        let at = placed.buffers.readable.at;
        put(memory, at, request_head(self.alloc, send)?.as_slice())?;
        let data = at.saturating_add(REQUEST_BYTES as u64);
        put_bytes(self.alloc, memory, data, &send.out)?;
        self.offer(memory, send.queue, send.name, placed, Asks::Command)
    }

    /// Sends a task management function on the control queue, as `send` does a request, and with its faults.
    pub fn send_function<M: GuestMemory>(
        &mut self,
        memory: &mut M,
        function: &TaskManagement<'_>,
    ) -> Result<(), Stop> {
        let placed = self.place(
            memory.size(),
            CONTROL_QUEUE,
            function.name,
            FUNCTION_BYTES as u64,
            FUNCTION_RESPONSE_BYTES,
        )?;
        let at = placed.buffers.readable.at;
        put(memory, at, &function_request(function))?;
        self.offer(memory, CONTROL_QUEUE, function.name, placed, Asks::Function)
    }

    /// Makes an event buffer available: one writable buffer of the bytes of an event. `QueueFull` where the event
    /// queue has no room for it, `NoGuestMemory` where it doesn't fit; of both the first. `NoMemory` where memory
    /// runs out.
    pub fn send_event_buffer<M: GuestMemory>(&mut self, memory: &mut M) -> Result<(), Stop> {
        let Some(queue) = self.queues.get_mut(EVENT_QUEUE as usize) else {
            return Err(Stop::Fault(LineFault::BadValue));
        };
        if queue.ring.is_full(true) {
            return Err(Stop::Fault(LineFault::QueueFull));
        }
        let writable = self.space.place(EVENT_BYTES as u64, memory.size())?;
        let key = self.open.insert(Open::EventBuffer(writable.at))?;
        queue.ring.offer(memory, Chain::EventBuffer(writable), key)
    }

    /// Finds what was used since the last look, by reading guest memory alone. Chains that were used are free from here
    /// on. It fails where memory runs out.
    pub fn look<M: GuestMemory>(&mut self, memory: &M) -> Result<(), AllocError> {
        for queue in 0..self.queues.len() {
            self.look_at(memory, queue)?;
        }
        Ok(())
    }

    /// Finds what one queue used since the last look, as `look` does of all. Where there is no such queue it finds
    /// nothing.
    pub fn look_at<M: GuestMemory>(&mut self, memory: &M, queue: usize) -> Result<(), AllocError> {
        let Some(queue) = self.queues.get_mut(queue) else {
            return Ok(());
        };
        let mut used = Vec::new(self.alloc);
        queue.ring.look(memory, &mut used)?;
        for Used { key, len } in used.iter() {
            match self.open.try_remove(*key) {
                Some(Open::Named(name)) => {
                    if let Some(sent) = self.sent.get_mut(name.as_str()) {
                        sent.used = Some(*len);
                    }
                    queue.used.push(name)?;
                }
                Some(Open::EventBuffer(at)) => self.events.push(at)?,
                None => {}
            }
        }
        Ok(())
    }

    /// Returns what is known of a request or a function, as the last look found it; `None` where none of that name was
    /// sent.
    pub fn sent(&self, name: &str) -> Option<Sent> {
        self.sent.get(name).copied()
    }

    /// Returns the name of the request or function whose chain was the one of this number, from 0, that the queue made
    /// available; `None` where there was none.
    pub fn offered(&self, queue: u16, number: u64) -> Option<&str> {
        let queue = self.queues.get(queue as usize)?;
        let name = queue.offered.get(usize::try_from(number).ok()?)?;
        Some(name.as_str())
    }

    /// Returns where the event buffers lie that were used, in order.
    pub fn used_event_buffers(&self) -> &[u64] {
        self.events.as_slice()
    }

    /// Returns the names of a queue's requests or functions that were used, in order; `None` where there is no such
    /// queue.
    pub fn used(&self, queue: u16) -> Option<&[String]> {
        Some(self.queues.get(queue as usize)?.used.as_slice())
    }
}
