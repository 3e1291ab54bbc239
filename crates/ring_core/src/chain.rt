//! The chain that a queue hands out.

mod narrow;

use crate::descriptor::Part;
use crate::log::Ticket;
use smallvec::SmallVec;
use std::alloc::{AllocError, Global};
use std::marker::Model;
use std::mem;

/// The parts that a chain has room for without a further allocation.
const FEW_PARTS: usize = 8;

/// The most parts for which a chain that is over leaves room to the next.
const MOST_PARTS: usize = 128;

/// The largest room for bytes that a chain keeps while it is outstanding: a request of 51 bytes with 4,096 bytes of data,
/// rounded up.
const FEW_BYTES: usize = 4_160;

/// The largest room for bytes that a queue keeps: a request of 51 bytes with 128 KiB of data, rounded up.
const MOST_BYTES: usize = 131_136;

/// A chain where it stands in memory. A chain that moves is a pointer to it.
#[derive(Drop)]
pub(crate) struct Body {
    ticket: Ticket,
    id: u16,
    slots: u16,
    memory: u64,
    readable_len: u64,
    writable_len: u64,
    parts: SmallVec<Part, FEW_PARTS>,
    // Room for the first bytes of the next chain that stands here, while they are nobody's.
    room: Vec<u8>,
}

/// The room of a chain, with the parts that were found of it, seen as the list of them. For rings.
#[derive(Drop)]
pub struct Draft {
    body: Box<Body>,
}

impl Model for Draft {
    ghost use Rattle.std.specs.Prelude.{◌≡◌, ◌%◌, ◌^◌, List};
    ghost use Rattle.ring_core.specs.declared.descriptor.Part.{Part};
    ghost use Rattle.ring_core.specs.Parts.{readable_total, writable_total};

    ghost Value = { List Part };

    ghost view = { λ d. d.body.value.parts.items };

    ghost invariant = { λ d.
        (d.body.value.readable_len ≡ readable_total d.body.value.parts.items % 2 ^ 64)
        × (d.body.value.writable_len ≡ writable_total d.body.value.parts.items % 2 ^ 64) };
}

/// The room of a chain that is over, without parts: the next one takes it in place of memory.
#[derive(Drop)]
pub(crate) struct Spare {
    draft: Draft,
}

impl Model for Spare {
    ghost use Rattle.std.specs.Prelude.{◌≡◌, [], List};
    ghost use Rattle.ring_core.specs.declared.descriptor.Part.{Part};

    ghost Value = { List Part };

    ghost view = { λ s. s.draft };

    ghost invariant = { λ s. s.draft ≡ [] };
}

impl Spare {
    ghost use Rattle.std.specs.Prelude.{◌≡◌, []};

    /// Returns it, for the next chain.
    pub(crate) fn into_draft(self) -> Draft
        ensures { result ≡ [] }
    {
        let Spare { draft } = self;
        draft
    }
}

/// A chain that was fetched and not completed. It is moved, never copied.
#[derive(Drop)]
pub struct Chain {
    body: Box<Body>,
}

impl Model for Chain {
    ghost use Rattle.std.specs.Prelude.{◌≡◌};
    ghost use Rattle.ring_core.specs.State.{PlainChain};

    ghost Value = { PlainChain };

    ghost use Rattle.ring_core.specs.Parts.{readable_total, writable_total, PartsFit};

    ghost view = { λ c. record {
      ticket = c.body.value.ticket;
      id = c.body.value.id;
      slots = c.body.value.slots;
      parts = c.body.value.parts.items;
      memory = c.body.value.memory;
    } };

    ghost invariant = { λ c.
        (c.body.value.readable_len ≡ readable_total c.body.value.parts.items)
        × (c.body.value.writable_len ≡ writable_total c.body.value.parts.items)
        × PartsFit c.body.value.memory c.body.value.parts.items };
}

ghost use Rattle.std.specs.Prelude.{◌≡◌, ◌≤◌, ◌%◌, ◌^◌, ◌∷◌, ◌++◌, [], IfOk, OnOk, OnErr};
ghost use Rattle.ring_core.specs.Parts.{readable_total, writable_total, PartsFit};

impl Draft {
    /// Makes one with no parts yet. It takes the chain's memory: as long as the parts are few, nothing more is taken.
    pub fn new(alloc: Global) -> Result<Draft, AllocError>
        ensures { IfOk result (λ draft. draft ≡ []) }
    {
        let body = Body {
            ticket: Ticket {
                queue: 0,
                number: 0,
            },
            id: 0,
            slots: 0,
            memory: 0,
            readable_len: 0,
            writable_len: 0,
            parts: SmallVec::new(alloc),
            room: Vec::new(alloc),
        };
        match Box::new(alloc, body) {
            Ok(body) => Ok(Draft { body }),
            Err(_) => Err(AllocError),
        }
    }

    /// Adds one part.
    #[inline(always)]
    pub fn push(&mut self, part: Part) -> Result<(), AllocError>
        ensures ok { OnOk result (self.new ≡ self.old ++ part ∷ []) }
        ensures err { OnErr result (self.new ≡ self.old) }
    {
        if self.body.parts.push(part).is_err() {
            return Err(AllocError);
        }
        let len = part.len as u64;
        if part.writable {
            self.body.writable_len = self.body.writable_len.wrapping_add(len);
            return Ok(());
        }
        self.body.readable_len = self.body.readable_len.wrapping_add(len);
        Ok(())
    }

    /// Takes the room for the first bytes, with whatever stands there.
    pub(crate) fn take_room(&mut self) -> Vec<u8>
        ensures { self.new ≡ self.old }
    {
        let none = Vec::new(*self.body.room.allocator());
        mem::replace(&mut self.body.room, none)
    }

    /// Swaps its room with a larger one, where its bytes may need that.
    #[inline(always)]
    pub(crate) fn borrow_room(&mut self, large: &mut Vec<u8>)
        ensures { self.new ≡ self.old }
    {
        if self.body.readable_len > FEW_BYTES as u64 {
            mem::swap(&mut self.body.room, large);
        }
    }

    /// Returns how many of its bytes can be read, modulo 2^64.
    pub(crate) fn readable_len(&self) -> u64
        ensures { result ≡ readable_total self.now % 2 ^ 64 }
    {
        self.body.readable_len
    }

    /// Returns the parts, in order.
    pub fn parts(&self) -> &[Part]
        ensures { result.now ≡ self.now }
    {
        self.body.parts.as_slice()
    }
}

impl Chain {
    /// Makes a chain that was found.
    pub(crate) fn of(ticket: Ticket, id: u16, slots: u16, draft: Draft, memory: u64) -> Chain
        requires { PartsFit memory draft }
        ensures { result ≡ record { ticket = ticket; id = id; slots = slots; parts = draft; memory = memory } }
    {
        let Draft { mut body } = draft;
        body.ticket = ticket;
        body.id = id;
        body.slots = slots;
        body.memory = memory;
        Chain { body }
    }

    /// Keeps these bytes' room for a later chain of its queue, where it isn't much. A phase that has read a chain's
    /// first bytes, and needs them no more, gives them back so.
    #[inline(always)]
    pub fn keep_room(&mut self, bytes: Vec<u8>)
        ensures { self.new ≡ self.old }
    {
        if bytes.capacity() <= FEW_BYTES {
            self.body.room = bytes;
        }
    }

    /// Leaves these bytes' room to a later chain of its queue, also where it is large. A caller that needs the chain's first
    /// bytes no more calls it right before it completes the chain, since many chains may be outstanding.
    #[inline(always)]
    pub fn return_room(&mut self, bytes: Vec<u8>)
        ensures { self.new ≡ self.old }
    {
        if bytes.capacity() <= MOST_BYTES {
            self.body.room = bytes;
        }
    }

    /// Swaps its room with the one that its queue keeps, where its own is large, and larger than that.
    #[inline(always)]
    pub(crate) fn leave_room(&mut self, large: &mut Vec<u8>)
        ensures { self.new ≡ self.old }
    {
        if self.body.room.capacity() > FEW_BYTES.max(large.capacity()) {
            mem::swap(&mut self.body.room, large);
        }
    }

    /// Returns its room, for a later chain; `None` where its parts took very much. A large room for bytes is given back.
    pub(crate) fn into_spare(self) -> Option<Spare> {
        if self.body.parts.capacity() > MOST_PARTS {
            return None;
        }
        let Chain { mut body } = self;
        if body.room.capacity() > FEW_BYTES {
            body.room = Vec::new(*body.room.allocator());
        }
        body.parts.clear();
        body.readable_len = 0;
        body.writable_len = 0;
        Some(Spare {
            draft: Draft { body },
        })
    }

    /// Returns its ticket.
    pub fn ticket(&self) -> Ticket
        ensures { result ≡ self.now.ticket }
    {
        self.body.ticket
    }

    /// Returns how many of its bytes the device can read, at most 2^32.
    pub fn readable_len(&self) -> u64
        ensures len { result ≡ readable_total self.now.parts }
        ensures bounded { result ≤ 2 ^ 32 }
    {
        self.body.readable_len
    }

    /// Returns how many of its bytes the device can write, at most 2^32.
    pub fn writable_len(&self) -> u64
        ensures len { result ≡ writable_total self.now.parts }
        ensures bounded { result ≤ 2 ^ 32 }
    {
        self.body.writable_len
    }

    /// Returns the size in bytes of the memory that it was fetched from.
    pub fn memory(&self) -> u64
        ensures { result ≡ self.now.memory }
    {
        self.body.memory
    }

    /// Returns its head in a split queue, its id in a packed one.
    pub fn id(&self) -> u16
        ensures { result ≡ self.now.id }
    {
        self.body.id
    }

    /// Returns how many slots of the ring it takes: 1 in a split queue.
    pub fn slots(&self) -> u16
        ensures { result ≡ self.now.slots }
    {
        self.body.slots
    }

    /// Returns its parts, in order.
    pub fn parts(&self) -> &[Part]
        ensures parts { result.now ≡ self.now.parts }
        ensures fit { PartsFit self.now.memory self.now.parts }
    {
        self.body.parts.as_slice()
    }
}

/// A chain with its first readable bytes, read when it was fetched.
#[derive(Drop)]
pub struct Fetched {
    /// The chain, to be completed.
    pub chain: Chain,
    /// Its first 1,048,627 readable bytes, or all where there are fewer.
    pub bytes: Vec<u8>,
}
