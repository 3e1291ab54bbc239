//! Requests and functions on their way to the device.

ghost use Rattle.std.specs.Prelude.{◌≡◌, ◌≤◌, ◌<◌, ◌+◌, ◌^◌, ℕ, IsOk, IfOk, OnOk, IfErr, OnErr, ◌↔◌};
ghost use Rattle.guest_mem.specs.Memory.{LiesIn};
ghost use Rattle.guest_driver.specs.Inner.Requests.{IsFunction, IsHead, IsNextPlace};

use crate::guest::{Buffer, put};
use crate::memory::GuestMemory;
use script_syntax::{LineFault, Send, TaskManagement};
use scsi_codec::REQUEST_BYTES;
use std::alloc::{AllocError, Global};
use std::marker::Model;

/// Makes the bytes of a request before its data out (VIRTIO 1.2, 5.6.6.1): the unit's address, the id, the attribute,
/// two bytes that the device ignores, and the command block.
pub fn request_head(alloc: Global, send: &Send<'_>) -> Result<Vec<u8>, AllocError>
    ensures { IfOk result (λ head. IsHead head.items send.now) }
{
    let mut head = Vec::with_capacity(alloc, REQUEST_BYTES)?;
    head.extend_from_slice(&send.lun)?;
    head.extend_from_slice(&send.id.to_le_bytes())?;
    head.extend_from_slice(&[send.attribute, 0, 0])?;
    head.extend_from_slice(&send.cdb)?;
    Ok(head)
}

/// The bytes of a task management function (VIRTIO 1.2, 5.6.6.2).
pub const FUNCTION_BYTES: usize = 24;

/// Makes the bytes of a task management function (VIRTIO 1.2, 5.6.6.2): the type 0, the subtype, the unit's address and
/// the id.
pub fn function_request(function: &TaskManagement<'_>) -> [u8; FUNCTION_BYTES]
    ensures { IsFunction result function.now }
{
    let mut bytes = [0; FUNCTION_BYTES];
    bytes[4..8].copy_from_slice(&function.subtype.to_le_bytes());
    bytes[8..16].copy_from_slice(&function.lun);
    bytes[16..].copy_from_slice(&function.id.to_le_bytes());
    bytes
}

/// The buffers of a request or of a function.
#[derive(Clone, Copy)]
pub struct Buffers {
    /// The buffer that the device reads.
    pub readable: Buffer,
    /// The buffer that the device writes.
    pub writable: Buffer,
}

/// A chain that goes to the device, by the descriptors that it takes in the ring.
#[derive(Clone, Copy)]
pub enum Chain {
    /// One descriptor: a buffer that the device writes.
    EventBuffer(Buffer),
    /// Two descriptors, one of each buffer.
    Direct(Buffers),
    /// One descriptor, which names a table of two.
    Indirect(Table, Buffers),
}

/// The bytes of a descriptor.
const DESCRIPTOR_BYTES: u64 = 16;

/// Where a table of two descriptors is in guest memory.
#[derive(Clone, Copy)]
pub struct Table {
    at: u64,
}

impl Table {
    /// The bytes of the table.
    pub const BYTES: u32 = 32;

    /// Returns the table at an address.
    pub fn at(at: u64) -> Table {
        Table { at }
    }

    /// Returns the buffer that a descriptor in the ring names.
    pub fn buffer(self) -> Buffer
        ensures { result ≡ record { at = self.at; len = 32 } }
    {
        Buffer {
            at: self.at,
            len: Table::BYTES,
        }
    }

    /// Writes both descriptors of the table.
    pub fn put<M: GuestMemory>(
        self,
        memory: &mut M,
        first: &[u8; 16],
        second: &[u8; 16],
    ) -> Result<(), LineFault> {
        put(memory, self.at, first)?;
        put(memory, self.at.saturating_add(DESCRIPTOR_BYTES), second)
    }
}

/// A chain that was used, as its queue says.
#[derive(Clone, Copy)]
pub struct Used {
    /// The key under which it was made available.
    pub key: usize,
    /// The number of bytes that the device says it wrote.
    pub len: u32,
}

/// The address of the next buffer. None is used again.
#[derive(Clone, Copy)]
pub struct Space {
    next: u64,
}

impl Model for Space {
    ghost Value = { ℕ };

    ghost view = { λ space. space.next };

    ghost inverse = { λ next. record { next = next } };
}

impl Space {
    /// The address of the first buffer.
    pub const START: Space = Space { next: 1 << 20 };

    /// Places a buffer, each at a multiple of 16, in a memory of that size. `NoGuestMemory`, with
    /// nothing changed, exactly where it doesn't fit there or into a descriptor's length.
    pub fn place(&mut self, len: u64, memory: u64) -> Result<Buffer, LineFault>
        requires { memory ≤ 2 ^ 44 }
        ensures inside { IsOk result ↔ (LiesIn memory self.old len × (len < 2 ^ 32)) }
        ensures placed { IfOk result (λ buffer. buffer ≡ record { at = self.old; len = len }) }
        ensures next { OnOk result (IsNextPlace (self.old + len) self.new) }
        ensures fault { IfErr result (λ fault. fault ≡ LineFault.NoGuestMemory) }
        ensures unchanged { OnErr result (self.new ≡ self.old) }
    {
        let at = self.next;
        if at > memory || len > memory - at {
            return Err(LineFault::NoGuestMemory);
        }
        let Ok(size) = u32::try_from(len) else {
            return Err(LineFault::NoGuestMemory);
        };
        self.next = (at + len).div_ceil(16).saturating_mul(16);
        Ok(Buffer { at, len: size })
    }
}
