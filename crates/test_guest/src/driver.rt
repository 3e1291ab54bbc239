//! The driver's side of a split queue (VIRTIO 1.2, 2.7).

ghost use Rattle.std.specs.Prelude.{◌≡◌};
ghost use Rattle.ring_core.specs.Split.{split_descriptor};

use crate::areas::layout;
use crate::buffers::Buffers;

/// VIRTQ_DESC_F_NEXT: the chain goes on at `next`.
const NEXT: u16 = 1;

/// VIRTQ_DESC_F_WRITE: the device writes the buffer.
const WRITE: u16 = 2;

/// A chain of at most two descriptors: one that the device reads, and one that it writes.
#[derive(Clone, Copy)]
pub struct Chain {
    /// The number of its queue.
    pub queue: u16,
    /// The number among the chains of its queue, from 0 to 3.
    pub number: u8,
    /// What the device reads of it, as far as that isn't zero.
    pub bytes: &'static [u8],
    /// The number of bytes that the device reads. Where it is 0, the chain is the second descriptor alone.
    pub readable: u32,
    /// The number of bytes that the device may write.
    pub writable: u32,
}

/// Access to guest memory, as the guest has it. Nothing is promised of it.
pub trait Pokes {
    /// Writes bytes at an address. Returns false where one of them would lie outside memory.
    fn poke(&mut self, addr: u64, bytes: &[u8]) -> bool;
}

/// Returns the bytes of a descriptor (VIRTIO 1.2, 2.7.5).
fn descriptor(addr: u64, len: u32, flags: u16, next: u16) -> [u8; 16]
    ensures { split_descriptor result ≡ record { addr = addr; len = len; flags = flags; next_or_id = next } }
{
    let mut bytes = [0; 16];
    bytes[..8].copy_from_slice(&addr.to_le_bytes());
    bytes[8..12].copy_from_slice(&len.to_le_bytes());
    bytes[12..14].copy_from_slice(&flags.to_le_bytes());
    bytes[14..].copy_from_slice(&next.to_le_bytes());
    bytes
}

/// Makes a chain available. It takes the pair of descriptors of its number, and the entry of that number in the
/// available ring; the ring's index is written last. So a queue's chains are sent in the order of their numbers. Returns
/// false where a write fails; those behind it aren't tried.
pub fn send<P: Pokes>(guest: &mut P, buffers: Buffers, chain: Chain) -> bool {
    let areas = layout(chain.queue);
    let readable = buffers.readable_at(chain.queue, chain.number);
    let writable = buffers.writable_at(chain.queue, chain.number);
    let number = u16::from(chain.number);
    let first = 2 * number;
    let second = first + 1;
    let head = if chain.readable == 0 { second } else { first };
    let at = areas.desc + 16 * u64::from(first);
    guest.poke(readable, chain.bytes)
        && guest.poke(at, &descriptor(readable, chain.readable, NEXT, second))
        && guest.poke(
            at + 16,
            &descriptor(writable, chain.writable, WRITE, second),
        )
        && guest.poke(
            areas.driver + 4 + 2 * u64::from(number),
            &head.to_le_bytes(),
        )
        && guest.poke(areas.driver + 2, &(number + 1).to_le_bytes())
}
