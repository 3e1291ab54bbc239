//! A virtqueue of either form.

use guest_mem::{Memory, WritableMemory};
use packed_ring::PackedRing;
use ring_core::{
    Asking, Chain, Completion, Fetched, Notify, Position, QueueLog, Ring, RingFault, Ticket,
};
use split_ring::SplitRing;

/// A virtqueue of either form.
#[derive(Drop)]
pub enum AnyRing {
    /// A split one.
    Split(SplitRing),
    /// A packed one.
    Packed(PackedRing),
}

impl Ring for AnyRing {
    ghost use Rattle.virtqueue.specs.AnyRing.{ring_state};

    ghost state = { ring_state };

    #[inline(always)]
    fn fetch<M: Memory>(&mut self, memory: &mut M) -> Result<Option<Fetched>, RingFault> {
        match self {
            AnyRing::Split(ring) => ring.fetch(memory),
            AnyRing::Packed(ring) => ring.fetch(memory),
        }
    }

    #[inline(always)]
    fn is_idle<M: Memory>(&self, memory: &mut M) -> bool {
        match self {
            AnyRing::Split(ring) => ring.is_idle(memory),
            AnyRing::Packed(ring) => ring.is_idle(memory),
        }
    }

    fn finish<M: WritableMemory>(
        &mut self,
        memory: &mut M,
        chain: Chain,
        len: u32,
        leave: Completion,
    ) -> Ticket {
        match self {
            AnyRing::Split(ring) => ring.finish(memory, chain, len, leave),
            AnyRing::Packed(ring) => ring.finish(memory, chain, len, leave),
        }
    }

    #[inline(always)]
    fn wants_notice<M: Memory>(&self, memory: &mut M) -> bool {
        match self {
            AnyRing::Split(ring) => ring.wants_notice(memory),
            AnyRing::Packed(ring) => ring.wants_notice(memory),
        }
    }

    fn asking(&self, notify: Notify) -> Option<Asking> {
        match self {
            AnyRing::Split(ring) => ring.asking(notify),
            AnyRing::Packed(ring) => ring.asking(notify),
        }
    }

    fn position(&self) -> Position {
        match self {
            AnyRing::Split(ring) => ring.position(),
            AnyRing::Packed(ring) => ring.position(),
        }
    }

    fn log(&self) -> &QueueLog {
        match self {
            AnyRing::Split(ring) => ring.log(),
            AnyRing::Packed(ring) => ring.log(),
        }
    }

    fn least_outstanding(&self) -> Option<u64> {
        match self {
            AnyRing::Split(ring) => ring.least_outstanding(),
            AnyRing::Packed(ring) => ring.least_outstanding(),
        }
    }

    fn broken(&self) -> Option<RingFault> {
        match self {
            AnyRing::Split(ring) => ring.broken(),
            AnyRing::Packed(ring) => ring.broken(),
        }
    }

    fn fits<M: Memory>(&self, memory: &M) -> bool {
        match self {
            AnyRing::Split(ring) => ring.fits(memory),
            AnyRing::Packed(ring) => ring.fits(memory),
        }
    }

    fn owns(&self, chain: &Chain) -> bool {
        match self {
            AnyRing::Split(ring) => ring.owns(chain),
            AnyRing::Packed(ring) => ring.owns(chain),
        }
    }
}
