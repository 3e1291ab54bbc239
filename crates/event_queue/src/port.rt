//! The buffers of the event queue that the device holds.

use crate::buffer::EventBuffer;
use ring_core::Chain;
use scsi_codec::{EVENT_BYTES, EVENTS_MISSED, Event, write_event};
use std::alloc::{AllocError, Global};
use std::collections::VecDeque;
use std::marker::Model;

/// The buffers of the event queue that the device holds, oldest first, and whether an event was missed since one came.
#[derive(Drop)]
pub struct EventPort {
    buffers: VecDeque<EventBuffer>,
    missed: bool,
    limit: usize,
}

impl Model for EventPort {
    ghost use Rattle.std.specs.Prelude.{◌≤◌};
    ghost use Rattle.std.specs.VecDeque.{deque_capacity, deque_len};
    ghost use Rattle.event_queue.specs.Port.{PlainPort};

    ghost Value = { PlainPort };

    ghost view = { λ p. record { buffers = p.buffers.items; missed = p.missed; limit = p.limit } };

    ghost invariant = { λ p. (deque_len p.buffers ≤ p.limit) × (p.limit ≤ deque_capacity p.buffers) };
}

ghost use Rattle.std.specs.Prelude.{◌≡◌};
ghost use Rattle.scsi_codec.specs.EventQueue.{event_bytes};
ghost use Rattle.scsi_codec.specs.EventQueue.{missed_event};

/// Returns the bytes that tell that events were missed (VIRTIO 1.2 §5.6.6.3).
fn missed_bytes() -> [u8; EVENT_BYTES]
    ensures { result ≡ event_bytes missed_event }
{
    write_event(&Event {
        event: EVENTS_MISSED,
        address: None,
        reason: 0,
    })
}

impl EventPort {
    ghost use Rattle.std.specs.Prelude.{◌≡◌, ◌<◌, ◌↔◌, [], length, None, Some, IfOk, IfSome, IsTrue, slice_get};
    ghost use Rattle.std.specs.Option.{ForSome};
    ghost use Rattle.event_queue.specs.Port.{Happening, opening_port, gives, after};
    ghost use Rattle.event_queue.specs.Inner.Port.{HoldsEvent};

    /// Makes a port that holds no buffer, with room for `size`. Only this call takes memory.
    pub fn new(alloc: Global, size: usize) -> Result<EventPort, AllocError>
        ensures { IfOk result (λ port. port ≡ opening_port size) }
    {
        Ok(EventPort {
            buffers: VecDeque::with_capacity(alloc, size)?,
            missed: false,
            limit: size,
        })
    }

    /// Returns how many buffers it holds.
    pub fn len(&self) -> usize
        ensures { result ≡ length self.now.buffers }
    {
        self.buffers.len()
    }

    /// Returns true if it may hold one more.
    pub fn has_room(&self) -> bool
        ensures { IsTrue result ↔ (length self.now.buffers < self.now.limit) }
    {
        self.len() < self.limit
    }

    /// Returns true if an event was missed since a buffer last came.
    pub fn missed(&self) -> bool
        ensures { result ≡ self.now.missed }
    {
        self.missed
    }

    /// Returns the oldest buffer that it holds; `None` where it holds none.
    pub fn oldest(&self) -> Option<&EventBuffer>
        ensures some { IfSome result (λ c. slice_get self.now.buffers 0 ≡ Some c.now) }
        ensures none { result ≡ None → self.now.buffers ≡ [] }
    {
        self.buffers.front()
    }

    /// Raises an event: the oldest buffer goes back with its bytes, or the event is missed, where none is held.
    pub fn raise(&mut self, event: &Event) -> Option<(EventBuffer, [u8; EVENT_BYTES])>
        requires { ForSome event.now.address (λ a. a.lun < 16384) }
        ensures gives { result ≡ gives (Happening.Raised event.now) self.old }
        ensures port { self.new ≡ after (Happening.Raised event.now) self.old }
    {
        match self.buffers.pop_front() {
            Some(buffer) => Some((buffer, write_event(event))),
            None => {
                self.missed = true;
                None
            }
        }
    }

    /// Takes a buffer, into which an event fits. If an event was missed since a buffer last came, the buffer goes back
    /// at once and tells so. Else it is held, as an `EventBuffer`. The caller sees to it that there is room.
    pub fn buffer(&mut self, chain: Chain) -> Option<(Chain, [u8; EVENT_BYTES])>
        requires room { length self.old.buffers < self.old.limit }
        requires fits { HoldsEvent chain }
        ensures gives { result ≡ gives (Happening.Came chain) self.old }
        ensures port { self.new ≡ after (Happening.Came chain) self.old }
    {
        if self.missed {
            self.missed = false;
            return Some((chain, missed_bytes()));
        }
        match self.buffers.push_back(EventBuffer::of(chain)) {
            Ok(()) => None,
            Err(_) => unreachable!(),
        }
    }
}
