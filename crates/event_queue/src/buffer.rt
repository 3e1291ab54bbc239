//! A buffer of the event queue that the device holds.

use foundation::Record;
use ring_core::{Chain, Part};
use scsi_codec::EVENT_BYTES;
use std::marker::Model;

/// A buffer that is held until an event is raised. Clauses see the chain that the guest gave. In memory stands of it
/// what an event needs: its first 16 writable bytes, in at most 16 parts. So a guest can't make the device keep a long
/// chain for as long as it likes.
#[derive(Drop)]
pub struct EventBuffer {
    held: Chain,
    given: Record<Part>,
}

impl Model for EventBuffer {
    ghost use Rattle.ring_core.specs.State.{PlainChain};
    ghost use Rattle.event_queue.specs.Inner.Held.{IsHeldOf};

    ghost Value = { PlainChain };

    ghost view = { λ b. record b.held { parts = b.given.items } };

    ghost invariant = { λ b. IsHeldOf (record b.held { parts = b.given.items }) b.held };
}

impl EventBuffer {
    ghost use Rattle.std.specs.Prelude.{◌≡◌, ◌≤◌, ℕ, List, length};
    ghost use Rattle.ring_core.specs.Parts.{writable_total};
    ghost use Rattle.ring_core.specs.Writes.{scatter_writes};
    ghost use Rattle.ring_core.specs.Inner.Narrow.{narrowed};
    ghost use Rattle.event_queue.specs.Inner.Port.{HoldsEvent};

    /// Makes a buffer of a chain into which an event fits, and gives back the memory of what isn't held. It takes none.
    pub(crate) fn of(chain: Chain) -> EventBuffer
        requires { HoldsEvent chain }
        ensures { result ≡ chain }
    {
        let given = Record::new().and_all(chain.parts());
        EventBuffer {
            held: chain.narrowed(EVENT_BYTES as u32),
            given,
        }
    }

    /// Returns the chain that is held: that of the guest, with its first 16 writable bytes alone.
    pub fn chain(&self) -> &Chain
        ensures fits { HoldsEvent self.now }
        ensures narrow { result.now ≡ narrowed 16 self.now }
        ensures few { length result.now.parts ≤ 16 }
    {
        &self.held
    }

    /// Returns the chain that is held, to be completed with an event. The event is written into it as into the chain
    /// that the guest gave.
    pub fn into_chain(self) -> Chain
        ensures narrow { result ≡ narrowed 16 self }
        ensures few { length result.parts ≤ 16 }
        ensures room { 16 ≤ writable_total result.parts }
        ensures same { (bytes : List ℕ) → length bytes ≤ 16
            → scatter_writes result.parts 0 bytes ≡ scatter_writes self.parts 0 bytes }
    {
        let EventBuffer { held, given: _ } = self;
        held
    }
}
