//! A bus, and what was asked of it.

ghost use Rattle.std.specs.Prelude.{◌≡◌, ◌∷◌, [], length};
ghost use Rattle.live_mem.specs.Calls.{lengths};

use crate::bus::Bus;
use foundation::Record;

/// A call of a bus.
#[derive(Clone, Copy)]
pub enum Kind {
    /// The begin of a phase.
    Begin,
    /// A load.
    Load,
    /// A store.
    Store,
}

/// A call of a bus, without its bytes.
#[derive(Clone, Copy)]
pub struct Call {
    pub kind: Kind,
    pub addr: u64,
    pub len: usize,
}

/// A bus whose calls are recorded for proofs. The record takes no memory. Only these methods add to it, each right behind
/// its call of the bus. So a clause over it says what the bus was asked, in which order, and what it gave.
#[derive(Drop)]
pub struct RecordedBus<B> {
    bus: B,
    calls: Record<Call>,
    bytes: Record<u8>,
    ghost tally: { lengths calls.items ≡ length bytes.items },
}

impl<B: Bus> RecordedBus<B> {
    ghost use Rattle.live_mem.specs.Access.{Access, AreBytes};
    ghost use Rattle.live_mem.specs.Calls.{access_of};
    ghost use Rattle.live_mem.specs.Heard.{heard};

    /// Wraps a bus, of which nothing was asked yet.
    pub fn new(bus: B) -> RecordedBus<B>
        ensures heard { heard result ≡ [] }
        ensures over { result.bus ≡ bus }
    {
        RecordedBus {
            bus,
            calls: Record::new(),
            bytes: Record::new(),
        }
    }

    /// Begins a phase.
    pub fn begin(&mut self)
        ensures { heard self.new ≡ Access.Begins ∷ heard self.old }
    {
        self.bus.begin();
        let call = Call {
            kind: Kind::Begin,
            addr: 0,
            len: 0,
        };
        self.note(&call, &[]);
    }

    /// Loads the bytes from `addr` on, as many as `out` holds.
    #[inline(always)]
    pub fn load(&mut self, addr: u64, out: &mut [u8])
        ensures heard { heard self.new ≡ Access.Loads addr out.new ∷ heard self.old }
        ensures bytes { AreBytes out.new }
    {
        self.bus.load(addr, out);
        let call = Call {
            kind: Kind::Load,
            addr,
            len: out.len(),
        };
        self.note(&call, out);
    }

    /// Stores `bytes` from `addr` on.
    #[inline(always)]
    pub fn store(&mut self, addr: u64, bytes: &[u8])
        ensures { heard self.new ≡ Access.Stores addr bytes.now ∷ heard self.old }
    {
        self.bus.store(addr, bytes);
        let call = Call {
            kind: Kind::Store,
            addr,
            len: bytes.len(),
        };
        self.note(&call, bytes);
    }

    /// Records a call with its bytes.
    fn note(&mut self, call: &Call, bytes: &[u8])
        requires { length bytes.now ≡ call.now.len }
        ensures { heard self.new ≡ access_of call.now bytes.now ∷ heard self.old }
    {
        self.calls.push(call);
        self.bytes.extend_from_slice(bytes);
    }
}
