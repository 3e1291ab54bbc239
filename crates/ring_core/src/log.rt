//! The log of a queue: which chains it accepted, and which were used.

ghost use Rattle.std.specs.Prelude.{◌≡◌, ◌∷◌, ◌++◌, [], ◌+◌, ◌<◌, ◌^◌, length, OnOk, OnErr};

use foundation::Record;
use std::alloc::AllocError;
use std::marker::Model;

/// Names an accepted chain.
#[derive(Clone, Copy, Debug, PartialEq, Eq)]
pub struct Ticket {
    /// The queue that accepted it.
    pub queue: u16,
    /// The number of chains that the queue had accepted before it.
    pub number: u64,
}

/// The tickets of the chains that a queue accepted, and of those that were used, in order. It keeps
/// how many there are; which they are, only proofs see.
#[derive(Drop)]
pub struct QueueLog {
    accepted_count: u64,
    used_count: u64,
    accepted: Record<Ticket>,
    used: Record<Ticket>,
}

impl Model for QueueLog {
    ghost use Rattle.std.specs.Prelude.{◌≡◌, length};
    ghost use Rattle.ring_core.specs.State.{Log};

    ghost Value = { Log };

    ghost view = { λ q. record { accepted = q.accepted.items; used = q.used.items } };

    ghost invariant = { λ q. (q.accepted_count ≡ length q.accepted.items) × (q.used_count ≡ length q.used.items) };
}

impl QueueLog {
    /// Makes a log in which nothing was accepted and nothing used.
    pub(crate) fn new() -> QueueLog
        ensures { result ≡ record { accepted = []; used = [] } }
    {
        QueueLog {
            accepted_count: 0,
            used_count: 0,
            accepted: Record::new(),
            used: Record::new(),
        }
    }

    /// Returns how many tickets were accepted.
    pub fn accepted(&self) -> u64
        ensures { result ≡ length self.now.accepted }
    {
        self.accepted_count
    }

    /// Returns how many tickets were used.
    pub fn used(&self) -> u64
        ensures { result ≡ length self.now.used }
    {
        self.used_count
    }

    /// Accepts a ticket. It takes no memory, and refuses once 2^64 - 1 tickets were accepted.
    pub(crate) fn accept(&mut self, ticket: Ticket) -> Result<(), AllocError>
        ensures ok { OnOk result (self.new ≡ record self.old { accepted = self.old.accepted ++ ticket ∷ [] }) }
        ensures err { OnErr result (self.new ≡ self.old) }
        ensures full { OnErr result (length self.old.accepted + 1 ≡ 2 ^ 64) }
    {
        if self.accepted_count == u64::MAX {
            return Err(AllocError);
        }
        self.accepted_count += 1;
        self.accepted.push(&ticket);
        Ok(())
    }

    /// Notes that a ticket is used. It takes no memory.
    pub(crate) fn record_use(&mut self, ticket: Ticket)
        requires { length self.old.used < length self.old.accepted }
        ensures state { self.new ≡ record self.old { used = self.old.used ++ ticket ∷ [] } }
        ensures bounded { length self.old.used < 2 ^ 64 }
    {
        // The sum below fits, since no count is higher than this one.
        let _most = self.accepted_count;
        self.used_count += 1;
        self.used.push(&ticket);
    }
}
