//! The last ticket of each queue that entered or was refused as full.

ghost use Rattle.std.specs.Prelude.{◌≡◌, ◌+◌, ◌<◌, nat_lt, ℕ, length, OnOk, if◌then◌else◌, ◌==◌};
ghost use Rattle.unit_log.specs.Inner.LastTickets.{floor_kept};

use ring_core::Ticket;
use std::alloc::{AllocError, Global};
use std::marker::Model;

/// The number of the last ticket that came, by queue, if one did.
#[derive(Drop)]
pub struct LastTickets {
    numbers: Vec<Option<u64>>,
}

impl Model for LastTickets {
    ghost use Rattle.std.specs.Prelude.{ℕ, List, Option};

    ghost Value = { List (Option ℕ) };

    ghost view = { λ l. l.numbers.items };
}

impl LastTickets {
    /// Begins with none, for a unit that opens.
    pub fn new(alloc: Global) -> LastTickets
        ensures { (q : ℕ) → floor_kept result q ≡ 0 }
    {
        LastTickets {
            numbers: Vec::new(alloc),
        }
    }

    /// Returns true if the ticket is not above the last of its queue.
    #[inline(always)]
    pub fn is_stale(&self, ticket: Ticket) -> bool
        ensures { result ≡ nat_lt ticket.number (floor_kept self.now ticket.queue) }
    {
        match self.numbers.get(ticket.queue as usize) {
            Some(Some(last)) => ticket.number <= *last,
            Some(None) | None => false,
        }
    }

    /// Makes room for a queue, which takes memory the first time that the queue, or a higher one, comes:
    /// `AllocError` where that was refused. The unit calls it before a ticket of the queue comes.
    #[inline(always)]
    pub fn reserve(&mut self, queue: u16) -> Result<(), AllocError>
        ensures same { (q : ℕ) → floor_kept self.new q ≡ floor_kept self.old q }
        ensures there { OnOk result (queue < length self.new) }
    {
        let wanted = queue as usize + 1;
        if self.numbers.len() >= wanted {
            return Ok(());
        }
        self.numbers.resize(wanted, None)
    }

    /// Notes that the ticket came, of a queue for which room was made. The unit calls it where the ticket's task
    /// enters, or is refused as TASK SET FULL.
    #[inline(always)]
    pub fn came(&mut self, ticket: Ticket)
        requires { ticket.queue < length self.old }
        ensures { (q : ℕ) → floor_kept self.new q
            ≡ (if ticket.queue == q then ticket.number + 1 else floor_kept self.old q) }
    {
        self.numbers[ticket.queue as usize] = Some(ticket.number);
    }
}
