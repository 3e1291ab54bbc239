//! The proof that a completion leaves in hand.

ghost use Rattle.std.specs.Prelude.{◌≡◌};

use crate::log::Ticket;
use std::marker::Model;

/// The proof that a chain was completed. `Ring::complete` alone makes one.
#[derive(Drop)]
pub struct Answered {
    ticket: Ticket,
}

impl Model for Answered {
    ghost use Rattle.ring_core.specs.declared.log.Ticket.{Ticket};

    ghost Value = { Ticket };

    ghost view = { λ a. a.ticket };
}

impl Answered {
    /// Makes the proof, for `Ring::complete` alone.
    pub(crate) fn of(ticket: Ticket) -> Answered
        ensures { result ≡ ticket }
    {
        Answered { ticket }
    }

    /// Returns the ticket of the chain that was completed.
    pub fn ticket(&self) -> Ticket
        ensures { result ≡ self.now }
    {
        self.ticket
    }
}

/// The leave to finish a chain. `Ring::complete` alone makes one, so nothing else can call a
/// ring's `finish`.
#[derive(Drop)]
pub struct Completion {
    private: (),
}

impl Completion {
    /// Makes the leave, for `Ring::complete` alone.
    pub(crate) fn begin() -> Completion {
        Completion { private: () }
    }
}
