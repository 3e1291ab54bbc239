//! A gate that requests pass, which may hold a thread up.

use ring_core::Ticket;

/// The point of a request's life at which it passes the gate.
#[derive(Clone, Copy, Debug, PartialEq, Eq)]
pub enum Point {
    /// It entered its unit. No lock is held.
    Entered,
    /// Its job came into the hand of the seat that serves it. No lock is held.
    Taken,
    /// The pages of its WRITE are made. No lock is held.
    Prepared,
    /// Its unit's lock is held, and no other, for its commit, of which nothing is done yet.
    Locked,
    /// Its commit is over. No lock is held.
    Committed,
    /// Its chain was answered and used. No lock is held.
    Answered,
}

/// A gate that requests pass, which may hold a thread up: a test has one to put threads into an order. Nothing that the
/// device promises stands on it.
pub trait Gate {
    /// Is told that the request of this ticket comes to this point. The worker that serves it calls, and goes on once
    /// this returns.
    fn pass(&self, point: Point, ticket: Ticket);

    /// Returns true if a request is to be held up at each point until `pass` returns. Where it returns false, a worker
    /// may run the Enter and the Commit of a request in one hold of the unit, and passes `Entered` and `Taken` behind
    /// that.
    fn watches(&self) -> bool {
        true
    }
}

/// Lets every request pass at once.
#[derive(Clone, Copy, Drop)]
pub struct Open;

impl Gate for Open {
    fn pass(&self, _point: Point, _ticket: Ticket) {}

    fn watches(&self) -> bool {
        false
    }
}
