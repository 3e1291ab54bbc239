//! A seat at a hand-off.

use crate::lane::LaneEnd;
use foundation::Record;
use logical_unit::Job;
use std::marker::Model;
use std::snapshot::Snapshot;

/// A job that a seat took, and which seat had put it. Only proofs speak of it.
#[derive(Drop)]
pub struct Taken {
    pub from: usize,
    pub job: Snapshot<Job>,
}

/// A seat of one `Handoff`, for the one thread that puts and takes there by it. `Handoff::new` makes all of them, and
/// `Handoff::gather` takes them back. It has an end of each queue of the hand-off, of which one is its own. Clauses
/// see at which queues it is, its number, how many seats there are, and the jobs that it put and took, in order.
#[derive(Drop)]
pub struct Seat {
    pub(crate) ends: Vec<LaneEnd>,
    pub(crate) number: usize,
    pub(crate) taken: Record<Taken>,
}

impl Model for Seat {
    ghost use Rattle.handoff.specs.Seats.{PlainSeat, seat_of};
    ghost use Rattle.handoff.specs.Inner.Seats.{IsSeated};

    ghost Value = { PlainSeat };

    ghost view = { λ s. seat_of s.number s.ends.items s.taken.items };

    ghost invariant = { λ s. IsSeated (seat_of s.number s.ends.items s.taken.items) s.ends.items };
}
