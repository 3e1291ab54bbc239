//! A seat: what a worker, or the operator, has between two steps.

use logical_unit::{Job, JobList};
use phases::Hand;
use std::marker::Model;

/// The next step of a seat, by its hand.
#[derive(Clone, Copy)]
pub(crate) enum Stage {
    /// Nothing is in hand.
    Empty,
    /// A job is to be committed.
    Taken,
    /// A job is to be answered.
    Done,
    /// A task is to leave.
    Answered,
}

/// All that a worker, or the operator, has between two steps: its hand, and the jobs that it is to hand off.
#[derive(Drop)]
pub(crate) struct Seat {
    pub(crate) hand: Hand,
    pub(crate) out: JobList,
}

impl Model for Seat {
    ghost use Rattle.device_steps.specs.Kept.{KeptSeat};
    ghost use Rattle.phases.specs.Parts.{hand_of};

    ghost Value = { KeptSeat };

    ghost view = { λ s. record { hand = hand_of s.hand; jobs = s.out.jobs; limit = s.out.limit } };
}

impl Seat {
    ghost use Rattle.std.specs.Prelude.{◌≡◌, ◌↔◌, IsTrue, [], drop, slice_get};
    ghost use Rattle.device_model.specs.Parts as plain;
    ghost use Rattle.device_steps.specs.Inner.Stages.{stage_of};

    /// Makes a seat with nothing in hand and an empty list.
    pub(crate) fn new(out: JobList) -> Seat
        requires { out.jobs ≡ [] }
        ensures { result ≡ record { hand = plain.Hand.Empty; jobs = []; limit = out.limit } }
    {
        Seat {
            hand: Hand::Empty,
            out,
        }
    }

    /// Returns its next step, by its hand.
    pub(crate) fn stage(&self) -> Stage
        ensures { result ≡ stage_of self.now.hand }
    {
        if self.hand.is_empty() {
            return Stage::Empty;
        }
        if self.hand.leaving_unit().is_some() {
            return Stage::Answered;
        }
        if self.hand.answering_queue().is_some() {
            return Stage::Done;
        }
        Stage::Taken
    }

    /// Returns true if it has nothing in hand.
    pub(crate) fn has_empty_hand(&self) -> bool
        ensures { IsTrue result ↔ (self.now.hand ≡ plain.Hand.Empty) }
    {
        self.hand.is_empty()
    }

    /// Returns true if it has nothing in hand, and no job to hand off.
    pub(crate) fn is_idle(&self) -> bool
        ensures { IsTrue result ↔ ((self.now.hand ≡ plain.Hand.Empty) × (self.now.jobs ≡ [])) }
    {
        self.hand.is_empty() && self.out.len() == 0
    }

    /// Returns the next job of the list; `None` where there is none.
    pub(crate) fn next(&mut self) -> Option<Job>
        ensures first { result ≡ slice_get self.old.jobs 0 }
        ensures rest { self.new ≡ record self.old { jobs = drop 1 self.old.jobs } }
    {
        self.out.next()
    }

    /// Puts this job into the hand, to be committed.
    #[inline(always)]
    pub(crate) fn hold(&mut self, job: Job)
        ensures { self.new ≡ record self.old { hand = plain.Hand.Taken job } }
    {
        self.hand = Hand::taken(job);
    }
}
