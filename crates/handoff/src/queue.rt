//! The queues themselves, with the calls of their seats.

use crate::lane::{Lane, LaneEnd};
use crate::seat::{Seat, Taken};
use foundation::{NoMemory, Record};
use logical_unit::Job;
use std::alloc::Global;
use std::marker::Model;
use std::snapshot::Snapshot;
use std::sync::Wait;

/// Bounded queues of jobs, each first in, first out, one for each seat. Several threads share them. Each thread has a
/// `Seat`, by which it puts into its own queue and takes from all. No other call reaches the queues. Clauses see which
/// queues these are, the capacity of each, and how many seats there are.
#[derive(Drop)]
pub struct Handoff {
    lanes: Vec<Lane>,
    capacity: usize,
}

impl Model for Handoff {
    ghost use Rattle.handoff.specs.Seats.{Hub};
    ghost use Rattle.handoff.specs.Lanes.{hub_of};
    ghost use Rattle.handoff.specs.Inner.Lanes.{HaveCapacity};

    ghost Value = { Hub };

    ghost view = { λ h. hub_of h.capacity h.lanes.items };

    ghost invariant = { λ h. HaveCapacity h.capacity h.lanes.items };
}

ghost use Rattle.std.specs.Prelude.{◌≡◌, ◌+◌, ◌<◌, ◌≤◌, length, IfOk};
ghost use Rattle.handoff.specs.Inner.Rule.{newcomer};
ghost use Rattle.handoff.specs.Inner.Lanes.{HaveCapacity, at_each, lead};

/// Makes so many empty queues, each of this capacity, and the chief of each.
fn open(alloc: Global, capacity: usize, count: usize) -> Result<(Vec<Lane>, Vec<LaneEnd>), NoMemory>
    requires { 0 < capacity }
    ensures capacity { IfOk result (λ r. HaveCapacity capacity r.0.items) }
    ensures count { IfOk result (λ r. length r.0.items ≡ count) }
    ensures chiefs { IfOk result (λ r. r.1.items ≡ at_each (lead 1) r.0.items) }
{
    let mut lanes = Vec::with_capacity(alloc, count)?;
    let mut chiefs = Vec::with_capacity(alloc, count)?;
    for _number in 0..count {
        let (lane, chief) = Lane::new(alloc, capacity)?;
        lanes.push_reserved(lane);
        chiefs.push_reserved(chief);
    }
    Ok((lanes, chiefs))
}

/// Makes the ends of one more seat, by the chiefs.
fn another(
    alloc: Global,
    lanes: &[Lane],
    chiefs: &mut Vec<LaneEnd>,
    number: usize,
) -> Result<Vec<LaneEnd>, NoMemory>
    requires chiefs { chiefs.old.items ≡ at_each (lead number) lanes.now }
    ensures chiefs { IfOk result (λ _. chiefs.new.items ≡ at_each (lead (number + 1)) lanes.now) }
    ensures ends { IfOk result (λ ends. ends.items ≡ at_each (newcomer (lead number)) lanes.now) }
{
    let mut ends = Vec::with_capacity(alloc, lanes.len())?;
    for at in 0..lanes.len() {
        ends.push_reserved(lanes[at].another(&mut chiefs[at]));
    }
    Ok(ends)
}

impl Handoff {
    ghost use Rattle.std.specs.Prelude.{ℕ, Some, slice_get, true, OnOk, OnErr, IfErr, IfSome, IfNone, List};
    ghost use Rattle.crossbeam_queue.specs.Fifo.{Held};
    ghost use Rattle.unit_model.specs.Jobs.{PlainJob};
    ghost use Rattle.handoff.specs.Inner.Moves.{AreSettled};
    ghost use Rattle.handoff.specs.Inner.Rule.{joined};
    ghost use Rattle.handoff.specs.Ends.{PlainEnd};
    ghost use Rattle.handoff.specs.Inner.Ends.{knowing};
    ghost use Rattle.handoff.specs.Inner.Lanes.{AreAt, AreChiefs, KnowAll, TakesBetween};
    ghost use Rattle.handoff.specs.Seats.{IsSeatOf, IsSameSeat};
    ghost use Rattle.handoff.specs.Inner.Seats.{AreAllSeats, AreNew, putting, taking, BalancesAt, WasEmpty, TakesNearest, AreGathered};

    /// Makes an empty hand-off and all its seats, 2 to 9, in order: seat 0 stands first. Each seat has a queue, which
    /// holds at most `capacity` jobs, 1 to 4,096. Called once, where a device is opened. Only this call
    /// takes memory, and `NoMemory` says that some was refused.
    pub fn new(
        alloc: Global,
        capacity: usize,
        seats: usize,
    ) -> Result<(Handoff, Vec<Seat>), NoMemory>
        requires { (0 < capacity) × (0 < seats) }
        ensures capacity { IfOk result (λ r. r.0.capacity ≡ capacity) }
        ensures seats { IfOk result (λ r. r.0.seats ≡ seats) }
        ensures all { IfOk result (λ r. AreAllSeats r.0 r.1.items) }
        ensures new { IfOk result (λ r. AreNew r.1.items) }
    {
        let mut all = Vec::with_capacity(alloc, seats)?;
        let (lanes, mut chiefs) = open(alloc, capacity, seats)?;
        for number in 1..seats {
            let ends = another(alloc, lanes.as_slice(), &mut chiefs, number)?;
            all.push_reserved(Seat {
                ends,
                number,
                taken: Record::new(),
            });
        }
        let first = Seat {
            ends: chiefs,
            number: 0,
            taken: Record::new(),
        };
        let Ok(()) = all.insert(0, first) else {
            unreachable!() // room was made for all
        };
        Ok((Handoff { lanes, capacity }, all))
    }

    /// Puts a job behind the others in the own queue of a seat of this hand-off. The thread that has the seat calls it,
    /// as a worker with a job that may run. It may wait for other threads that are in the middle of a call, and takes
    /// no memory. `Err` gives the job back, and is answered only where that queue was full at a moment of the call.
    pub fn put<R: Wait>(&self, rt: &R, seat: &mut Seat, job: Job) -> Result<(), Job>
        requires { IsSeatOf self.now seat.old }
        ensures seat { IsSameSeat seat.old seat.new }
        ensures put { OnOk result (seat.new ≡ putting seat.old job) }
        ensures back { IfErr result (λ back. back ≡ job) }
        ensures unchanged { OnErr result (seat.new ≡ seat.old) }
        ensures full { OnErr result (Held self.now.capacity (BalancesAt seat.old.number seat.old)) }
    {
        let own = seat.number;
        self.lanes[own].put(rt, &mut seat.ends[own], job)
    }

    /// Takes the job that has stood longest in the queue of a seat.
    fn take_from<R: Wait>(&self, rt: &R, seat: &mut Seat, from: usize) -> Option<Job>
        requires seat { IsSeatOf self.now seat.old }
        requires there { from < self.now.seats }
        ensures seat { IsSameSeat seat.old seat.new }
        ensures taken { IfSome result (λ job. seat.new ≡ taking from seat.old job) }
        ensures unchanged { IfNone result (seat.new ≡ seat.old) }
        ensures empty { IfNone result (WasEmpty seat.old from) }
    {
        let Some(job) = self.lanes[from].take(rt, &mut seat.ends[from]) else {
            return None;
        };
        seat.taken.push(&Taken {
            from,
            job: Snapshot::of(&job),
        });
        Some(job)
    }

    /// Takes a job from the first that isn't empty of the queues from one number on, short of another.
    fn take_between<R: Wait>(&self, rt: &R, seat: &mut Seat, from: usize, to: usize) -> Option<Job>
        requires seat { IsSeatOf self.now seat.old }
        requires there { (from ≤ to) × (to ≤ self.now.seats) }
        ensures seat { IsSameSeat seat.old seat.new }
        ensures taken { IfSome result (λ job. TakesBetween from to seat.old seat.new job) }
        ensures unchanged { IfNone result (seat.new ≡ seat.old) }
        ensures empty { IfNone result ((q : ℕ) → from ≤ q → q < to → WasEmpty seat.old q) }
    {
        for at in from..to {
            if let Some(job) = self.take_from(rt, seat, at) {
                return Some(job);
            }
        }
        None
    }

    /// Takes the job that has stood longest in the first queue that isn't empty, by a seat of this hand-off. The seat's
    /// own queue comes first, then those of the next seats by rising number, round to the beginning. The thread that
    /// has the seat calls it, as a worker whose hand is free. It may wait for other threads that are in the middle of a
    /// call, and takes no memory. `None` is answered only where each queue was empty at a moment of the call, not all
    /// at one.
    pub fn take<R: Wait>(&self, rt: &R, seat: &mut Seat) -> Option<Job>
        requires { IsSeatOf self.now seat.old }
        ensures seat { IsSameSeat seat.old seat.new }
        ensures taken { IfSome result (λ job. TakesNearest seat.old seat.new job) }
        ensures unchanged { IfNone result (seat.new ≡ seat.old) }
        ensures empty { IfNone result ((q : ℕ) → q < self.now.seats → WasEmpty seat.old q) }
    {
        let own = seat.number;
        if let Some(job) = self.take_between(rt, seat, own, self.lanes.len()) {
            return Some(job);
        }
        self.take_between(rt, seat, 0, own)
    }

    /// Has the chiefs take in the ends of a seat.
    fn absorb(&self, chiefs: &mut Vec<LaneEnd>, ends: Vec<LaneEnd>)
        requires chiefs { AreAt self.now chiefs.old.items × AreChiefs chiefs.old.items }
        requires ends { AreAt self.now ends.items }
        ensures at { AreAt self.now chiefs.new.items }
        ensures joined { (q : ℕ) (c p : PlainEnd) → slice_get chiefs.old.items q ≡ Some c → slice_get ends.items q ≡ Some p
            → slice_get chiefs.new.items q ≡ Some (knowing (joined c.knows p.knows) c) }
    {
        let mut at = 0;
        for end in ends {
            self.lanes[at].absorb(&mut chiefs[at], end);
            at += 1;
        }
    }

    /// Has the chiefs, which have all accounts, learn the whole.
    fn learn(&self, chiefs: Vec<LaneEnd>)
        requires chiefs { AreAt self.now chiefs.items × AreChiefs chiefs.items }
        requires all { KnowAll chiefs.items }
        ensures { (left : ℕ → List PlainJob)
            × ((q : ℕ) (c : PlainEnd) → slice_get chiefs.items q ≡ Some c → AreSettled c.knows.accounts (left q)) }
    {
        let mut at = 0;
        for chief in chiefs {
            self.lanes[at].learn(chief);
            at += 1;
        }
    }

    /// Takes back all seats of this hand-off, in order, and answers nothing. Clauses then know what the seats put and
    /// took, and that the queue of each still holds the rest of what it put.
    pub fn gather(&self, seats: Vec<Seat>)
        requires { AreAllSeats self.now seats.items }
        ensures { (left : ℕ → List PlainJob) × AreGathered seats.items left }
    {
        let mut seats = seats.into_iter();
        let Some(first) = seats.next() else {
            return;
        };
        let mut chiefs = first.ends;
        for seat in seats {
            self.absorb(&mut chiefs, seat.ends);
        }
        self.learn(chiefs);
    }
}
