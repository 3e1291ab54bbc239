//! One queue, and the ends that seats have of it.

use crate::rule::{All, InOrder, Puts, Seats, Takes, View};
use crossbeam_queue::{Pass, RuledArrayQueue};
use foundation::NoMemory;
use logical_unit::Job;
use std::alloc::Global;
use std::marker::Model;
use std::sync::Wait;

/// A bounded queue of jobs, first in, first out. Clauses see which one it is, and its capacity.
#[derive(Drop)]
pub(crate) struct Lane {
    queue: RuledArrayQueue<Job, View, InOrder>,
}

impl Model for Lane {
    ghost use Rattle.crossbeam_queue.specs.Passes.{ruled_capacity};
    ghost use Rattle.handoff.specs.Ends.{PlainLane};

    ghost Value = { PlainLane };

    ghost view = { λ l. record { queue = l.queue.table.shared.table_id; capacity = ruled_capacity l.queue } };
}

/// An end of one queue, for one seat. Clauses see of which one, and what it knows of what was put there and taken.
#[derive(Drop)]
pub(crate) struct LaneEnd {
    pass: Pass<Job, View>,
}

impl Model for LaneEnd {
    ghost use Rattle.std.specs.Prelude.{◌≡◌, []};
    ghost use Rattle.crossbeam_queue.specs.Passes.{view as pass_knows};
    ghost use Rattle.handoff.specs.Ends.{PlainEnd};

    ghost Value = { PlainEnd };

    ghost view = { λ p. record { queue = p.pass.table_id; knows = pass_knows p.pass } };

    ghost invariant = { λ p. p.pass.me.1 ≡ [] };
}

impl Lane {
    ghost use Rattle.std.specs.Prelude.{◌≡◌, ◌<◌, length, true, OnOk, OnErr, IfOk, IfErr, IfSome, IfNone, List};
    ghost use Rattle.crossbeam_queue.specs.Fifo.{Held};
    ghost use Rattle.unit_model.specs.Jobs.{PlainJob};
    ghost use Rattle.handoff.specs.Inner.Moves.{Balances, AreSettled};
    ghost use Rattle.handoff.specs.Inner.Rule.{opening, one_more, newcomer, joined, after_put, after_take};
    ghost use Rattle.handoff.specs.Inner.Ends.{IsAt, HasOne, knowing};

    /// Makes an empty queue that holds at most so many jobs, and the first end of it, the chief.
    pub(crate) fn new(alloc: Global, capacity: usize) -> Result<(Lane, LaneEnd), NoMemory>
        requires { 0 < capacity }
        ensures capacity { IfOk result (λ r. r.0.capacity ≡ capacity) }
        ensures chief { IfOk result (λ r. r.1 ≡ record { queue = r.0.queue; knows = opening }) }
    {
        let (queue, pass) = RuledArrayQueue::ruled(alloc, capacity)?;
        Ok((Lane { queue }, LaneEnd { pass }))
    }

    /// Makes another end, by the chief.
    pub(crate) fn another(&self, chief: &mut LaneEnd) -> LaneEnd
        requires at { IsAt self.now chief.old }
        requires chief { chief.old.knows.is_chief ≡ true }
        ensures chief { chief.new ≡ knowing (one_more chief.old.knows) chief.old }
        ensures new { result ≡ record { queue = self.now.queue; knows = newcomer chief.old.knows } }
    {
        LaneEnd {
            pass: self.queue.another::<Seats>(&mut chief.pass),
        }
    }

    /// Puts a job behind the others, by an end that has one account.
    pub(crate) fn put<R: Wait>(&self, rt: &R, end: &mut LaneEnd, job: Job) -> Result<(), Job>
        requires at { IsAt self.now end.old }
        requires one { HasOne end.old.knows }
        ensures put { OnOk result (end.new ≡ knowing (after_put end.old.knows job) end.old) }
        ensures back { IfErr result (λ back. back ≡ job) }
        ensures unchanged { OnErr result (end.new ≡ end.old) }
        ensures full { OnErr result (Held self.now.capacity (Balances end.old.knows.accounts)) }
    {
        self.queue.push_as::<Puts, R>(rt, &mut end.pass, job)
    }

    /// Takes the job that has stood longest, by an end that has one account.
    pub(crate) fn take<R: Wait>(&self, rt: &R, end: &mut LaneEnd) -> Option<Job>
        requires at { IsAt self.now end.old }
        requires one { HasOne end.old.knows }
        ensures taken { IfSome result (λ job. end.new ≡ knowing (after_take end.old.knows job) end.old) }
        ensures unchanged { IfNone result (end.new ≡ end.old) }
        ensures empty { IfNone result (Held 0 (Balances end.old.knows.accounts)) }
    {
        self.queue.pop_as::<Takes, R>(rt, &mut end.pass)
    }

    /// Has the chief take in another end.
    pub(crate) fn absorb(&self, chief: &mut LaneEnd, other: LaneEnd)
        requires at { IsAt self.now chief.old × IsAt self.now other }
        requires chief { chief.old.knows.is_chief ≡ true }
        ensures { chief.new ≡ knowing (joined chief.old.knows other.knows) chief.old }
    {
        self.queue.absorb::<Seats>(&mut chief.pass, other.pass);
    }

    /// Has the chief, which has all accounts, learn the whole.
    pub(crate) fn learn(&self, chief: LaneEnd)
        requires at { IsAt self.now chief }
        requires chief { chief.knows.is_chief ≡ true }
        requires all { chief.knows.made ≡ length chief.knows.accounts }
        ensures { (left : List PlainJob) × AreSettled chief.knows.accounts left }
    {
        let mut pass = chief.pass;
        self.queue.learn_as::<All>(&mut pass);
    }
}
