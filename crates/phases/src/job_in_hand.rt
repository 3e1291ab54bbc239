//! A job in hand.

ghost use Rattle.std.specs.Prelude.{◌≡◌, ◌⊎◌, is_some, Some, IsTrue, IsFalse};
ghost use Rattle.logical_unit.specs.Calls.{Commits, Concludes, Waits, Withholds};

use crate::response::write_outcome;
use block_store::Prepared;
use guest_mem::WritableMemory;
use logical_unit::{Job, Outcome, PreparedWrite, StartedWrite, UnitState};
use std::marker::Model;

/// A job in hand, the pages of its WRITE once they are made, and what came of its commit once that is over. The commit
/// changes it in place, so that the job doesn't move.
#[derive(Drop)]
pub struct JobInHand {
    job: Job,
    pages: Option<PreparedWrite>,
    // The pages that its commit left over, to be freed once the unit's lock is.
    spare: Option<Prepared>,
    outcome: Option<Outcome>,
}

impl Model for JobInHand {
    ghost use Rattle.std.specs.Prelude.{IfSome};
    ghost use Rattle.cdb.specs.Need.{need_of};
    ghost use Rattle.logical_unit.specs.Endings.{FitsNeed};
    ghost use Rattle.phases.specs.Outcomes.{PlainJobInHand};

    ghost Value = { PlainJobInHand };

    ghost view = { λ h. record { job = h.job; outcome = h.outcome } };

    ghost invariant = { λ h. IfSome h.outcome (FitsNeed (need_of h.job.entry.command).into) };
}

impl JobInHand {
    ghost use Rattle.std.specs.Prelude.{None, true};
    ghost use Rattle.phases.specs.Giving.{is_reply};
    ghost use Rattle.phases.specs.Inner.Outcomes.{WritesEndingIn};
    ghost use Rattle.phases.specs.Inner.Stored.{StoresEnding};
    ghost use Rattle.ring_core.specs.Writes.{stores_of};
    ghost use Rattle.logical_unit.specs.declared.outcomes.Outcome as answers;

    /// Makes a job that is to be committed.
    pub fn new(job: Job) -> JobInHand
        ensures { result ≡ record { job = job; outcome = None } }
    {
        JobInHand {
            job,
            pages: None,
            spare: None,
            outcome: None,
        }
    }

    /// Returns the job.
    pub fn job(&self) -> &Job
        ensures { result.now ≡ self.now.job }
    {
        &self.job
    }

    /// Returns true if its commit is over.
    pub fn is_over(&self) -> bool
        ensures { result ≡ is_some self.now.outcome }
    {
        self.outcome.is_some()
    }

    /// Returns true if its commit is over and left a receipt.
    pub(crate) fn has_receipt(&self) -> bool
        ensures { result ≡ is_reply self.now.outcome }
    {
        matches!(self.outcome, Some(Outcome::Reply(_)))
    }

    /// Makes the pages of its WRITE of what was copied for them; none where memory was refused.
    pub(crate) fn prepare(&mut self, started: StartedWrite)
        ensures { self.new ≡ self.old }
    {
        self.pages = started.prepare();
    }

    /// Commits the job at its unit, with the pages of its WRITE, if they were made. Where it waits for its unit's disk, it is
    /// still to be committed, and these pages are let go. So it is where its command ran and its reply is withheld. Returns
    /// true if its commit is over.
    pub(crate) fn commit_if_ready(&mut self, unit: &mut UnitState) -> bool
        ensures over { IsTrue result → (o : answers.Outcome)
            × (Commits unit.old self.old.job o unit.new ⊎ Concludes unit.old self.old.job o unit.new)
            × (self.new ≡ record { job = self.old.job; outcome = Some o }) }
        ensures waits { IsFalse result → (Waits unit.old self.old.job unit.new ⊎ Withholds unit.old self.old.job unit.new)
            × (self.new ≡ record { job = self.old.job; outcome = None }) }
    {
        self.outcome = unit.commit_ready(&self.job, self.pages.take(), &mut self.spare);
        self.outcome.is_some()
    }

    /// Writes what answers the job over the writable parts of its chain, where its commit is over: how many bytes it
    /// has.
    pub(crate) fn write<M: WritableMemory>(&self, memory: &mut M) -> u32
        requires fits { M.extent memory.old ≡ self.now.job.chain.memory }
        requires over { is_some self.now.outcome ≡ true }
        ensures written { WritesEndingIn self.now (M.may_be memory.old) result (M.may_be memory.new) }
        ensures stores { StoresEnding self.now (λ ws. M.stored memory.new ≡ M.storing (M.stored memory.old) (stores_of ws)) }
        ensures size { M.extent memory.new ≡ M.extent memory.old }
    {
        match &self.outcome {
            Some(outcome) => write_outcome(memory, self.job.chain(), &self.job.lengths(), outcome),
            None => unreachable!(),
        }
    }

    /// Frees the pages that its commit left over.
    pub(crate) fn let_go(&mut self)
        ensures { self.new ≡ self.old }
    {
        self.spare = None;
    }

    /// Returns the job, and what came of its commit once that is over.
    pub(crate) fn into_parts(self) -> (Job, Option<Outcome>)
        ensures job { result.0 ≡ self.job }
        ensures outcome { result.1 ≡ self.outcome }
    {
        let JobInHand { job, outcome, .. } = self;
        (job, outcome)
    }
}
