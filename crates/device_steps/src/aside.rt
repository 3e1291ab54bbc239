//! The jobs that wait for their unit's disk, and those that are to be tried again.

ghost use Rattle.std.specs.Prelude.{◌≡◌, ◌<◌, ◌+◌, ◌↔◌, [], IfOk, IsTrue, drop, length, slice_get};
ghost use Rattle.phases.specs.Parts.{hand_of};
ghost use Rattle.phases.specs.Inner.Units.{CommitsOrDefers};
ghost use Rattle.device_steps.specs.Inner.Aside.{awakened, waiting_of};
ghost use Rattle.device_steps.specs.Inner.Cursors.{Denies};

use foundation::NoMemory;
use logical_unit::{Job, JobList, UnitState};
use phases::{Hand, phase_commit_or_defer};
use std::alloc::Global;
use std::marker::Model;

/// The jobs whose commands wait for their disks, those whose replies are withheld, and those that are to be tried again,
/// together at most as many as a limit.
#[derive(Drop)]
pub(crate) struct JobsAside {
    aside: JobList,
    woken: JobList,
}

impl Model for JobsAside {
    ghost use Rattle.device_steps.specs.Aside.{KeptAside};
    ghost use Rattle.device_steps.specs.Inner.Aside.{ShareLimit};

    ghost Value = { KeptAside };

    ghost view = { λ k. record { aside = k.aside.jobs; woken = k.woken.jobs; limit = k.aside.limit } };

    ghost invariant = { λ k. ShareLimit k.aside k.woken };
}

impl JobsAside {
    /// Makes lists of no jobs, with room for so many. Only this call takes memory.
    pub(crate) fn new(alloc: Global, limit: usize) -> Result<JobsAside, NoMemory>
        ensures { IfOk result (λ k. k ≡ record { aside = []; woken = []; limit = limit }) }
    {
        let aside = JobList::with_limit(alloc, limit)?;
        let woken = JobList::with_limit(alloc, limit)?;
        Ok(JobsAside { aside, woken })
    }

    /// Returns true if one more job may wait.
    pub(crate) fn has_room(&self) -> bool
        ensures { IsTrue result ↔ (length self.now.aside + length self.now.woken < self.now.limit) }
    {
        let limit = self.aside.limit();
        self.aside.len() + self.woken.len() < limit
    }

    /// Returns how many jobs wait, those that are to be tried again among them.
    pub(crate) fn count(&self) -> usize
        ensures { result ≡ length self.now.aside + length self.now.woken }
    {
        // Together they are at most as many as the limit.
        let _limit = self.aside.limit();
        self.aside.len() + self.woken.len()
    }

    /// Returns true if a job is to be tried again.
    pub(crate) fn has_woken(&self) -> bool
        ensures { Denies (self.now.woken ≡ []) result }
    {
        if self.woken.len() > 0 {
            return true;
        }
        false
    }

    /// Commits the job in the hand at its unit, or has it wait behind those that do. So it waits too where its command ran and
    /// its reply is withheld. Returns true if something changed.
    pub(crate) fn commit_or_defer(&mut self, unit: &mut UnitState, hand: &mut Hand) -> bool
        requires room { length self.old.aside + length self.old.woken < self.old.limit }
        ensures commits { CommitsOrDefers (hand_of hand.old) unit.old (waiting_of self.old) result unit.new
            (hand_of hand.new) (waiting_of self.new) }
        ensures woken { self.new.woken ≡ self.old.woken }
        ensures limit { self.new.limit ≡ self.old.limit }
    {
        phase_commit_or_defer(unit, hand, &mut self.aside)
    }

    /// Has each job that waits tried again, behind those that are. Returns true if one waited.
    pub(crate) fn wake(&mut self) -> bool
        ensures all { self.new ≡ awakened self.old }
        ensures told { Denies (self.old.aside ≡ []) result }
    {
        if self.aside.len() == 0 {
            return false;
        }
        while let Some(job) = self.aside.next() {
            self.woken.push(job);
        }
        true
    }

    /// Takes the first job that is to be tried again; `None` where there is none.
    pub(crate) fn next(&mut self) -> Option<Job>
        ensures first { result ≡ slice_get self.old.woken 0 }
        ensures rest { self.new ≡ record self.old { woken = drop 1 self.old.woken } }
    {
        self.woken.next()
    }
}
