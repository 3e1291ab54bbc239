//! The jobs between seats: for each seat a list of those that it handed off.

use foundation::NoMemory;
use logical_unit::{Job, JobList};
use std::alloc::Global;
use std::marker::Model;

/// The jobs that each seat handed off and that none took yet, at most as many as a limit.
#[derive(Drop)]
pub(crate) struct HandedOff {
    lists: Vec<JobList>,
    limit: usize,
}

impl Model for HandedOff {
    ghost use Rattle.std.specs.Prelude.{map};
    ghost use Rattle.device_steps.specs.Off.{KeptOff, jobs_of};
    ghost use Rattle.device_steps.specs.Inner.Off.{HaveLimit};

    ghost Value = { KeptOff };

    ghost view = { λ h. record { lists = map jobs_of h.lists.items; limit = h.limit } };

    ghost invariant = { λ h. HaveLimit h.limit h.lists.items };
}

impl HandedOff {
    ghost use Rattle.std.specs.Prelude.{◌≡◌, ◌<◌, ◌≤◌, ◌↔◌, IsTrue, IfOk, OnOk, OnErr, IfErr, Some, [], length, slice_get};
    ghost use Rattle.device_steps.specs.Inner.Cursors.{Denies};
    ghost use Rattle.device_steps.specs.Inner.Off.{AreBare, PutsAt, IsFullAt, IsFirstBetween, IsNearest, Takes};

    /// Makes so many empty lists, each with room for so many jobs. Only this call takes memory.
    pub(crate) fn new(alloc: Global, count: usize, limit: usize) -> Result<HandedOff, NoMemory>
        ensures limit { IfOk result (λ h. h.limit ≡ limit) }
        ensures lists { IfOk result (λ h. length h.lists ≡ count) }
        ensures bare { IfOk result (λ h. AreBare h.lists) }
    {
        let mut lists = Vec::new(alloc);
        for _number in 0..count {
            let list = JobList::with_limit(alloc, limit)?;
            if lists.push(list).is_err() {
                return Err(NoMemory);
            }
        }
        Ok(HandedOff { lists, limit })
    }

    /// Returns how many jobs each list may have.
    pub(crate) fn limit(&self) -> usize
        ensures { result ≡ self.now.limit }
    {
        self.limit
    }

    /// Returns true if a list is there and empty.
    pub(crate) fn is_bare(&self, at: usize) -> bool
        ensures { IsTrue result → slice_get self.now.lists at ≡ Some [] }
    {
        if at >= self.lists.len() {
            return false;
        }
        if self.lists[at].len() > 0 {
            return false;
        }
        true
    }

    /// Puts a job behind the others of a list; gives it back where that is full.
    pub(crate) fn put(&mut self, at: usize, job: Job) -> Result<(), Job>
        requires { at < length self.old.lists }
        ensures put { OnOk result (PutsAt at job self.old self.new) }
        ensures back { IfErr result (λ back. back ≡ job) }
        ensures full { OnErr result (IsFullAt at self.old) }
        ensures unchanged { OnErr result (self.new ≡ self.old) }
    {
        if self.lists[at].len() >= self.limit {
            return Err(job);
        }
        self.lists[at].push(job);
        Ok(())
    }

    /// Returns the first list that isn't empty of those from one number on, short of another.
    fn first_between(&self, from: usize, to: usize) -> Option<usize>
        requires { (from ≤ to) × (to ≤ length self.now.lists) }
        ensures { IsFirstBetween from to self.now.lists result }
    {
        for at in from..to {
            if self.lists[at].len() > 0 {
                return Some(at);
            }
        }
        None
    }

    /// Returns the first list that isn't empty: the own one comes first, then those of the next seats by rising number,
    /// and so round to the beginning.
    fn nearest(&self, own: usize) -> Option<usize>
        requires { own ≤ length self.now.lists }
        ensures { IsNearest own self.now.lists result }
    {
        if let Some(at) = self.first_between(own, self.lists.len()) {
            return Some(at);
        }
        self.first_between(0, own)
    }

    /// Returns true if a list has a job.
    pub(crate) fn has_job(&self) -> bool
        ensures { Denies (AreBare self.now.lists) result }
    {
        self.nearest(0).is_some()
    }

    /// Takes the first job of the nearest list that isn't empty; `None` where each is empty.
    pub(crate) fn take(&mut self, own: usize) -> Option<Job>
        requires { own ≤ length self.old.lists }
        ensures { Takes own self.old result self.new }
    {
        let Some(from) = self.nearest(own) else {
            return None;
        };
        self.lists[from].next()
    }
}
