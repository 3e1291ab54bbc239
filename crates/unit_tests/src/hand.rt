//! The results of calls of units.

use crate::acts::{Ends, OTHER};
use crate::calls;
use crate::port::PAGES;
use foundation::NoMemory;
use logical_unit::{Job, JobList, Outcome, Place, Receipt, UnitState};
use ring_core::Answered;
use std::alloc::Global;
use unit_model::Rule;

/// More jobs than a row has.
pub(crate) const MOST_JOBS: usize = 256;

/// Returns the name of the job of this number.
pub(crate) fn name_of(number: u64, is_other: bool) -> u64 {
    if is_other {
        number.saturating_add(OTHER)
    } else {
        number
    }
}

/// Returns the name of a job.
fn name_of_job(job: &Job) -> u64 {
    name_of(
        job.ticket().number,
        job.chain().memory() != 4096 * u64::from(PAGES),
    )
}

/// Returns where the job of this name is.
fn place_of(jobs: &[Job], name: u64) -> Option<usize> {
    jobs.iter().position(|job| name_of_job(job) == name)
}

/// Returns true if jobs have these names.
fn are_named(jobs: &[Job], names: &[u64]) -> bool {
    if jobs.len() != names.len() {
        return false;
    }
    for number in 0..names.len() {
        if place_of(jobs, names[number]) != Some(number) {
            return false;
        }
    }
    true
}

/// The jobs in hand, those that were handed out, and the receipts.
#[derive(Drop)]
pub(crate) struct Hand {
    jobs: Vec<Job>,
    receipts: Vec<Receipt>,
    out: JobList,
}

impl Hand {
    /// Makes a hand with nothing, and room for more than a row has; `None` where memory was refused.
    pub(crate) fn new(alloc: Global) -> Option<Hand> {
        let out = JobList::with_limit(alloc, MOST_JOBS).ok()?;
        let jobs = Vec::with_capacity(alloc, MOST_JOBS).ok()?;
        let receipts = Vec::with_capacity(alloc, MOST_JOBS).ok()?;
        Some(Hand {
            jobs,
            receipts,
            out,
        })
    }

    /// Puts a job with the others, if there is one. Returns true if there was room.
    pub(crate) fn put(&mut self, job: Option<Job>) -> bool {
        match job {
            Some(job) => self.jobs.push(job).is_ok(),
            None => true,
        }
    }

    /// Takes the job of this name out.
    pub(crate) fn take(&mut self, name: u64) -> Option<Job> {
        let index = place_of(self.jobs.as_slice(), name)?;
        if index < self.jobs.len() {
            Some(self.jobs.remove(index))
        } else {
            None
        }
    }

    /// Returns the name of the job that was had last, and its unit.
    pub(crate) fn last(&self) -> Option<(u64, usize)> {
        let job = self.jobs.last()?;
        Some((name_of_job(job), job.unit()))
    }

    /// Takes what was handed out into hand. Returns true if there was room.
    pub(crate) fn take_all(&mut self) -> bool {
        for _ in 0..self.out.len() {
            let job = self.out.next();
            if !self.put(job) {
                return false;
            }
        }
        true
    }

    /// Takes what was handed out into hand. Returns true if these are its names.
    pub(crate) fn gets(&mut self, names: &[u64]) -> bool {
        let before = self.jobs.len();
        if !self.take_all() {
            return false;
        }
        match self.jobs.as_slice().get(before..) {
            Some(jobs) => are_named(jobs, names),
            None => false,
        }
    }

    /// Commits a job at a unit.
    pub(crate) fn commit(&mut self, unit: &mut UnitState, name: u64) -> Result<Ends, NoMemory> {
        let Some(index) = place_of(self.jobs.as_slice(), name) else {
            return Ok(Ends::Otherwise);
        };
        let Some(job) = self.jobs.get(index) else {
            return Ok(Ends::Otherwise);
        };
        match calls::commit(unit, job) {
            Some(outcome) => self.end(outcome),
            None => Ok(Ends::Otherwise),
        }
    }

    /// Returns how a job ends, and keeps its receipt.
    fn end(&mut self, outcome: Outcome) -> Result<Ends, NoMemory> {
        match outcome {
            Outcome::Reply(receipt) => {
                let ends = calls::ends_of_receipt(&receipt);
                if self.receipts.push(receipt).is_ok() {
                    Ok(ends)
                } else {
                    Ok(Ends::Otherwise)
                }
            }
            Outcome::Aborted(reason) => Ok(calls::ends_without_reply(reason)),
            Outcome::Unknown => Ok(Ends::Unknown),
            Outcome::Busy => Err(NoMemory),
        }
    }

    /// Has the task of a completed chain leave, and returns true if it does.
    pub(crate) fn leave(&mut self, unit: &mut UnitState, answered: Answered) -> Option<bool> {
        calls::leave(unit, answered, &mut self.out)
    }

    /// Aborts tasks of a unit, as `calls::abort` does.
    pub(crate) fn abort(
        &mut self,
        unit: &mut UnitState,
        rule: Rule,
    ) -> Result<Option<Place>, NoMemory> {
        calls::abort(unit, rule, &mut self.out)
    }

    /// Resets a unit, as `calls::reset` does.
    pub(crate) fn reset(&mut self, unit: &mut UnitState) -> Result<Option<Place>, NoMemory> {
        calls::reset(unit, &mut self.out)
    }

    /// Takes a receipt's reply, and returns true if it had one.
    pub(crate) fn take_reply(&mut self, number: usize) -> bool {
        match self.receipts.get_mut(number) {
            Some(receipt) => receipt.take_reply().is_some(),
            None => false,
        }
    }

    /// Returns whether a unit confirms a receipt; `None` where it can't say: it keeps no replies, and the receipt's
    /// place is folded.
    pub(crate) fn is_confirmed(&self, unit: &UnitState, number: usize) -> Option<bool> {
        let receipt = self.receipts.get(number)?;
        if unit.keeps_replies() {
            return Some(unit.confirm(receipt));
        }
        if unit.base() <= receipt.place() {
            return Some(unit.confirm(receipt));
        }
        None
    }

    /// Returns true if the data of a receipt are 512 times this byte.
    pub(crate) fn has_data(&self, number: usize, byte: u8) -> bool {
        match self.receipts.get(number) {
            Some(receipt) => match receipt.reply() {
                Some(reply) => reply.payload.as_slice() == [byte; 512].as_slice(),
                None => false,
            },
            None => false,
        }
    }
}
