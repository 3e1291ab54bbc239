//! A task that is alive.

ghost use Rattle.std.specs.Prelude.{◌≡◌, ◌+◌, ◌<◌, ◌≤◌, ◌++◌, length, true, false, Some, None, IfSome};
ghost use Rattle.std.specs.Option.{option_copied, option_to_list};
ghost use Rattle.cdb.specs.Need.{need_of};
ghost use Rattle.unit_model.specs.Tasks.{entry_of, meets};
ghost use Rattle.unit_model.specs.Seen.{finished, with_mark};
ghost use Rattle.task_set.specs.Tasks.{entry_of_request};
ghost use Rattle.task_set.specs.Inner.Tasks.{moved, given, enabled_unless};

use crate::job::{Arrival, Job, JobList};
use crate::shared::SharedRequest;
use cdb::Command;
use request_intake::{TaskAttribute, UnitRequest};
use ring_core::Ticket;
use std::alloc::Global;
use std::marker::Model;
use unit_model::{Reason, Rule};

/// A task that is alive: from when its command entered the task set until its answer is written (SAM-5 §5.5).
/// Clauses see what is kept of it, and its job as long as it waits.
#[derive(Drop)]
pub struct Task {
    ticket: Ticket,
    // Its request: the task's own until the pages of its write are prepared, and shared with these from then on.
    request: Option<UnitRequest>,
    shared: Option<SharedRequest>,
    enabled: bool,
    done: bool,
    ended_well: bool,
    mark: Option<Reason>,
    place: u64,
    parked: Option<Job>,
}

impl Model for Task {
    ghost use Rattle.task_set.specs.Tasks.{PlainTask, entry_of_request, request_of};
    ghost use Rattle.task_set.specs.Inner.Tasks.{IsKept};

    ghost Value = { PlainTask };

    ghost view = { λ t. record {
      seen = record {
        entry = entry_of_request t.ticket (request_of t.request t.shared);
        enabled = t.enabled;
        done = t.done;
        ended_well = t.ended_well;
        mark = t.mark;
        place = t.place;
      };
      parked = t.parked;
    } };

    ghost invariant = { λ t. IsKept (entry_of_request t.ticket (request_of t.request t.shared)) t.enabled t.mark t.parked };
}

impl Default for Task {
    // Fills the free slots of a task set.
    fn default() -> Task {
        Task {
            ticket: Ticket {
                queue: 0,
                number: 0,
            },
            request: None,
            shared: None,
            enabled: true,
            done: false,
            ended_well: false,
            mark: None,
            place: 0,
            parked: None,
        }
    }
}

impl Task {
    /// Returns the ticket of its chain.
    pub fn ticket(&self) -> Ticket
        ensures { result ≡ self.now.seen.entry.ticket }
    {
        self.ticket
    }

    /// Returns its request; `None` in a free slot of a task set.
    #[inline(always)]
    fn request(&self) -> Option<&UnitRequest>
        ensures { self.now.seen.entry ≡ entry_of_request self.now.seen.entry.ticket (option_copied result) }
    {
        match &self.request {
            Some(request) => Some(request),
            None => match &self.shared {
                Some(shared) => Some(shared.request()),
                None => None,
            },
        }
    }

    /// Shares its request with the worker that prepares the pages of its write; `None` where memory was refused.
    pub(crate) fn share(&mut self, alloc: Global) -> Option<SharedRequest>
        ensures same { self.new ≡ self.old }
        ensures shared { IfSome result (λ r. self.old.seen.entry ≡ entry_of self.old.seen.entry.ticket r) }
    {
        if let Some(request) = self.request.take() {
            match SharedRequest::new(alloc, request) {
                Ok(shared) => self.shared = Some(shared),
                Err(back) => {
                    self.request = Some(back);
                    return None;
                }
            }
        }
        match &self.shared {
            Some(shared) => shared.again(),
            None => None,
        }
    }

    /// Returns the driver's identifier of the command.
    pub fn id(&self) -> u64
        ensures { result ≡ self.now.seen.entry.id }
    {
        match self.request() {
            Some(request) => request.id(),
            None => 0,
        }
    }

    /// Returns when it may run beside others.
    pub fn attribute(&self) -> TaskAttribute
        ensures { result ≡ self.now.seen.entry.attribute }
    {
        match self.request() {
            Some(request) => request.attribute(),
            None => TaskAttribute::Simple,
        }
    }

    /// Returns the command.
    pub fn command(&self) -> Command
        ensures { result ≡ self.now.seen.entry.command }
    {
        match self.request() {
            Some(request) => request.command(),
            None => Command::TestUnitReady,
        }
    }

    /// Returns true if the command asks for the medium itself.
    pub fn asks_medium(&self) -> bool
        ensures { result ≡ self.now.seen.entry.asks_medium }
    {
        match self.request() {
            Some(request) => request.asks_medium(),
            None => false,
        }
    }

    /// Returns the data that the command takes from the driver: exactly as many bytes as it needs.
    pub fn data(&self) -> &[u8]
        ensures data { result.now ≡ self.now.seen.entry.data_out }
        ensures len { length result.now ≡ (need_of self.now.seen.entry.command).out }
    {
        match self.request() {
            Some(request) => request.data(),
            None => &[],
        }
    }

    /// Returns how many steps its unit's history had when it entered.
    pub fn place(&self) -> u64
        ensures { result ≡ self.now.seen.place }
    {
        self.place
    }

    /// Returns true if it may run (SAM-5 §8.6): once nothing blocks it, it may from then on.
    pub fn is_enabled(&self) -> bool
        ensures { result ≡ self.now.seen.enabled }
    {
        self.enabled
    }

    /// Returns true if its command ran, or was answered BUSY (SAM-5 §5.3.1).
    pub fn is_done(&self) -> bool
        ensures { result ≡ self.now.seen.done }
    {
        self.done
    }

    /// Returns true if its command ran, and ended with GOOD.
    pub fn has_ended_well(&self) -> bool
        ensures { result ≡ self.now.seen.ended_well }
    {
        self.ended_well
    }

    /// Returns why it ends without having run; `None` where it runs.
    pub fn mark(&self) -> Option<Reason>
        ensures { result ≡ self.now.seen.mark }
    {
        self.mark
    }

    /// Returns true if a rule meets it.
    pub(crate) fn is_met(&self, rule: Rule) -> bool
        ensures { result ≡ meets rule self.now.seen.entry }
    {
        match rule {
            Rule::Id(id) => self.id() == id,
            Rule::All => true,
        }
    }

    /// Makes a task that enters at this place of its unit's history and may run, and its job.
    pub(crate) fn enabled(arrival: Arrival, place: u64) -> (Task, Job)
        ensures task { result.0 ≡ record {
          seen = record { entry = arrival.entry; enabled = true; done = false; ended_well = false; mark = None; place = place };
          parked = None;
        } }
        ensures job { result.1 ≡ arrival }
    {
        let (job, request) = arrival.into_parts();
        let task = Task {
            ticket: job.ticket(),
            request: Some(request),
            shared: None,
            enabled: true,
            done: false,
            ended_well: false,
            mark: None,
            place,
            parked: None,
        };
        (task, job)
    }

    /// Makes a task that enters at this place of its unit's history and waits, with its job.
    pub(crate) fn waiting(arrival: Arrival, place: u64) -> Task
        ensures { result ≡ record {
          seen = record { entry = arrival.entry; enabled = false; done = false; ended_well = false; mark = None; place = place };
          parked = Some arrival;
        } }
    {
        let (job, request) = arrival.into_parts();
        Task {
            ticket: job.ticket(),
            request: Some(request),
            shared: None,
            enabled: false,
            done: false,
            ended_well: false,
            mark: None,
            place,
            parked: Some(job),
        }
    }

    /// Tells that the command of this ticket ran, and ended with GOOD where `well` is true, or was answered BUSY.
    pub(crate) fn finish(&mut self, ticket: Ticket, well: bool)
        ensures { self.new ≡ moved (finished ticket well) self.old }
    {
        if ticket == self.ticket {
            self.done = true;
            if well {
                self.ended_well = true;
            }
        }
    }

    /// Marks it where the rule meets it and it isn't done, and hands it out where it was parked.
    pub(crate) fn mark_by(&mut self, rule: Rule, reason: Reason, out: &mut JobList)
        requires { length out.old.jobs < out.old.limit }
        ensures task { self.new ≡ moved (with_mark rule reason) self.old }
        ensures out { out.new ≡ record out.old {
          jobs = out.old.jobs ++ option_to_list (given (with_mark rule reason) self.old);
        } }
        ensures room { length out.new.jobs ≤ length out.old.jobs + 1 }
    {
        if self.mark.is_none() && self.is_met(rule) && !self.done {
            self.mark = Some(reason);
            if let Some(job) = self.parked.take() {
                out.push(job);
            }
        }
    }

    /// Lets it run, unless something blocks it, and hands it out where it was parked.
    pub(crate) fn enable_unless(&mut self, blocked: bool, out: &mut JobList)
        requires { length out.old.jobs < out.old.limit }
        ensures task { self.new ≡ moved (enabled_unless blocked) self.old }
        ensures out { out.new ≡ record out.old {
          jobs = out.old.jobs ++ option_to_list (given (enabled_unless blocked) self.old);
        } }
        ensures room { length out.new.jobs ≤ length out.old.jobs + 1 }
    {
        if self.enabled || blocked {
            return;
        }
        self.enabled = true;
        if let Some(job) = self.parked.take() {
            out.push(job);
        }
    }
}
