//! The tasks of a logical unit that are alive.

ghost use Rattle.std.specs.Prelude.{◌≡◌, ◌+◌, ◌<◌, ◌≤◌, ◌++◌, ◌∷◌, [], length, map, slice_get, None, OnOk, OnErr, IfOk, IfErr, IfSome};
ghost use Rattle.std.specs.Option.{option_copied, option_map};
ghost use Rattle.unit_model.specs.Tasks.{entry_of, task_of};
ghost use Rattle.unit_model.specs.Seen.{any_met, any_before, finished, with_mark, freed};
ghost use Rattle.task_set.specs.Tasks.{PlainTask};
ghost use Rattle.task_set.specs.Inner.Tasks.{entries_of, seen_of, moved, all_given, task_at, without, entering, run_at_once, may_run};

use crate::blocking::block_next;
use crate::job::{Arrival, Job, JobList};
use crate::shared::SharedRequest;
use crate::task::Task;
use crate::walks::{finish_all, free_all, has_met, has_met_before, index_of, mark_all};
use arrayvec::ArrayVec;
use ring_core::Ticket;
use std::alloc::Global;
use std::marker::Model;
use unit_model::{Reason, Rule};

/// The most tasks of a logical unit that are alive at once.
pub const MOST_TASKS: usize = 64;

/// The job of a task that can't enter, since 64 are alive. Its data were let go, and it is to be answered with TASK SET
/// FULL (SAM-5 §5.3.1).
#[derive(Drop)]
pub struct Full(pub Job);

/// The tasks of a logical unit that are alive, by order of entry (SAM-5 §8.1). Clauses see it as that list. No call
/// takes memory.
#[derive(Drop)]
pub struct TaskSet {
    tasks: ArrayVec<Task, MOST_TASKS>,
}

impl Model for TaskSet {
    ghost use Rattle.std.specs.Prelude.{List};
    ghost use Rattle.unit_model.specs.Tasks.{AreDistinct};
    ghost use Rattle.task_set.specs.Tasks.{PlainTask};
    ghost use Rattle.task_set.specs.Inner.Tasks.{entries_of};

    ghost Value = { List PlainTask };

    ghost view = { λ s. s.tasks.items };

    ghost invariant = { λ s. AreDistinct (entries_of s.tasks.items) };
}

impl TaskSet {
    /// Makes a set in which no task is alive. Called once, where a unit is made.
    pub fn new() -> TaskSet
        ensures { result ≡ [] }
    {
        TaskSet {
            tasks: ArrayVec::new(),
        }
    }

    /// Returns how many tasks are alive, 0 to 64.
    pub fn len(&self) -> usize
        ensures value { result ≡ length self.now }
        ensures most { result ≤ 64 }
    {
        self.tasks.len()
    }

    /// Returns the ticket of a task by its index in the order of entry; `None` where fewer are alive.
    pub fn ticket_at(&self, index: usize) -> Option<Ticket>
        ensures { result ≡ option_map (λ e. e.ticket) (slice_get (entries_of self.now) index) }
    {
        match self.tasks.get(index) {
            None => None,
            Some(task) => Some(task.ticket()),
        }
    }

    /// Returns the task of a ticket; `None` where it isn't alive.
    pub fn task(&self, ticket: Ticket) -> Option<&Task>
        ensures { option_copied result ≡ task_at ticket self.now }
    {
        let tasks = self.tasks.as_slice();
        let index = index_of(tasks, ticket)?;
        Some(&tasks[index])
    }

    /// Shares the request of the task of a ticket. Called in the hold of the unit's lock, by a thread that is to
    /// prepare the pages of its write. `None` where it isn't alive, or memory was refused.
    pub fn share(&mut self, ticket: Ticket, alloc: Global) -> Option<SharedRequest>
        ensures same { self.new ≡ self.old }
        ensures shared { IfSome result (λ r. IfSome (task_at ticket self.old) (λ t. t.seen.entry ≡ entry_of t.seen.entry.ticket r)) }
    {
        let tasks = self.tasks.as_mut_slice();
        let index = index_of(tasks, ticket)?;
        tasks[index].share(alloc)
    }

    /// Returns true if the task of a ticket may run (SAM-5 §8.6); `false` where it isn't alive. For callers
    /// that hold a task set alone: a unit asks the task itself.
    pub fn is_enabled(&self, ticket: Ticket) -> bool
        ensures { result ≡ may_run (task_at ticket self.now) }
    {
        match self.task(ticket) {
            Some(task) => task.is_enabled(),
            None => false,
        }
    }

    /// Enters a task at this place of its unit's history (SAM-5 §8.6). Its job is given back where nothing blocks it,
    /// and else parked. Called for a request that came to its unit, under a ticket of which no task is alive. `Full`
    /// exactly where 64 are alive, whatever its attribute; nothing changes then.
    pub fn enter(&mut self, arrival: Arrival, place: u64) -> Result<Option<Job>, Full>
        requires fresh { task_of arrival.entry.ticket (entries_of self.old) ≡ None }
        ensures ok { OnOk result
            ((length self.old < 64) × (self.new ≡ self.old ++ entering place self.old arrival ∷ [])) }
        ensures job { IfOk result (λ job. job ≡ run_at_once self.old arrival) }
        ensures err { OnErr result ((length self.old ≡ 64) × (self.new ≡ self.old)) }
        ensures full { IfErr result (λ full. full.0 ≡ arrival) }
    {
        if self.tasks.is_full() {
            return Err(Full(arrival.into_job()));
        }
        if block_next(self.tasks.as_slice(), arrival.request().attribute()) {
            self.tasks.push(Task::waiting(arrival, place));
            return Ok(None);
        }
        let (task, job) = Task::enabled(arrival, place);
        self.tasks.push(task);
        Ok(Some(job))
    }

    /// Tells that the command of this ticket ran, and ended with GOOD where `well` is true, or was answered BUSY: from here on
    /// no abort marks its task. Nothing changes where no task of it is alive.
    pub fn finish(&mut self, ticket: Ticket, well: bool)
        ensures { self.new ≡ map (moved (finished ticket well)) self.old }
    {
        finish_all(self.tasks.as_mut_slice(), ticket, well);
    }

    /// Marks each task that the rule meets and that is neither done nor marked: it ends for this reason, without having
    /// run (SAM-5 §7.2, §7.3, §7.5 to §7.7). The jobs of those that were parked go to `out` by order of entry, to be
    /// answered. Called for each abort and reset of the unit.
    pub fn mark(&mut self, rule: Rule, reason: Reason, out: &mut JobList)
        requires { length out.old.jobs + length self.old ≤ out.old.limit }
        ensures tasks { self.new ≡ map (moved (with_mark rule reason)) self.old }
        ensures out { out.new ≡ record out.old { jobs = out.old.jobs ++ all_given (with_mark rule reason) self.old } }
    {
        mark_all(self.tasks.as_mut_slice(), rule, reason, out);
    }

    /// Removes the task of this ticket, if it is alive.
    fn remove(&mut self, ticket: Ticket)
        ensures { self.new ≡ without ticket self.old }
    {
        if let Some(index) = index_of(self.tasks.as_slice(), ticket) {
            drop(self.tasks.remove(index));
        }
    }

    /// Removes the task of this ticket, once its answer is written. Those that the others don't block may run from here
    /// on, and the jobs of such as were parked go to `out` by order of entry.
    pub fn leave(&mut self, ticket: Ticket, out: &mut JobList)
        requires { length out.old.jobs + length self.old ≤ out.old.limit }
        ensures tasks { let rest = without ticket self.old in self.new ≡ map (moved (freed (entries_of rest))) rest }
        ensures out { let rest = without ticket self.old in
            out.new ≡ record out.old { jobs = out.old.jobs ++ all_given (freed (entries_of rest)) rest } }
    {
        self.remove(ticket);
        free_all(self.tasks.as_mut_slice(), out);
    }

    /// Returns true if the rule meets a task, done and marked ones too.
    pub fn is_met(&self, rule: Rule) -> bool
        ensures { result ≡ any_met rule (entries_of self.now) }
    {
        has_met(self.tasks.as_slice(), rule)
    }

    /// Returns true if the rule meets a task that entered before this place of the unit's history. Asked after an abort
    /// or a reset, until the tasks that it met have left.
    pub fn is_met_before(&self, place: u64, rule: Rule) -> bool
        ensures { result ≡ any_before place rule (seen_of self.now) }
    {
        has_met_before(self.tasks.as_slice(), place, rule)
    }
}
