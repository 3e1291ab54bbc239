//! Replies that aren't told before the host's storage has what their commands changed.

use crate::flushing::is_through;
use crate::outcomes::{Outcome, Receipt};
use crate::pages::PreparedWrite;
use crate::turn::is_as_asked;
use crate::unit::UnitState;
use block_commands::changes_medium;
use block_store::Prepared;
use cdb::Command;
use command_model::Reply;
use ring_core::Ticket;
use task_set::Job;

impl UnitState {
    ghost use Rattle.std.specs.Prelude.{◌≡◌, ◌⊎◌, true, false, IsTrue, IsFalse, IfSome, IfNone, IsSome};
    ghost use Rattle.cdb.specs.Need.{need_of};
    ghost use Rattle.unit_model.specs.Steps.{done};
    ghost use Rattle.unit_model.specs.Lawful.{IsReady};
    ghost use Rattle.unit_model.specs.Unit.{is_backed};
    ghost use Rattle.unit_model.specs.Asking.{IsNotWithheld};
    ghost use Rattle.unit_model.specs.Flushing.{IsThrough};
    ghost use Rattle.logical_unit.specs.Calls.{Commits, Waits, Withholds, Concludes};
    ghost use Rattle.logical_unit.specs.Endings.{FitsNeed};
    ghost use Rattle.logical_unit.specs.Inner.Calls.{writes_through, IsHeldBack};

    /// Returns true if a command is told of GOOD only once the host's storage has what it changed: it may change blocks, the
    /// unit's disk is backed, and the unit tells of no volatile write cache, or the command asks for the medium (FUA).
    #[inline(always)]
    pub(crate) fn writes_through(&self, asks_medium: bool, command: &Command) -> bool
        ensures { result ≡ writes_through self.now asks_medium command.now }
    {
        !self.store.is_resident()
            && (!self.facts.cache_told() || asks_medium)
            && changes_medium(command)
    }

    /// Returns true if the command of a job's task ran, and ended with GOOD: its reply is withheld, where it writes through.
    fn has_ended_well(&self, job: &Job) -> bool
        ensures yes { IsTrue result → writes_through self.now job.now.entry.asks_medium job.now.entry.command ≡ true →
            IsHeldBack self.now job.now }
        ensures no { IsFalse result → IsNotWithheld job.now self.now }
    {
        match self.tasks.task(job.ticket()) {
            Some(task) => is_as_asked(task, job) && task.has_ended_well(),
            None => false,
        }
    }

    /// Returns true if the host's storage has what the command of a ticket changed, which ran, and all that was changed before.
    fn is_through(&mut self, ticket: Ticket) -> bool
        requires ran { done ticket self.old.steps ≡ true }
        ensures same { self.new ≡ self.old }
        ensures through { IsTrue result → IfSome self.old.storage (λ l. IsThrough self.old.opening self.old.steps l ticket) }
    {
        match self.tasks.task(ticket) {
            Some(task) => is_through(&mut self.fence, &mut self.store, ticket, task.place()),
            None => false,
        }
    }

    /// Tells the reply that was withheld of a job's task, once the host's storage has what its command changed. Its receipt has the
    /// place at which it is told. `None` until then.
    fn conclude(&mut self, job: &Job) -> Option<Outcome>
        requires { IsHeldBack self.old job.now }
        ensures step { IfSome result (λ outcome. Concludes self.old job.now outcome self.new) }
        ensures fits { IfSome result (λ outcome. FitsNeed (need_of job.now.entry.command).into outcome) }
        ensures waits { IfNone result (Waits self.old job.now self.new) }
    {
        let ticket = job.ticket();
        if !self.is_through(ticket) {
            return None;
        }
        let reply = Reply::success(&job.command(), Vec::new(self.alloc));
        Some(Outcome::Reply(Receipt::new(self.facts.address, self.log.len(), ticket, reply)))
    }

    /// Commits a job as [`UnitState::commit_ready`] does, but for one whose command writes through: it waits, with nothing
    /// changed. Called for a job whose task may run, where no list of those that wait is at hand.
    #[inline(always)]
    pub fn commit_at_once(&mut self, job: &Job) -> Option<Outcome>
        requires { IsReady job.now.entry.ticket job.now.entry self.old.steps }
        ensures step { IfSome result (λ outcome. Commits self.old job.now outcome self.new) }
        ensures fits { IfSome result (λ outcome. FitsNeed (need_of job.now.entry.command).into outcome) }
        ensures waits { IfNone result (Waits self.old job.now self.new) }
        ensures whole { is_backed self.old ≡ false → IsSome result }
    {
        if self.writes_through(job.asks_medium(), &job.command()) {
            return None;
        }
        self.run_ready(job, None, &mut None)
    }

    /// Commits a job as [`UnitState::commit_ready`] does, whose command writes through.
    // Not inlined: a request on a disk that isn't backed would pay for its locals.
    #[inline(never)]
    pub(crate) fn commit_through(
        &mut self,
        job: &Job,
        prepared: Option<PreparedWrite>,
        spare: &mut Option<Prepared>,
    ) -> Option<Outcome>
        requires through { writes_through self.old job.now.entry.asks_medium job.now.entry.command ≡ true }
        ensures step { IfSome result (λ outcome. Commits self.old job.now outcome self.new ⊎ Concludes self.old job.now outcome self.new) }
        ensures fits { IfSome result (λ outcome. FitsNeed (need_of job.now.entry.command).into outcome) }
        ensures waits { IfNone result (Waits self.old job.now self.new ⊎ Withholds self.old job.now self.new) }
    {
        if self.has_ended_well(job) {
            return self.conclude(job);
        }
        let outcome = self.run_ready(job, prepared, spare)?;
        if !outcome.ends_well() {
            return Some(outcome);
        }
        if self.is_through(job.ticket()) {
            return Some(outcome);
        }
        None
    }
}
