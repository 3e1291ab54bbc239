//! The run of a task's command on its unit.

ghost use Rattle.std.specs.Prelude.{◌≡◌, ◌⊎◌, ◌+◌, ◌<◌, ◌≤◌, ◌∷◌, ℕ, false, length, map, IfSome, IfNone, IsSome};
ghost use Rattle.std.specs.Option.{option_map};
ghost use Rattle.cdb.specs.Need.{need_of};
ghost use Rattle.logical_unit.specs.Endings.{FitsNeed};
ghost use Rattle.unit_model.specs.Seen.{finished};
ghost use Rattle.task_set.specs.Inner.Tasks.{moved};
ghost use Rattle.logical_unit.specs.Inner.Performing.{IsKeptReply, performed_of, ran_well, step_for};
ghost use Rattle.logical_unit.specs.Inner.Outcomes.{outcome_for};

use crate::failing::fail_flush;
use crate::flushing::has_to_wait;
use crate::outcomes::{Outcome, Receipt};
use crate::pages::{PreparedWrite, StartedWrite, pages_for};
use crate::performing::{Performed, perform_if_ready};
use crate::turn::{Turn, turn_of};
use crate::unit::UnitState;
use block_store::{Prepared, Store};
use cdb::Command;
use command_model::{GOOD, Reply};
use foundation::NoMemory;
use ring_core::Ticket;
use scsi_codec::Address;
use task_set::{Job, TaskSet};
use unit_log::{RecordedReply, RecordedStep, StepLog};

/// The largest reply buffer kept from one command for the next, in bytes.
const MOST_ROOM: usize = 4096;

/// The most blocks whose pages are kept from one WRITE for the next: 128 KiB.
const MOST_SPARE_BLOCKS: u32 = 256;

/// Keeps the larger of two buffers for the data of the next reply, up to `MOST_ROOM` bytes.
#[inline(always)]
pub(crate) fn keep_larger(room: &mut Vec<u8>, reply: Reply) {
    let Reply { payload, .. } = reply;
    if payload.capacity() > room.capacity() && payload.capacity() <= MOST_ROOM {
        *room = payload;
    }
}

/// Keeps pages that a commit left over for the next WRITE that is prepared, where none are kept and these aren't many.
#[inline(always)]
fn keep_pages(kept: &mut Option<Prepared>, left_over: &mut Option<Prepared>) {
    let Some(pages) = left_over else {
        return;
    };
    if kept.is_none() && pages.count() <= MOST_SPARE_BLOCKS {
        *kept = left_over.take();
    }
}

/// Records what became of a command that was to run.
#[inline(always)]
fn record_run(
    log: &mut StepLog,
    tasks: &mut TaskSet,
    unit: Address,
    ticket: Ticket,
    performed: Option<Performed>,
) -> Outcome
    requires room { 0 < log.old.room }
    requires kept { IsKeptReply log.old.keeps (option_map performed_of performed) }
    ensures outcome { result ≡ outcome_for unit (length log.old.steps) ticket (option_map performed_of performed) }
    ensures steps { log.new.steps ≡ step_for ticket (option_map performed_of performed) ∷ log.old.steps }
    ensures keeps { log.new.keeps ≡ log.old.keeps }
    ensures room { log.old.room ≤ log.new.room + 1 }
    ensures base { log.new.base ≡ log.old.base }
    ensures forgotten { log.new.forgotten ≡ log.old.forgotten }
    ensures tasks { tasks.new ≡ map (moved (finished ticket (ran_well (option_map performed_of performed)))) tasks.old }
    ensures fits { (room : ℕ) → IfSome performed (λ p. length p.reply.payload.items ≤ room) → FitsNeed room result }
{
    let place = log.len();
    match performed {
        None => {
            tasks.finish(ticket, false);
            log.push(RecordedStep::Busy(ticket), None);
            Outcome::Busy
        }
        Some(Performed { reply, kept }) => {
            tasks.finish(ticket, reply.status == GOOD);
            log.push(
                RecordedStep::Commit(ticket, RecordedReply::of(&reply)),
                kept,
            );
            Outcome::Reply(Receipt::new(unit, place, ticket, reply))
        }
    }
}

impl UnitState {
    ghost use Rattle.unit_model.specs.Unit.{is_backed};
    ghost use Rattle.logical_unit.specs.Calls.{Commits, Waits, Withholds, Concludes};
    ghost use Rattle.logical_unit.specs.Inner.Calls.{Runs};

    /// Runs the command of a job's task whole, in one hold of the unit's lock. Tested first to last: `Unknown`; the
    /// mark, which answers `Aborted`; `Busy`, where memory was refused to the command itself, or to the copy of its
    /// reply. The copy is made where replies are kept and its data are short enough. The unit's disk isn't backed.
    #[inline(always)]
    pub fn commit(&mut self, job: &Job) -> Outcome
        requires { is_backed self.old ≡ false }
        ensures step { Commits self.old job.now result self.new }
        ensures fits { FitsNeed (need_of job.now.entry.command).into result }
    {
        self.commit_with(job, None, &mut None)
    }

    /// Copies what the pages of a job's WRITE need, in one hold of the unit's lock: the pages that its range covers in
    /// part. Takes the unit's spare pages out for the others. The thread that has the job calls it before it commits
    /// that, makes the pages with no lock held, and gives them to [`UnitState::commit_with`]. `None` where the job's
    /// task couldn't run now, its command isn't a WRITE of blocks below the capacity, or memory was refused: then it is
    /// committed without pages.
    pub fn start_pages(&mut self, job: &Job) -> Option<StartedWrite>
        ensures { self.new ≡ self.old }
    {
        let ticket = job.ticket();
        let Turn::Ready = turn_of(self.tasks.task(ticket)?, job) else {
            return None;
        };
        let request = self.tasks.share(ticket, self.alloc)?;
        match request.command() {
            Command::Write { lba, blocks } => {
                let capacity = self.store.capacity();
                if lba > capacity || u64::from(blocks) > capacity - lba {
                    return None;
                }
                match self.store.edges(lba, u32::from(blocks)) {
                    Ok(Some(edges)) => {
                        Some(StartedWrite::new(edges, self.spare_pages.take(), request))
                    }
                    Ok(None) | Err(NoMemory) => None,
                }
            }
            _ => None,
        }
    }

    /// Runs the command of a job's task as [`UnitState::commit`] does, with the pages of its WRITE, if they were made.
    /// They are put in place where they are of this very command and its data and nothing beside its range has changed
    /// in them since; else the command writes its blocks as ever. The unit keeps the pages that aren't used any more
    /// for the next WRITE that is prepared, where it has none and they aren't many. Else they come to stand in `spare`,
    /// to be freed behind the hold of the unit's lock.
    pub fn commit_with(
        &mut self,
        job: &Job,
        prepared: Option<PreparedWrite>,
        spare: &mut Option<Prepared>,
    ) -> Outcome
        requires { is_backed self.old ≡ false }
        ensures step { Commits self.old job.now result self.new }
        ensures fits { FitsNeed (need_of job.now.entry.command).into result }
    {
        match self.commit_ready(job, prepared, spare) {
            Some(outcome) => outcome,
            None => unreachable!(),
        }
    }

    /// Runs the command of a job's task as [`UnitState::commit_with`] does, if the pages that it needs of its disk are in
    /// memory. Else the host is asked for each of them at once, and the command waits: `None`, with nothing changed. Where
    /// there is no room for them, clean pages go that aren't those of the command that has waited for the longest. So does
    /// a flush, until the host's storage has each change of the disk that was made before it was tried first, and one that comes
    /// while another waits; and a READ that asks for the medium (FUA, SBC-3 §5.11), until the storage has its blocks as they are. A
    /// task that is marked, and one that may not run, never waits. Nor does a command on a disk that isn't backed, nor one that
    /// needs no block and is no flush.
    ///
    /// A flush that waits, and a READ that does for what was changed, ends with MEDIUM ERROR where the host can't write a page that
    /// it flushes.
    ///
    /// Where the disk is backed, and the unit tells of no volatile write cache (SBC-3 §6.5), or the command asks for the medium
    /// (FUA, SBC-3 §5.33), a command that may change blocks is told of GOOD only once the host's storage has all that was
    /// changed by then: its command ran, and `None` until that is so. The caller tries the job again.
    #[inline(always)]
    pub fn commit_ready(
        &mut self,
        job: &Job,
        prepared: Option<PreparedWrite>,
        spare: &mut Option<Prepared>,
    ) -> Option<Outcome>
        ensures step { IfSome result (λ outcome. Commits self.old job.now outcome self.new ⊎ Concludes self.old job.now outcome self.new) }
        ensures fits { IfSome result (λ outcome. FitsNeed (need_of job.now.entry.command).into outcome) }
        ensures waits { IfNone result (Waits self.old job.now self.new ⊎ Withholds self.old job.now self.new) }
        ensures whole { is_backed self.old ≡ false → IsSome result }
    {
        if self.writes_through(job.asks_medium(), &job.command()) {
            return self.commit_through(job, prepared, spare);
        }
        self.run_ready(job, prepared, spare)
    }

    /// Runs the command of a job's task as [`UnitState::commit_ready`] does, but for when its reply may be told.
    #[inline(always)]
    pub(crate) fn run_ready(
        &mut self,
        job: &Job,
        prepared: Option<PreparedWrite>,
        spare: &mut Option<Prepared>,
    ) -> Option<Outcome>
        ensures step { IfSome result (λ outcome. Runs self.old job.now outcome self.new) }
        ensures fits { IfSome result (λ outcome. FitsNeed (need_of job.now.entry.command).into outcome) }
        ensures waits { IfNone result (Waits self.old job.now self.new) }
        ensures whole { is_backed self.old ≡ false → IsSome result }
    {
        let ticket = job.ticket();
        let Some(task) = self.tasks.task(ticket) else {
            return Some(Outcome::Unknown);
        };
        match turn_of(task, job) {
            Turn::Unknown => Some(Outcome::Unknown),
            Turn::Aborted(reason) => Some(Outcome::Aborted(reason)),
            Turn::Ready => {
                let unit = self.facts.address;
                let command = task.command();
                let asks_medium = task.asks_medium();
                let keeps = self.log.keeps_replies();
                if has_to_wait(
                    &mut self.fence,
                    &mut self.store,
                    asks_medium,
                    &command,
                    ticket,
                    task.place(),
                ) {
                    let Some(failed) = fail_flush(
                        self.alloc,
                        &mut self.facts,
                        &mut self.attentions,
                        &mut self.store,
                        &mut self.fence,
                        &mut self.oldest,
                        asks_medium,
                        &command,
                        keeps,
                        ticket,
                    ) else {
                        return None;
                    };
                    let outcome = record_run(
                        &mut self.log,
                        &mut self.tasks,
                        unit,
                        ticket,
                        Some(failed),
                    );
                    return Some(outcome);
                }
                let bytes = task.data();
                let pages = pages_for(prepared, task);
                let Ok(performed) = perform_if_ready(
                    self.alloc,
                    &mut self.room,
                    &mut self.facts,
                    &mut self.attentions,
                    &mut self.store,
                    &command,
                    bytes,
                    pages,
                    spare,
                    keeps,
                    &mut self.oldest,
                    ticket,
                ) else {
                    return None;
                };
                self.changes
                    .note_command(&command, bytes, self.store.capacity(), self.log.len());
                keep_pages(&mut self.spare_pages, spare);
                Some(record_run(&mut self.log, &mut self.tasks, unit, ticket, performed))
            }
        }
    }

    /// Keeps the room of a reply's data for a later command of the unit, where it isn't much. A phase that has answered
    /// by what came of a commit, and needs it no more, gives it back so.
    pub fn keep_room(&mut self, outcome: Outcome)
        ensures { self.new ≡ self.old }
    {
        if let Some(reply) = outcome.into_reply() {
            keep_larger(&mut self.room, reply);
        }
    }
}
