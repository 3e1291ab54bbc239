//! A logical unit.

ghost use Rattle.std.specs.Prelude.{ℕ, ◌≡◌, ◌≢◌, ◌+◌, ◌-◌, ◌<◌, ◌≤◌, length, nat_lt, OnOk, OnErr, IsTrue, IsFalse, if◌then◌else◌};
ghost use Rattle.block_store.specs.Blocks.{zero_block};
ghost use Rattle.backed_store.specs.Disks.{size_of, blocks_of, storage_of};
ghost use Rattle.unit_model.specs.Base.{most_before};
ghost use Rattle.unit_model.specs.Contents.{is_capacity as may_have};
ghost use Rattle.task_set.specs.Inner.Tasks.{seen_of};
ghost use Rattle.logical_unit.specs.Inner.Parts.{AreClear};
ghost use Rattle.unit_log.specs.Recorded.{most_steps};
ghost use Rattle.logical_unit.specs.Disks.{storage_over};

use crate::changes::Changes;
use crate::flushing::{Fence, give_up};
use crate::making_room::{OldestWaiting, forget};
use crate::outcomes::{Entered, ResizeFault, Unknown};
use crate::performing::attentions_at_start;
use crate::turn::is_ended;
use backed_store::Disk;
use block_commands::UnitFacts;
use block_store::{PagedStore, Prepared, Store};
use foundation::{NoMemory, Record};
use request_intake::UnitSpec;
use ring_core::Answered;
use std::alloc::{AllocError, Global};
use std::marker::Model;
use task_set::{Arrival, Full, JobList, TaskSet};
use unit_attention::{Attentions, Code};
use unit_log::{LastTickets, RecordedEntry, RecordedStep, StepLog};
use unit_model::{Reason, Rule};

/// The place of a step in a unit's history: the number of steps before it.
pub type Place = u64;

/// The most blocks of a unit.
const MOST_BLOCKS: u64 = 1 << 40;

/// A logical unit: its history, which proofs alone see whole, and what follows from it.
#[derive(Drop)]
pub struct UnitState {
    pub(crate) alloc: Global,
    // The pending attention in them is set before each command.
    pub(crate) facts: UnitFacts,
    pub(crate) calm: bool,
    pub(crate) attentions: Attentions,
    pub(crate) store: Disk,
    // The disk that was handed in at the opening, as it was then.
    pub(crate) opened: Record<Disk>,
    pub(crate) opening_blocks: u64,
    pub(crate) tasks: TaskSet,
    pub(crate) log: StepLog,
    pub(crate) last_tickets: LastTickets,
    // The flush that waits, if one does.
    pub(crate) fence: Option<Fence>,
    // The command that has waited for pages for the longest, if one does.
    pub(crate) oldest: Option<OldestWaiting>,
    // Room for the data of the next command that returns some.
    pub(crate) room: Vec<u8>,
    // Pages that a commit left over, at most one list of them. The next WRITE that is prepared puts its data over their
    // bytes, in place of memory of its own.
    pub(crate) spare_pages: Option<Prepared>,
    // The blocks that may have changed since somebody last asked.
    pub(crate) changes: Changes,
}

impl Model for UnitState {
    ghost use Rattle.unit_model.specs.Unit.{PlainUnit};

    ghost Value = { PlainUnit };

    ghost use Rattle.logical_unit.specs.Fields.{plain_unit};
    ghost use Rattle.logical_unit.specs.Inner.Fields.{IsTold};

    ghost view = { plain_unit };

    ghost invariant = { IsTold };
}

/// Returns the task that an arrival becomes, as the log sees it.
#[inline(always)]
pub(crate) fn recorded_entry(arrival: &Arrival) -> RecordedEntry
    ensures { result ≡ arrival.now.entry }
{
    RecordedEntry::new(arrival.ticket(), arrival.request())
}

/// Returns true if a unit of which commands are told this has the address that an arrival names.
#[inline(always)]
pub(crate) fn is_named(facts: &UnitFacts, arrival: &Arrival) -> bool
    ensures yes { IsTrue result → arrival.now.address ≡ facts.now.address }
    ensures no { IsFalse result → arrival.now.address ≢ facts.now.address }
{
    let _unit = facts.address.number();
    arrival.number() == facts.number
}

/// Returns true if a unit may have so many blocks: 1 to 2^40.
pub fn is_capacity(blocks: u64) -> bool
    ensures { result ≡ may_have blocks }
{
    1 <= blocks && blocks <= MOST_BLOCKS
}

/// Makes way in a unit's log for a step that brings more, and for those ahead. Forgets what the oldest folded Abort or
/// Reset met, where no task is alive that entered before it. Where memory was refused, the log says the same as before.
#[inline(always)]
pub(crate) fn make_way(log: &mut StepLog, tasks: &TaskSet) -> Result<(), AllocError>
    ensures steps { log.new.steps ≡ log.old.steps }
    ensures keeps { log.new.keeps ≡ log.old.keeps }
    ensures base { OnOk result (log.new.base ≡ length log.old.steps - most_before) }
    ensures room { OnOk result (129 ≤ log.new.room) }
    ensures limit { OnOk result (length log.old.steps < most_steps) }
    ensures kept { OnErr result ((log.new.base ≡ log.old.base) × (log.old.room ≤ log.new.room)) }
    ensures clear { AreClear log.old.forgotten log.old.steps (seen_of tasks.now) →
        AreClear log.new.forgotten log.old.steps (seen_of tasks.now) }
{
    forget_where_clear(log, tasks);
    log.make_way()
}

/// Forgets what the oldest folded Abort or Reset met, where no task is alive that entered before it.
#[inline(always)]
fn forget_where_clear(log: &mut StepLog, tasks: &TaskSet)
    ensures same { log.new ≡ record log.old { forgotten = log.new.forgotten } }
    ensures clear { AreClear log.old.forgotten log.old.steps (seen_of tasks.now) →
        AreClear log.new.forgotten log.old.steps (seen_of tasks.now) }
{
    match log.oldest_mark() {
        None => {}
        Some(place) => {
            if !tasks.is_met_before(place, Rule::All) {
                log.forget(place);
            }
        }
    }
}

/// Returns a disk without the bytes behind its end, which are no block of it.
fn cut_off(disk: Disk) -> Disk
    ensures size { size_of result ≡ size_of disk }
    ensures blocks { (b : ℕ) → blocks_of result b ≡ (if nat_lt b (size_of disk) then blocks_of disk b else zero_block) }
    ensures storage { storage_of result ≡ storage_over disk }
{
    let blocks = disk.capacity();
    match disk {
        Disk::Whole(mut store) => {
            store.resize(blocks);
            Disk::Whole(store)
        }
        Disk::Backed(mut disk) => {
            disk.resize(blocks);
            Disk::Backed(disk)
        }
    }
}

impl UnitState {
    ghost use Rattle.std.specs.Prelude.{◌≡◌, ◌+◌, ◌≤◌, [], false, length, IfOk, IfErr, OnOk, OnErr};
    ghost use Rattle.unit_attention.specs.Code.{IsKnown};
    ghost use Rattle.unit_model.specs.Tasks.{task_of};
    ghost use Rattle.unit_model.specs.Steps.{Step, alive};
    ghost use Rattle.unit_model.specs.Unit.{opening_unit, handing, Steps, IsUnit};
    ghost use Rattle.logical_unit.specs.Disks.{unit_over, IsDiskOf};
    ghost use Rattle.logical_unit.specs.Calls.{Enters, ResizeRefused, CannotLeave};

    /// Makes a unit as it is specified, with the LUNs of its target by rising number, of which no step was taken.
    /// Called once for each unit, where a device is opened. `keeps_replies` says whether the replies of its Commits are
    /// kept, for receipts to be compared with. Kept are the replies of its latest [`LATEST_KEPT`] steps that have at
    /// most [`LONGEST_KEPT`] bytes of data. `NoMemory` where the list of the LUNs was refused memory.
    pub fn new(
        alloc: Global,
        spec: &UnitSpec,
        luns: &[u16],
        keeps_replies: bool,
    ) -> Result<UnitState, NoMemory>
        requires { length luns.now ≤ 16384 }
        ensures { IfOk result (λ unit. unit ≡ opening_unit (record {
          target = spec.now.target;
          lun = spec.now.lun;
          luns = luns.now;
          blocks = spec.now.blocks;
          calm = spec.now.calm;
          content = [];
          profile = spec.now.profile;
          identity = spec.now.identity;
          backed = false;
        }) keeps_replies) }
    {
        let luns = Vec::from_slice(alloc, luns)?;
        Ok(UnitState {
            alloc,
            facts: UnitFacts {
                address: spec.address(),
                number: spec.address().number(),
                luns,
                pending: None,
                profile: spec.profile,
                identity: spec.identity,
                backed: false,
            },
            calm: spec.calm,
            attentions: attentions_at_start(spec.calm),
            store: Disk::Whole(PagedStore::new(alloc, spec.blocks)),
            opened: Record::new(),
            opening_blocks: spec.blocks,
            tasks: TaskSet::new(),
            log: StepLog::new(alloc, keeps_replies),
            last_tickets: LastTickets::new(alloc),
            fence: None,
            oldest: None,
            room: Vec::new(alloc),
            spare_pages: None,
            changes: Changes::since_place(0),
        })
    }

    /// Gives a unit of which no step was taken a disk in place of its zeros: the disk's blocks, and as many. Takes no
    /// memory. Called for a disk that outlives its device, as [`UnitState::into_disk`] gives it, or whose pages come and
    /// go. The host's storage of such a disk is cut off at the disk's end.
    pub fn hand_in(&mut self, disk: Disk)
        requires fresh { self.old.steps ≡ [] }
        ensures { self.new ≡ unit_over disk self.old }
    {
        self.opened = Record::new().and(&disk);
        self.opening_blocks = disk.capacity();
        self.facts.backed = !disk.is_resident();
        self.store = cut_off(disk);
        self.fence = None;
    }

    /// Returns a unit's disk, as its commands and resizes left it, with what the host's storage has. The rest of the unit is
    /// gone.
    pub fn into_disk(self) -> Disk
        ensures { IsDiskOf self result }
    {
        self.store
    }

    /// Shows what every unit is between calls: its history is lawful, and its parts are what follows from it.
    pub fn stands(&self)
        ensures { IsUnit self.now }
    {
        let _ = &self.alloc;
    }

    /// Enters the task of a request that was fetched, in one hold of the unit's lock (SAM-5 §8.6). Refusals are tested
    /// first to last: `Stale`, where it names another unit, or its ticket isn't above the last of its queue; `Busy`,
    /// where room for its steps was refused; `Full`, where 64 tasks are alive. After the first two nothing is changed.
    pub fn enter(&mut self, arrival: Arrival) -> Entered
        ensures { Enters self.old arrival result self.new }
    {
        if !is_named(&self.facts, &arrival) {
            return Entered::Stale(arrival.into_job());
        }
        let ticket = arrival.ticket();
        if self.last_tickets.is_stale(ticket) {
            return Entered::Stale(arrival.into_job());
        }
        let Ok(()) = self.last_tickets.reserve(ticket.queue) else {
            return Entered::Busy(arrival.into_job());
        };
        let Ok(()) = make_way(&mut self.log, &self.tasks) else {
            return Entered::Busy(arrival.into_job());
        };
        let place = self.log.len();
        let entered = recorded_entry(&arrival);
        self.last_tickets.came(ticket);
        match self.tasks.enter(arrival, place) {
            Err(Full(job)) => {
                self.log.push(RecordedStep::Full(ticket), None);
                Entered::Full(job)
            }
            Ok(job) => {
                self.log.push(RecordedStep::Enter(entered), None);
                Entered::of(job)
            }
        }
    }

    /// Marks each task that the rule meets and that neither ran nor was answered BUSY, and hands out those of them
    /// that were parked, which then end as aborted. Answers the place of the Abort. The list has room for 64 jobs, which
    /// the caller sees to. `NoMemory` where room for the step was refused, or 2^63 steps stand: all is as before then.
    pub fn abort(&mut self, rule: Rule, out: &mut JobList) -> Result<Place, NoMemory>
        requires { length out.old.jobs + 64 ≤ out.old.limit }
        ensures step { OnOk result (Steps self.old (Step.Abort rule) self.new) }
        ensures place { IfOk result (λ place. place ≡ length self.old.steps) }
        ensures out { OnOk result (out.new ≡ handing (Step.Abort rule) self.old out.old) }
        ensures err { OnErr result ((self.new ≡ self.old) × (out.new ≡ out.old)) }
    {
        make_way(&mut self.log, &self.tasks)?;
        let place = self.log.len();
        self.log.push(RecordedStep::Abort(rule), None);
        self.tasks.mark(rule, Reason::Aborted, out);
        Ok(place)
    }

    /// Resets the unit: marks all tasks as `abort` does, with the reason of a reset, and raises the code, which is one
    /// of the constants of [`Code`]. Answers the place of the Reset. The list has room for 64 jobs, which the caller sees
    /// to. `NoMemory` as of `abort`.
    pub fn reset(&mut self, code: Code, out: &mut JobList) -> Result<Place, NoMemory>
        requires known { IsKnown code }
        requires room { length out.old.jobs + 64 ≤ out.old.limit }
        ensures step { OnOk result (Steps self.old (Step.Reset code) self.new) }
        ensures place { IfOk result (λ place. place ≡ length self.old.steps) }
        ensures out { OnOk result (out.new ≡ handing (Step.Reset code) self.old out.old) }
        ensures err { OnErr result ((self.new ≡ self.old) × (out.new ≡ out.old)) }
    {
        make_way(&mut self.log, &self.tasks)?;
        let place = self.log.len();
        self.log.push(RecordedStep::Reset(code), None);
        self.attentions.raise(code);
        self.tasks.mark(Rule::All, Reason::Reset, out);
        Ok(place)
    }

    /// Gives the unit another capacity, in blocks of 512 bytes, and raises CAPACITY DATA HAS CHANGED (SPC-4 §4.5.6).
    /// The blocks above it are lost: where the unit grows again, they are zeros. Answers the place of the step.
    /// `BadCapacity` for 0 and for more than 2^40 blocks, `NoMemory` where way for the step couldn't be made; after
    /// both all is as before.
    pub fn resize(&mut self, blocks: u64) -> Result<Place, ResizeFault>
        ensures step { OnOk result (Steps self.old (Step.Resize blocks) self.new) }
        ensures place { IfOk result (λ place. place ≡ length self.old.steps) }
        ensures err { OnErr result (self.new ≡ self.old) }
        ensures cause { IfErr result (λ fault. ResizeRefused blocks fault) }
    {
        if !is_capacity(blocks) {
            return Err(ResizeFault::BadCapacity);
        }
        let Ok(()) = make_way(&mut self.log, &self.tasks) else {
            return Err(ResizeFault::NoMemory);
        };
        let place = self.log.len();
        self.changes
            .note_growth(self.store.capacity(), blocks, place);
        self.log.push(RecordedStep::Resize(blocks), None);
        self.attentions.raise(Code::CAPACITY_DATA_CHANGED);
        self.store.resize(blocks);
        Ok(place)
    }

    /// Has the task of a completed chain leave, and hands out what it alone blocked. It takes no memory. The list has
    /// room for 64 jobs, which the caller sees to. `Unknown`, with nothing changed, where no task of the ticket is alive,
    /// or it neither ran, nor was answered BUSY, nor was marked.
    // Apart, so that the registers of its caller aren't spilled for it.
    #[inline(never)]
    pub fn leave(&mut self, answered: Answered, out: &mut JobList) -> Result<(), Unknown>
        requires { length out.old.jobs + 64 ≤ out.old.limit }
        ensures step { OnOk result (Steps self.old (Step.Leave answered) self.new) }
        ensures out { OnOk result (out.new ≡ handing (Step.Leave answered) self.old out.old) }
        ensures err { OnErr result ((self.new ≡ self.old) × (out.new ≡ out.old)) }
        ensures unknown { OnErr result (CannotLeave (task_of answered (alive self.old.steps)) answered self.old.steps) }
    {
        let ticket = answered.ticket();
        let Some(task) = self.tasks.task(ticket) else {
            return Err(Unknown);
        };
        if !is_ended(task) {
            return Err(Unknown);
        }
        give_up(&mut self.fence, ticket);
        forget(&mut self.oldest, ticket);
        self.log.push(RecordedStep::Leave(ticket), None);
        self.tasks.leave(ticket, out);
        Ok(())
    }
}
