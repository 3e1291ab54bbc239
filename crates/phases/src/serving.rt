//! A request served at once: what the phases do of it one after another, with nothing put down between them.

ghost use Rattle.std.specs.Prelude.{◌≡◌, ◌≤◌, List, ℕ, length, true, IfSome, IfNone};
ghost use Rattle.ring_core.specs.State.{Owns};
ghost use Rattle.ring_core.specs.Writes.{stores_of};
ghost use Rattle.device_model.specs.Parts as plain;
ghost use Rattle.phases.specs.DoingUnit.{HasPlaces};
ghost use Rattle.phases.specs.Slots.{slot_of};
ghost use Rattle.phases.specs.Units.{Leaves};
ghost use Rattle.phases.specs.InMemory.{EachSeen};
ghost use Rattle.phases.specs.Inner.InMemory.{AnswersIn};
ghost use Rattle.phases.specs.Inner.ServingInMemory.{ServesIn};
ghost use Rattle.phases.specs.Inner.Outcomes.{WritesWholeIn};
ghost use Rattle.phases.specs.Inner.Stored.{ending_writes};
ghost use Rattle.phases.specs.Direct.{decided_writes};
ghost use Rattle.logical_unit.specs.Endings.{ending_of, FitsNeed};
ghost use Rattle.logical_unit.specs.Serving.{ServesAlone};
ghost use Rattle.cdb.specs.Need.{need_of};

use crate::direct_chain::DirectChain;
use crate::refusal::Refusal;
use crate::response::{write_outcome, write_run};
use crate::slot::Slot;
use backed_store::BlocksInPlace;
use command_model::Reply;
use foundation::{NoMemory, Record};
use guest_mem::WritableMemory;
use logical_unit::{Answering, Arrival, Entered, Job, JobList, Outcome, UnitState, Unknown};
use responses::write_read;
use ring_core::Answered;
use virtqueue::Queue;

/// Writes what answers a job over the writable parts of its chain, by what came of its commit.
#[inline(always)]
fn write_job<M: WritableMemory>(memory: &mut M, job: &Job, outcome: &Outcome) -> u32
    requires fits { M.extent memory.old ≡ job.now.chain.memory }
    requires payload { FitsNeed (need_of job.now.entry.command).into outcome.now }
    ensures written { WritesWholeIn job.now (ending_of outcome.now) (M.may_be memory.old) result (M.may_be memory.new) }
    ensures stores { M.stored memory.new
        ≡ M.storing (M.stored memory.old) (stores_of (ending_writes job.now (ending_of outcome.now))) }
    ensures size { M.extent memory.new ≡ M.extent memory.old }
{
    write_outcome(memory, job.chain(), &job.lengths(), outcome)
}

/// Answers a job by what came of its commit, and uses its chain.
#[inline(always)]
fn answer_job<M: WritableMemory>(
    queue: &mut Queue,
    memory: &mut M,
    job: Job,
    outcome: &Outcome,
) -> Answered
    requires fits { M.extent memory.old ≡ queue.old.ring.memory }
    requires owned { Owns queue.old.ring job.chain }
    requires payload { FitsNeed (need_of job.entry.command).into outcome.now }
    ensures ticket { result ≡ job.chain.ticket }
    ensures answers { EachSeen M.shared (M.may_be memory.old) (M.may_be memory.new)
        (λ found left seen. AnswersIn M.shared (plain.Hand.Done job (plain.Outcome.Ended (ending_of outcome.now)))
        queue.old found true queue.new left seen (plain.Hand.Answered job.unit job.chain.ticket)) }
    ensures stores { M.stored memory.new ≡ M.storing (M.stored memory.old)
        (stores_of (decided_writes queue.old.ring job.chain (plain.Outcome.Ended (ending_of outcome.now)))) }
    ensures size { M.extent memory.new ≡ M.extent memory.old }
    ensures reading { M.is_open memory.new }
    ensures room { M.has_room memory.new 60 }
{
    let len = write_job(memory, &job, outcome);
    queue.complete_in(memory, job.into_chain(), len)
}

/// Guest memory, where what answers a request is written, and how many bytes of it were.
#[derive(Drop)]
struct Answer<'a, M: WritableMemory> {
    memory: &'a mut M,
    len: u32,
}

impl<'a, M: WritableMemory> Answering for Answer<'a, M> {
    ghost may_answer = { λ s x. M.extent s.memory.now ≡ x.chain.memory };

    // It has the same memory afterwards.
    ghost answers = { λ s x e t. (t.memory.ghost_name ≡ s.memory.ghost_name)
        × (M.extent t.memory.now ≡ M.extent s.memory.now)
        × WritesWholeIn x e (M.may_be s.memory.now) t.len (M.may_be t.memory.now)
        × (M.stored t.memory.now ≡ M.storing (M.stored s.memory.now) (stores_of (ending_writes x e))) };

    #[inline(always)]
    fn answer(&mut self, arrival: &Arrival, ran: &Result<Reply, NoMemory>) {
        self.len = write_run(self.memory, arrival.chain(), &arrival.lengths(), ran);
    }

    #[inline(always)]
    fn answer_read(&mut self, arrival: &Arrival, blocks: BlocksInPlace<'_>) -> Record<u8> {
        let (len, recorded) = write_read(self.memory, arrival.chain(), &arrival.lengths(), blocks);
        self.len = len;
        recorded
    }
}

/// Has the task of a completed chain leave. Returns true if the unit knew it.
#[inline(always)]
fn leave(unit: &mut UnitState, answered: Answered, out: &mut JobList) -> bool
    requires { HasPlaces out.old }
    ensures { (unit_index : _) → Leaves (plain.Hand.Answered unit_index answered) unit.old out.old result
        unit.new plain.Hand.Empty out.new }
{
    match unit.leave(answered, out) {
        Ok(()) => true,
        Err(Unknown) => false,
    }
}

/// Serves a request in one call of its unit, where that may be, but for the use of its chain. Returns how many bytes
/// answer it; `None` where it may not be, with nothing changed.
#[inline(always)]
fn serve_alone<M: WritableMemory>(
    unit: &mut UnitState,
    memory: &mut M,
    arrival: &Arrival,
) -> Option<u32>
    requires fits { M.extent memory.old ≡ arrival.now.chain.memory }
    ensures serves { IfSome result (λ len.
        ServesAlone (λ e. WritesWholeIn arrival.now e (M.may_be memory.old) len (M.may_be memory.new)
        × (M.stored memory.new ≡ M.storing (M.stored memory.old) (stores_of (ending_writes arrival.now e))))
        unit.old arrival.now unit.new) }
    ensures size { M.extent memory.new ≡ M.extent memory.old }
    ensures same { IfNone result ((unit.new ≡ unit.old) × (memory.new ≡ memory.old)) }
{
    let mut answer = Answer { memory, len: 0 };
    if unit.serve_alone(arrival, &mut answer) {
        Some(answer.len)
    } else {
        None
    }
}

/// How far a request came that was brought to its unit.
#[derive(Clone, Copy)]
pub enum Brought {
    /// It was answered. True if its unit knew the task when that left.
    Answered(bool),
    /// It wasn't. Its task waits at its unit, its command for the unit's disk, or what refuses it stands in the slot. Or its
    /// command writes through, and is still to run.
    Waits,
}

/// Serves a request as [`serve_request`] does, by one call of its unit for each step.
#[inline(never)]
fn serve_by_steps<M: WritableMemory>(
    unit: &mut UnitState,
    queue: &mut Queue,
    memory: &mut M,
    slot: &mut Slot,
    arrival: Arrival,
    out: &mut JobList,
) -> Brought
    requires fits { M.extent memory.old ≡ queue.old.ring.memory }
    requires owned { Owns queue.old.ring arrival.chain }
    requires places { HasPlaces out.old }
    requires empty { slot_of slot.old ≡ plain.Slot.Empty }
    ensures serves { EachSeen M.shared (M.may_be memory.old) (M.may_be memory.new)
        (λ found left seen. ServesIn M.shared
        (λ ws. M.stored memory.new ≡ M.storing (M.stored memory.old) (stores_of ws))
        arrival unit.old queue.old found (slot_of slot.old) out.old result
        unit.new queue.new left seen (slot_of slot.new) out.new) }
    ensures size { M.extent memory.new ≡ M.extent memory.old }
    ensures reading { M.is_open memory.old → M.is_open memory.new }
    ensures room { (n : ℕ) → n ≤ 60 → M.has_room memory.old n → M.has_room memory.new n }
{
    unit.stands();
    match unit.enter(arrival) {
        Entered::Run(job) => match unit.commit_at_once(&job) {
            Some(outcome) => {
                let answered = answer_job(queue, memory, job, &outcome);
                unit.keep_room(outcome);
                Brought::Answered(leave(unit, answered, out))
            }
            None => {
                out.push(job);
                Brought::Waits
            }
        },
        Entered::Parked => Brought::Waits,
        Entered::Full(job) => {
            *slot = Slot::Direct(DirectChain::refused(job, Refusal::Full));
            Brought::Waits
        }
        Entered::Busy(job) => {
            *slot = Slot::Direct(DirectChain::refused(job, Refusal::Busy));
            Brought::Waits
        }
        Entered::Stale(job) => {
            *slot = Slot::Direct(DirectChain::refused(job, Refusal::Stale));
            Brought::Waits
        }
    }
}

/// Brings a request to its unit. Where nothing blocks its task, its command runs whole, it is answered by what came of
/// that, its chain is used, and the task leaves. This is what [`phase_enter`](crate::phase_enter),
/// [`phase_commit`](crate::phase_commit), [`phase_answer`](crate::phase_answer) and [`phase_leave`](crate::phase_leave)
/// do one after another, with its job in no list and no hand between them. Else the job of a command that waits for its
/// unit's disk, or that writes through to its host's storage, is appended to the list, to be committed later.
///
/// The queue owns the chain, and the list has room for 64 jobs, which the caller sees to. Where it uses the chain, it begins a
/// new phase of the memory behind that. What was stored are the bytes that answer the request, and then its used entry.
/// Where it isn't answered, nothing was stored.
#[inline(always)]
pub fn serve_request<M: WritableMemory>(
    unit: &mut UnitState,
    queue: &mut Queue,
    memory: &mut M,
    slot: &mut Slot,
    arrival: Arrival,
    out: &mut JobList,
) -> Brought
    requires fits { M.extent memory.old ≡ queue.old.ring.memory }
    requires owned { Owns queue.old.ring arrival.chain }
    requires places { HasPlaces out.old }
    requires empty { slot_of slot.old ≡ plain.Slot.Empty }
    ensures serves { EachSeen M.shared (M.may_be memory.old) (M.may_be memory.new)
        (λ found left seen. ServesIn M.shared
        (λ ws. M.stored memory.new ≡ M.storing (M.stored memory.old) (stores_of ws))
        arrival unit.old queue.old found (slot_of slot.old) out.old result
        unit.new queue.new left seen (slot_of slot.new) out.new) }
    ensures size { M.extent memory.new ≡ M.extent memory.old }
    ensures reading { M.is_open memory.old → M.is_open memory.new }
    ensures room { (n : ℕ) → n ≤ 60 → M.has_room memory.old n → M.has_room memory.new n }
{
    match serve_alone(unit, memory, &arrival) {
        Some(len) => {
            queue.complete_in(memory, arrival.into_chain(), len);
            Brought::Answered(true)
        }
        None => serve_by_steps(unit, queue, memory, slot, arrival, out),
    }
}
