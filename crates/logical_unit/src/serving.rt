//! A request that is served to its end in one call, where no other task is alive.

ghost use Rattle.std.specs.Prelude.{◌≡◌, ℕ, IsTrue, IsFalse, true, false, None};
ghost use Rattle.std.specs.Bool.{OnFalse};
ghost use Rattle.backed_store.specs.Disks.{is_backed, IsKeptWhole};
ghost use Rattle.block_commands.specs.Inner.Ready.{IsReady};
ghost use Rattle.block_commands.specs.Inner.Told.{facts_of, protects};
ghost use Rattle.command_model.specs.Attention.{met};
ghost use Rattle.command_model.specs.Waiting.{is_flush};
ghost use Rattle.logical_unit.specs.Endings.{ending_of_run, plain_run};
ghost use Rattle.logical_unit.specs.Inner.Performing.{Performs, step_for, told, unkept};
ghost use Rattle.unit_log.specs.Recorded.{step_recorded};
ghost use Rattle.logical_unit.specs.Serving.{ServesAlone};
ghost use Rattle.logical_unit.specs.Inner.Flushes.{IsReadKept};

use crate::answering::Answering;
use crate::execution::keep_larger;
use crate::flushing::would_wait;
use crate::performing::{is_ready, run, tell_oldest};
use crate::unit::{UnitState, is_named, make_way, recorded_entry};
use backed_store::Disk;
use block_commands::{UnitFacts, read_in_place};
use block_store::Store;
use command_model::Reply;
use foundation::NoMemory;
use ring_core::Ticket;
use std::alloc::Global;
use task_set::Arrival;
use unit_attention::Attentions;
use unit_log::{RecordedReply, RecordedStep};

/// Returns what the log has of a command that ran, and keeps the room of its data for a later one.
#[inline(always)]
fn recorded_run(room: &mut Vec<u8>, ran: Result<Reply, NoMemory>) -> Result<RecordedReply, NoMemory>
    ensures { result ≡ plain_run ran }
{
    match ran {
        Ok(reply) => {
            let recorded = RecordedReply::of(&reply);
            keep_larger(room, reply);
            Ok(recorded)
        }
        Err(NoMemory) => Err(NoMemory),
    }
}

/// Runs the command of a request, and has what answers it written: the data of a READ from where they stand. Returns what
/// the log has of that; `NoMemory` where memory was refused.
#[inline(always)]
fn run_and_answer<A: Answering>(
    alloc: Global,
    room: &mut Vec<u8>,
    facts: &mut UnitFacts,
    attentions: &mut Attentions,
    store: &mut Disk,
    arrival: &Arrival,
    answering: &mut A,
) -> Result<RecordedReply, NoMemory>
    requires may { A.may_answer answering.old arrival.now }
    requires ready { met arrival.now.entry.command (told facts.old attentions.old).pending ≡ None →
        IsFalse (protects (told facts.old attentions.old) arrival.now.entry.command) →
        IsReady (⟦<Disk as Store>⟧.is_held store.old) (⟦<Disk as Store>⟧.has_room store.old) (⟦<Disk as Store>⟧.size store.old)
        arrival.now.entry.command arrival.now.entry.data_out }
    ensures performed { Performs false (facts_of (told facts.old attentions.old) (⟦<Disk as Store>⟧.size store.old))
        arrival.now.entry.command arrival.now.entry.data_out (unkept result)
        (⟦<Disk as Store>⟧.block_at store.old) (⟦<Disk as Store>⟧.block_at store.new) attentions.old attentions.new }
    ensures answered { A.answers answering.old arrival.now (ending_of_run result) answering.new }
    ensures facts { facts.new ≡ told facts.old attentions.old }
    ensures size { ⟦<Disk as Store>⟧.size store.new ≡ ⟦<Disk as Store>⟧.size store.old }
    ensures storage { ⟦<Disk as Store>⟧.storage store.new ≡ ⟦<Disk as Store>⟧.storage store.old }
{
    let command = arrival.command();
    tell_oldest(facts, attentions);
    if let Some(data) = read_in_place(store, &command, facts) {
        let len = data.len() as u32;
        let recorded = answering.answer_read(arrival, data);
        return Ok(RecordedReply::of_read(recorded, len));
    }
    let ran = run(
        alloc,
        room,
        facts,
        attentions,
        store,
        &command,
        arrival.data(),
    );
    answering.answer(arrival, &ran);
    recorded_run(room, ran)
}

/// Returns the step that stands for what came of a command.
#[inline(always)]
fn step_of_run(ticket: Ticket, ran: Result<RecordedReply, NoMemory>) -> RecordedStep
    ensures { step_recorded result ≡ step_for ticket (unkept ran) }
{
    match ran {
        Ok(reply) => RecordedStep::Commit(ticket, reply),
        Err(NoMemory) => RecordedStep::Busy(ticket),
    }
}

/// Returns true if the command of a request may run on its disk as it stands, or as [`is_ready`] left it: at once where
/// the disk isn't backed. A flush may where the host's storage lacks no change, a READ that asks for the medium where it lacks none
/// of its blocks.
#[inline(always)]
fn may_run(
    facts: &mut UnitFacts,
    attentions: &Attentions,
    store: &mut Disk,
    arrival: &Arrival,
) -> bool
    ensures facts { facts.new ≡ record facts.old { pending = facts.new.pending } }
    ensures ready { IsTrue result → met arrival.now.entry.command (told facts.old attentions.now).pending ≡ None →
        IsFalse (protects (told facts.old attentions.now) arrival.now.entry.command) →
        IsReady (⟦<Disk as Store>⟧.is_held store.new) (⟦<Disk as Store>⟧.has_room store.new) (⟦<Disk as Store>⟧.size store.new)
        arrival.now.entry.command arrival.now.entry.data_out }
    ensures whole { is_backed store.old ≡ false → IsTrue result }
    ensures flushed { IsTrue result → IsTrue (is_flush arrival.now.entry.command) → IsKeptWhole store.new }
    ensures read { IsTrue result → IsTrue arrival.now.entry.asks_medium → IsReadKept store.new arrival.now.entry.command }
    ensures storage { ⟦<Disk as Store>⟧.storage store.new ≡ ⟦<Disk as Store>⟧.storage store.old }
    ensures blocks { ⟦<Disk as Store>⟧.block_at store.new ≡ ⟦<Disk as Store>⟧.block_at store.old }
    ensures size { ⟦<Disk as Store>⟧.size store.new ≡ ⟦<Disk as Store>⟧.size store.old }
{
    if store.is_resident() {
        return true;
    }
    is_arrival_ready(facts, attentions, store, arrival)
}

/// Makes a disk ready for the command of a request as [`is_ready`] does. Not inlined: a request on a disk that isn't
/// backed would pay for its locals.
#[inline(never)]
fn is_arrival_ready(
    facts: &mut UnitFacts,
    attentions: &Attentions,
    store: &mut Disk,
    arrival: &Arrival,
) -> bool
    ensures facts { facts.new ≡ told facts.old attentions.now }
    ensures ready { IsTrue result → met arrival.now.entry.command (told facts.old attentions.now).pending ≡ None →
        IsFalse (protects (told facts.old attentions.now) arrival.now.entry.command) →
        IsReady (⟦<Disk as Store>⟧.is_held store.new) (⟦<Disk as Store>⟧.has_room store.new) (⟦<Disk as Store>⟧.size store.new)
        arrival.now.entry.command arrival.now.entry.data_out }
    ensures whole { is_backed store.old ≡ false → IsTrue result }
    ensures flushed { IsTrue result → IsTrue (is_flush arrival.now.entry.command) → IsKeptWhole store.new }
    ensures read { IsTrue result → IsTrue arrival.now.entry.asks_medium → IsReadKept store.new arrival.now.entry.command }
    ensures storage { ⟦<Disk as Store>⟧.storage store.new ≡ ⟦<Disk as Store>⟧.storage store.old }
    ensures blocks { ⟦<Disk as Store>⟧.block_at store.new ≡ ⟦<Disk as Store>⟧.block_at store.old }
    ensures size { ⟦<Disk as Store>⟧.size store.new ≡ ⟦<Disk as Store>⟧.size store.old }
{
    let command = arrival.command();
    let ticket = arrival.ticket();
    is_ready(facts, attentions, store, &command, arrival.data(), ticket)
        && !would_wait(store, arrival.asks_medium(), &command)
}

impl UnitState {
    /// Serves a request to its end: its task enters, its command runs, its answer is written, and its task leaves.
    /// Returns true then, and the caller uses the chain. It does so only where no task is alive, the request names the
    /// unit, no replies are kept, and the ticket is above the last of its queue. The pages that the command needs have to
    /// be in memory, too, room for its steps to be had, and its reply may be told at once. Else nothing is changed.
    #[inline(always)]
    pub fn serve_alone<A: Answering>(&mut self, arrival: &Arrival, answering: &mut A) -> bool
        requires may { A.may_answer answering.old arrival.now }
        ensures serves { IsTrue result
            → ServesAlone (λ ending. A.answers answering.old arrival.now ending answering.new) self.old arrival.now self.new }
        ensures same { OnFalse result ((self.new ≡ self.old) × (answering.new ≡ answering.old)) }
    {
        let ticket = arrival.ticket();
        if self.tasks.len() > 0 {
            return false;
        }
        if self.writes_through(arrival.asks_medium(), &arrival.command()) {
            return false;
        }
        if !is_named(&self.facts, arrival) {
            return false;
        }
        if self.log.keeps_replies() {
            return false;
        }
        if self.last_tickets.is_stale(ticket) {
            return false;
        }
        if !may_run(&mut self.facts, &self.attentions, &mut self.store, arrival) {
            return false;
        }
        let Ok(()) = self.last_tickets.reserve(ticket.queue) else {
            return false;
        };
        let Ok(()) = make_way(&mut self.log, &self.tasks) else {
            return false;
        };
        self.last_tickets.came(ticket);
        let command = arrival.command();
        let bytes = arrival.data();
        self.changes
            .note_command(&command, bytes, self.store.capacity(), self.log.len() + 1);
        let ran = run_and_answer(
            self.alloc,
            &mut self.room,
            &mut self.facts,
            &mut self.attentions,
            &mut self.store,
            arrival,
            answering,
        );
        self.log.push_three(
            RecordedStep::Enter(recorded_entry(arrival)),
            step_of_run(ticket, ran),
            RecordedStep::Leave(ticket),
        );
        true
    }
}
