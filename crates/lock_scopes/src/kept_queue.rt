//! A queue with the notes Direct of its requests, and with what its fetches left.

ghost use Rattle.std.specs.Prelude.{◌≡◌, ◌<◌, length, vec_len, is_some, IfSome, IsTrue, Some};
ghost use Rattle.std.specs.Vec.{vec_capacity};
ghost use Rattle.phases.specs.Slots.{slot_of};
ghost use Rattle.phases.specs.Direct.{Directs};
ghost use Rattle.lock_scopes.specs.Fetches.{KeepsFetches, AreNoted, ticket_in};
ghost use Rattle.lock_scopes.specs.Inner.Fetches.{Loses, with_fetch, with_answer};

use foundation::{NoMemory, Record};
use guest_mem::GuestMem;
use phases::{Hand, Note, ReceiptOrNote, Slot, phase_answer, phase_direct, phase_fetch};
use request_intake::Inventory;
use ring_core::Ticket;
use std::alloc::Global;
use virtqueue::Queue;

/// The outcome of a fetch from a request queue, in whose hold an answer that was decided there is given.
#[derive(Clone, Copy)]
pub struct NextChain {
    /// True if something changed. `NoMemory`, with nothing changed, where memory was refused.
    pub fetched: Result<bool, NoMemory>,
    /// The ticket of the chain that was fetched, if it was answered at once.
    pub answered: Option<Ticket>,
}

/// A queue, with the notes Direct of its requests. It stands under the queue's lock, which alone lends it. So whenever
/// that is free, the fetch of each request with such a note decided its answer.
///
/// Beside these stands what each fetch of a request left in the slot, in order. It takes no bytes: proofs alone read it.
/// Only what takes a chain adds to it, in the hold of the fetch, and only what answers the chain at once adds a note.
#[derive(Drop)]
pub struct KeptQueue {
    queue: Queue,
    notes: Vec<Note>,
    fetched: Record<Slot>,
    // The first chain with a decided answer that wasn't given in the hold of its fetch. No worker leaves one.
    lost: Option<Ticket>,
    ghost keeps: { KeepsFetches queue fetched.items notes.items },
    ghost noted: { AreNoted lost fetched.items notes.items },
}

/// Records what a fetch left in the slot, if it took a chain.
fn record_fetch(fetched: &mut Record<Slot>, outcome: &Result<bool, NoMemory>, slot: &Slot)
    ensures { fetched.new.items ≡ with_fetch outcome.now slot.now fetched.old.items }
{
    match outcome {
        Ok(true) => match slot {
            Slot::Empty => {}
            Slot::Arrived(_) | Slot::Direct(_) => fetched.push(slot),
        },
        Ok(false) | Err(_) => {}
    }
}

/// Keeps the ticket of a chain that a queue took and that is lost, where none was lost before it: `is_direct` says whether
/// its answer was decided, and `is_answered` whether it was given.
#[inline(always)]
fn note_lost(lost: &mut Option<Ticket>, queue: &Queue, is_direct: bool, is_answered: bool)
    ensures { Loses lost.old is_direct is_answered lost.new }
{
    if is_direct && !is_answered {
        keep_first(lost, queue);
    }
}

/// Keeps the ticket of the latest chain that a queue took, where none is lost yet. No worker comes here.
#[inline(never)]
fn keep_first(lost: &mut Option<Ticket>, queue: &Queue)
    ensures { IsTrue (is_some lost.new) }
{
    if lost.is_none() {
        *lost = Some(Ticket {
            queue: queue.number(),
            number: queue.log().accepted().saturating_sub(1),
        });
    }
}

/// Answers the chain that stands in the slot with its answer, if one does, and keeps its note. There is room for that.
/// Returns its ticket, if it was answered.
#[inline(always)]
fn answer_decided(
    queue: &mut Queue,
    memory: &mut GuestMem,
    slot: &mut Slot,
    notes: &mut Vec<Note>,
) -> Option<Ticket>
    requires room { vec_len notes.old < vec_capacity notes.old }
    ensures directs { Directs (slot_of slot.old) queue.old memory.old (is_some result) queue.new memory.new
        (slot_of slot.new) }
    ensures size { length memory.new ≡ length memory.old }
    ensures notes { notes.new.items ≡ with_answer (is_some result) (slot_of slot.old) notes.old.items }
    ensures of_chain { IfSome result (λ t. ticket_in (slot_of slot.old) ≡ Some t) }
{
    // Most chains are requests: these make no call.
    if !slot.is_direct() {
        return None;
    }
    let note = phase_direct(queue, slot, memory)?;
    let ticket = note.ticket();
    notes.push_reserved(note);
    Some(ticket)
}

impl KeptQueue {
    ghost use Rattle.std.specs.Prelude.{◌≡◌, [], List, ℕ, length, is_some, IfSome, Some};
    ghost use Rattle.virtqueue.specs.Queue.{BareQueue};
    ghost use Rattle.device_model.specs.Parts as plain;
    ghost use Rattle.phases.specs.Slots.{slot_of};
    ghost use Rattle.phases.specs.Parts.{hand_of};
    ghost use Rattle.phases.specs.Answering.{Answers};
    ghost use Rattle.phases.specs.Giving.{given_in};
    ghost use Rattle.lock_scopes.specs.Lending.{IsQueue, OnceAtFour, TakesNoRequest};
    ghost use Rattle.lock_scopes.specs.Fetches.{KeepsFetches, AreNoted};
    ghost use Rattle.lock_scopes.specs.Joined.{Takes};

    /// Keeps a queue from which nothing was fetched yet. Called once for each queue, where a host is opened.
    pub fn new(alloc: Global, queue: Queue) -> KeptQueue
        requires { queue.ring.log.accepted ≡ [] }
    {
        KeptQueue {
            queue,
            notes: Vec::new(alloc),
            fetched: Record::new(),
            lost: None,
        }
    }

    /// Returns the queue. Called for a look at it, in a hold of its lock.
    pub fn queue(&self) -> &Queue {
        &self.queue
    }

    /// Takes it apart: the queue, its notes Direct, and what each fetch of a request left. The last is the ticket of a
    /// chain whose answer was decided and not given in the hold of its fetch, which never happens in a host. Called
    /// once its host is closed.
    pub fn into_parts(self) -> (Queue, Vec<Note>, Record<Slot>, Option<Ticket>)
        ensures keeps { KeepsFetches result.0 result.2.items result.1.items }
        ensures noted { AreNoted result.3 result.2.items result.1.items }
    {
        let KeptQueue {
            queue,
            notes,
            fetched,
            lost,
            ..
        } = self;
        (queue, notes, fetched, lost)
    }

    /// Runs a phase on the queue with the memory, which takes no chain of a request queue. Called in a hold of the
    /// queue's lock and the memory's.
    pub(crate) fn run<T, X, Y, F: FnOnce(&mut Queue, &mut GuestMem, &mut X, &mut Y) -> T>(
        &mut self,
        memory: &mut GuestMem,
        one: &mut X,
        other: &mut Y,
        phase: F,
    ) -> T
        requires phase { F.IsAlwaysCallable phase }
        requires takes_none { TakesNoRequest F.FnOnce phase }
        ensures { (q : BareQueue) × (r : BareQueue) × IsQueue q
            × OnceAtFour F.FnOnce phase q memory.old one.old other.old result r memory.new one.new other.new
            × IsQueue r }
    {
        let KeptQueue { queue, .. } = self;
        let _before = queue.log();
        let answer = phase(queue, memory, one, other);
        let _behind = queue.log();
        answer
    }

    /// Answers the job in the hand whose commit is over (`phase_answer`). Called in a hold of the queue's lock and the
    /// memory's.
    pub(crate) fn answer(&mut self, memory: &mut GuestMem, hand: &mut Hand) -> Option<ReceiptOrNote>
        ensures answers { Answers (hand_of hand.old) self.old.queue memory.old (is_some result) self.new.queue memory.new
            (hand_of hand.new) }
        ensures gives { IfSome result (λ given. given_in hand.old ≡ Some given) }
        ensures size { length memory.new ≡ length memory.old }
        ensures stands { IsQueue self.old.queue × IsQueue self.new.queue }
    {
        let KeptQueue { queue, .. } = self;
        let _before = queue.log();
        let given = phase_answer(queue, memory, hand);
        let _behind = queue.log();
        given
    }

    /// Takes the next chain of a request queue into an empty slot, records what that left, and answers the chain where
    /// its answer was decided. Called in a hold of the queue's lock and the memory's.
    pub(crate) fn take(
        &mut self,
        memory: &mut GuestMem,
        slot: &mut Slot,
        inventory: &Inventory,
    ) -> NextChain
        requires empty { slot_of slot.old ≡ plain.Slot.Empty }
        ensures takes { Takes inventory.now self.old.queue memory.old result.fetched result.answered
            self.new.queue memory.new (slot_of slot.new) }
        ensures size { length memory.new ≡ length memory.old }
        ensures stands { IsQueue self.old.queue × IsQueue self.new.queue }
    {
        let KeptQueue {
            queue,
            notes,
            fetched,
            lost,
            ..
        } = self;
        let _before = queue.log();
        let Ok(()) = notes.reserve(1) else {
            return NextChain {
                fetched: Err(NoMemory),
                answered: None,
            };
        };
        let outcome = phase_fetch(queue, slot, memory, inventory);
        record_fetch(fetched, &outcome, slot);
        let is_direct = slot.is_direct();
        let answered = answer_decided(queue, memory, slot, notes);
        note_lost(lost, queue, is_direct, answered.is_some());
        let _behind = queue.log();
        NextChain {
            fetched: outcome,
            answered,
        }
    }
}
