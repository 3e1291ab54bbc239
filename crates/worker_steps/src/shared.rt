//! The state that the threads of a host share.

ghost use Rattle.std.specs.Prelude.{◌≡◌, length, vec_len};

use crate::bell::Bell;
use crossbeam_utils::CachePadded;
use event_queue::EventPort;
use guest_mem::GuestMem;
use handoff::Handoff;
use lock_scopes::{CountedUnit, Gate, KeptQueue, LockedQueues, LockedUnits, Part, Weighing};
use request_intake::Inventory;
use std::sync::atomic::{AtomicBool, AtomicU64, Ordering};
use std::sync::ledger::Ledger;
use std::sync::{Mutex, Wait};

/// The parts of a device that threads share: its units, its queues and the memory, each under a lock. The event port
/// has one that is taken round that of the event queue. The inventory never changes.
#[derive(Drop)]
pub struct Parts<C: Ledger + Weighing, W: Ledger> {
    pub units: Vec<Mutex<CountedUnit<C, W>>>,
    pub queues: Vec<Mutex<KeptQueue>>,
    pub memory: Mutex<GuestMem>,
    pub port: Mutex<EventPort>,
    pub inventory: Inventory,
}

/// All that the threads of a host share: the parts of their device, and what wakes and ends them. A thread takes these
/// locks:
///
/// - a unit's alone;
/// - a queue's, with the memory's inside it;
/// - the memory's alone;
/// - the event port's, round that of the event queue, which nobody takes without it.
#[derive(Drop)]
pub struct Shared<G: Gate + Drop, C: Ledger + Weighing, W: Ledger> {
    pub units: Vec<Mutex<CountedUnit<C, W>>>,
    pub queues: Vec<Mutex<KeptQueue>>,
    pub(crate) port: Mutex<EventPort>,
    pub inventory: Inventory,
    pub handoff: Handoff,
    pub(crate) gate: G,
    pub(crate) closing: AtomicBool,
    // True once no more chains are taken.
    pub(crate) abandoned: AtomicBool,
    pub bell: Bell,
    // The number of workers that found nothing to do in their latest round.
    pub(crate) waiting: AtomicU64,
    // The lock that all threads try for. It has cache lines of its own, so that its neighbours stay in the caches of
    // their readers.
    pub memory: CachePadded<Mutex<GuestMem>>,
}

impl<G: Gate + Drop, C: Ledger + Weighing, W: Ledger> Shared<G, C, W> {
    /// Shares the parts of a device, at this hand-off. No worker is to end. Called once, where a host is started.
    pub fn new(parts: Parts<C, W>, handoff: Handoff, gate: G) -> Shared<G, C, W>
        ensures handoff { result.handoff ≡ handoff }
        ensures units { vec_len result.units ≡ vec_len parts.units }
        ensures queues { vec_len result.queues ≡ vec_len parts.queues }
        ensures inventory { result.inventory ≡ parts.inventory }
    {
        let Parts {
            units,
            queues,
            memory,
            port,
            inventory,
        } = parts;
        Shared {
            units,
            queues,
            port,
            inventory,
            handoff,
            gate,
            closing: AtomicBool::new(false),
            abandoned: AtomicBool::new(false),
            bell: Bell::new(),
            waiting: AtomicU64::new(0),
            memory: CachePadded::new(memory),
        }
    }

    /// Lends its units to a seat, whose receipts are counted in this part. Called for each hold of a unit.
    pub fn units<'a, R: Wait>(
        &'a self,
        rt: &'a R,
        seat: &'a mut Part<W>,
    ) -> LockedUnits<'a, R, C, W>
        ensures units { length result.units.now ≡ vec_len self.now.units }
        ensures seat { result.seat ≡ seat.entry }
    {
        LockedUnits {
            rt,
            units: self.units.as_slice(),
            seat,
        }
    }

    /// Lends its queues and its memory. Called for each hold of a queue.
    pub fn queues<'a, R: Wait>(&'a self, rt: &'a R) -> LockedQueues<'a, R>
        ensures queues { length result.queues.now ≡ vec_len self.now.queues }
    {
        LockedQueues {
            rt,
            queues: self.queues.as_slice(),
            memory: &*self.memory,
        }
    }

    /// Returns true if another worker waits for a job than the one that asks. `waits` says whether that one is counted,
    /// too.
    pub(crate) fn is_awaited(&self, waits: bool) -> bool {
        self.waiting.load(Ordering::SeqCst) > u64::from(waits)
    }

    /// Counts a worker among those that wait for a job, or no longer. A worker calls as a round finds something where
    /// the one before didn't, or nothing where that did.
    pub fn wait_for_job(&self, waits: bool) {
        if waits {
            self.waiting.fetch_add(1, Ordering::SeqCst);
        } else {
            self.waiting.fetch_sub(1, Ordering::SeqCst);
        }
    }

    /// Returns true if its workers are to end. A worker asks before each round.
    pub fn is_closing(&self) -> bool {
        self.closing.load(Ordering::SeqCst)
    }

    /// Returns true if its workers are to take no chain any more. A worker asks in each round.
    pub fn is_abandoned(&self) -> bool {
        self.abandoned.load(Ordering::SeqCst)
    }

    /// Tells its workers to take no chain any more. Called where a host is abandoned, before `close`.
    pub fn abandon(&self) {
        self.abandoned.store(true, Ordering::SeqCst);
    }

    /// Tells its workers to end once nothing is left to them, and wakes them. Called once, where a host is closed, or
    /// where a thread of it can't be made.
    pub fn close<R: Wait>(&self, rt: &R) {
        self.closing.store(true, Ordering::SeqCst);
        self.bell.ring(rt);
    }
}
