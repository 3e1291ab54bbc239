//! The host: its threads, from start to close.

ghost use Rattle.std.specs.Prelude.{◌≡◌, ◌<◌, true, length, vec_len, IfOk, IfErr, OnOk, OnErr};
ghost use Rattle.std.specs.Arc.{arc_value};
ghost use Rattle.config.specs.Config.{is_config};
ghost use Rattle.workers.specs.Extent.{Starts, extent_of};
ghost use Rattle.workers.specs.Ledgers.{Opens};

use crate::alone::unshared;
use crate::crew::{Crew, hire};
use crate::gathering::{kept_of, queues_of, split_off, units_of};
use crate::hired::{Begins, Worked, Works};
use crate::opening::{Ledgers, open_parts};
use crate::operating::{reset, resize};
use crate::tallied::{BlankPart, Tallied};
use crate::worker::{Worker, ends, work};
use close_audit::{CloseFault, Report, report_closed};
use config::{Config, StartFault, tells_changes};
use event_queue::WaitingEvents;
use foundation::NoMemory;
use guest_mem::MemFault;
use handoff::{Handoff, Seat};
use lock_scopes::{Acts, Gate, Weighing, hold, peek_on, poke_on};
use phases::{ResetFault, ResizeFault};
use request_intake::UnitSpec;
use ring_core::RingFault;
use std::alloc::{AllocError, Global};
use std::marker::Model;
use std::sync::ledger::{Blank, Ledger};
use std::sync::{Arc, Wait};
use std::thread::Threads;
use task_set::MOST_TASKS;
use worker_steps::{Post, Shared, finish};

impl<W: Ledger> Begins for Post<W> {
    ghost seat = { λ p. p.seat };
}

impl<G: Gate + Drop, C: Ledger + Weighing, W: Ledger> Works<Post<W>, Tallied<W>, BlankPart<W>>
    for Shared<G, C, W> {
    ghost hub = { λ s. s.handoff };

    fn handoff(&self) -> &Handoff {
        &self.handoff
    }

    fn begin(
        &self,
        alloc: Global,
        seat: Seat,
        part: BlankPart<W>,
        limit: usize,
    ) -> Result<Post<W>, AllocError> {
        let BlankPart { part, .. } = part;
        Post::new(alloc, seat, part, limit)
    }

    fn close<R: Wait>(&self, rt: &R) {
        Shared::close(self, rt);
    }

    fn work<R: Wait>(
        &self,
        rt: &R,
        post: Post<W>,
        number: usize,
        workers: usize,
    ) -> Worked<Tallied<W>> {
        let worker = Worker {
            post,
            number,
            workers,
        };
        work(rt, self, worker)
    }
}

/// Shares a value among threads. `NoMemory` where memory was refused.
fn share<T: Drop>(alloc: Global, value: T) -> Result<Arc<T>, NoMemory>
    ensures { IfOk result (λ shared. arc_value shared ≡ value) }
{
    match Arc::new(alloc, value) {
        Ok(shared) => Ok(shared),
        Err(_) => Err(NoMemory),
    }
}

/// Starts a host of a valid configuration, with its threads and with ledgers of its own.
fn started<R, G, C, W>(
    rt: R,
    alloc: Global,
    config: Config,
    gate: G,
    acts: Blank,
    receipts: Blank,
) -> Result<Host<G, C, W>, NoMemory>
where
    R: Threads + Wait + Copy + Send + 'static,
    G: Gate + Drop + Send + Sync + 'static,
    C: Ledger + Weighing + Send + Sync + 'static,
    W: Ledger + Send + Sync + 'static,
    requires valid { is_config config ≡ true }
    requires acts { Opens acts.name acts.parts C.name C.parts 64 }
    requires receipts { Opens receipts.name receipts.parts W.name W.parts 73 }
    ensures { IfOk result (λ h. h ≡ extent_of config) }
{
    let seats = config.workers as usize + 1;
    let (acts, rest) = acts.open::<C>();
    let (book, mut receipts) = receipts.open::<W>();
    let seat_parts = split_off(alloc, &mut receipts, seats)?;
    let (handoff, seats) = Handoff::new(alloc, config.handoff as usize, seats)?;
    let limit = MOST_TASKS * config.units.len() + MOST_TASKS;
    let mut ledgers = Ledgers {
        acts: rest,
        receipts,
        book,
    };
    let parts = open_parts(alloc, &config, &mut ledgers)?;
    let shared = share(alloc, Shared::new(parts, handoff, gate))?;
    let (crew, post) = hire(rt, alloc, &shared, seats, seat_parts, limit)?;
    Ok(Host {
        alloc,
        shared,
        crew,
        post,
        acts: Acts::new(acts),
        ledgers,
        waiting: WaitingEvents::new(alloc),
        told: tells_changes(config.features),
        specs: config.units,
    })
}

/// A look at a queue: how many chains it accepted and used, how many notices its driver wanted, and which fault of the
/// guest broke it.
#[derive(Clone, Copy, Debug, PartialEq, Eq)]
pub struct Seen {
    /// The number of chains that it accepted.
    pub accepted: u64,
    /// The number of these that were used.
    pub used: u64,
    /// The number of notices that its driver wanted.
    pub notices: u64,
    /// The fault of the guest that broke it, if any.
    pub broken: Option<RingFault>,
}

/// A device that threads serve. Clauses see how many workers and queues it has, the units that it was opened with,
/// whether its driver is told of capacities that change, and what its operator did to units.
/// Its ledger `C` has what the operator's acts weigh: a host is proved for every weighing, and none of them shows at run
/// time. `W` counts the Commits of its units, and the receipts that its workers and the operator got for them. A host
/// isn't `Drop`: its starter closes it, which ends its threads.
pub struct Host<G: Gate + Drop, C: Ledger + Weighing, W: Ledger> {
    alloc: Global,
    shared: Arc<Shared<G, C, W>>,
    crew: Crew<Tallied<W>>,
    // The operator's seat, what the operator did, and the events that wait.
    post: Post<W>,
    acts: Acts<C>,
    waiting: WaitingEvents,
    // The rest of the ledgers: the parts that no unit and no seat has.
    ledgers: Ledgers<C, W>,
    // True if the guest is told of capacities that change.
    told: bool,
    // The units with which its report is compared.
    specs: Vec<UnitSpec>,
}

impl<G: Gate + Drop, C: Ledger + Weighing, W: Ledger> Model for Host<G, C, W> {
    ghost use Rattle.std.specs.Prelude.{◌≡◌, ◌+◌, ◌*◌, ◌≤◌, map, vec_len};
    ghost use Rattle.std.specs.Arc.{arc_value};
    ghost use Rattle.lock_scopes.specs.Ledgers.{most_commits};
    ghost use Rattle.request_intake.specs.Inventory.{inventory_of};
    ghost use Rattle.workers.specs.Crew.{IsLastSeat};
    ghost use Rattle.workers.specs.Extent.{Extent};

    ghost Value = { Extent };

    ghost view = { λ h. record {
      workers = h.crew.threads;
      units = h.specs.items;
      queues = vec_len (arc_value h.shared).queues;
      told = h.told;
      acts = h.acts;
    } };

    ghost invariant = { λ h. (vec_len (arc_value h.shared).queues ≤ 18)
        × (vec_len (arc_value h.shared).units ≡ vec_len h.specs)
        × (h.crew.hub ≡ (arc_value h.shared).handoff) × IsLastSeat (arc_value h.shared).handoff h.post.seat
        × (h.ledgers.acts.parts + vec_len (arc_value h.shared).units ≡ C.parts) × (h.ledgers.acts.amount ≡ 0)
        × (h.ledgers.receipts.parts + vec_len (arc_value h.shared).units + (h.crew.threads + 1) ≡ W.parts)
        × (h.ledgers.receipts.amount ≡ 0)
        × ((arc_value h.shared).inventory ≡ inventory_of h.specs.items)
        × (h.ledgers.book.total ≡ vec_len (arc_value h.shared).units * most_commits) };
}

impl<G: Gate + Drop, C: Ledger + Weighing, W: Ledger> Host<G, C, W> {
    ghost use Rattle.std.specs.Prelude.{◌≡◌, ◌<◌, ◌≤◌, true, List, ℕ, length, map, IfOk, IfErr, IfSome, OnOk, OnErr, vec_len, is_some, nat_lt};
    ghost use Rattle.guest_mem.specs.declared.memory.MemFault.TheVariants as MemFault;
    ghost use Rattle.lock_scopes.specs.Lending.{IsMemory};
    ghost use Rattle.lock_scopes.specs.Memory.{Writes, Reads};
    ghost use Rattle.close_audit.specs.Closed.{IsReport};
    ghost use Rattle.workers.specs.Resetting.{WasReset};
    ghost use Rattle.workers.specs.Resizing.{ResizeFails, WasResized};
    ghost use Rattle.request_intake.specs.Inventory.{inventory_of};
    ghost use Rattle.workers.specs.Fetches.{AreDecided};
    ghost use Rattle.workers.specs.Ledgers.{Opens, commits_in, weight_in};
    ghost use Rattle.workers.specs.Extent.{address_at, with_act};
    ghost use Rattle.lock_scopes.specs.Acts.{acts_weight, reset_of, resize_of};
    ghost use Rattle.unit_model.specs.Contents.{is_capacity};

    /// Starts `n` workers, 1 to 8, in place of the number that the configuration has. The embedder calls it once for
    /// each host. `BadConfig` exactly where the device doesn't take such a configuration. Else `NoMemory` where a
    /// growth was refused, or a thread couldn't be made: those that were made are ended. It may wait for these.
    ///
    /// The blanks are those of its two ledgers: with a part for each of at most 64 units, and with one for each of these
    /// and of at most 9 seats. They take no bytes. The caller makes them by `Blank::new(64)` and `Blank::new(73)`.
    pub fn start<R: Threads + Wait + Copy + Send + 'static>(
        rt: R,
        alloc: Global,
        config: Config,
        gate: G,
        n: u16,
        acts: Blank,
        receipts: Blank,
    ) -> Result<Host<G, C, W>, StartFault>
    where
        G: Send + Sync + 'static,
        C: Send + Sync + 'static,
        W: Send + Sync + 'static,
        requires acts { Opens acts.name acts.parts C.name C.parts 64 }
        requires receipts { Opens receipts.name receipts.parts W.name W.parts 73 }
        ensures { Starts config n result }
    {
        let wanted = Config {
            workers: n,
            ..config
        };
        if !wanted.is_valid() {
            return Err(StartFault::BadConfig);
        }
        match started(rt, alloc, wanted, gate, acts, receipts) {
            Ok(host) => Ok(host),
            Err(NoMemory) => Err(StartFault::NoMemory),
        }
    }

    /// Writes bytes as the guest, beside the workers, in one hold of the memory. `Outside`, with nothing changed,
    /// exactly where one of them would lie behind the end. It may wait.
    pub fn poke<R: Wait>(&self, rt: &R, addr: u64, bytes: &[u8]) -> Result<(), MemFault>
        ensures did { (m : List ℕ) × (n : List ℕ) × IsMemory m × Writes m addr bytes.now result n × IsMemory n }
        ensures fault { IfErr result (λ fault. fault ≡ MemFault.Outside) }
    {
        poke_on(&mut self.shared.queues(rt), addr, bytes)
    }

    /// Reads bytes as the guest, beside the workers, in one hold of the memory. `Outside`, with nothing read, exactly
    /// where one of them lies behind the end. It may wait.
    pub fn peek<R: Wait>(&self, rt: &R, addr: u64, out: &mut [u8]) -> Result<(), MemFault>
        ensures did { (m : List ℕ) × IsMemory m × Reads m addr out.old result out.new }
        ensures fault { IfErr result (λ fault. fault ≡ MemFault.Outside) }
        ensures unchanged { OnErr result (out.new ≡ out.old) }
    {
        peek_on(&mut self.shared.queues(rt), addr, out)
    }

    /// Resets the unit at an index of the configuration for the operator, and tells the guest (TRANSPORT_RESET). A unit
    /// that isn't there changes nothing. Wakes the workers that sleep. `NoMemory` where a growth was refused. `WrongUnit`
    /// where the unit that was lent hasn't the address of that index, which no host of this crate lends. The unit wasn't
    /// reset then. It may wait, and run commands.
    ///
    /// A reset is one more act, of the unit of that index, and no other call than this and `resize` adds one. At the close
    /// the histories of units with that address have as many hard resets as there are such acts.
    pub fn operator<R: Wait>(&mut self, rt: &R, unit_index: u16) -> Result<(), ResetFault>
        ensures acts { OnOk result (self.new ≡ with_act (reset_of (address_at unit_index self.old)) self.old) }
        ensures same { OnErr result (self.new ≡ self.old) }
        ensures reset { OnOk result (unit_index < length self.old.units →
            WasReset (inventory_of self.old.units) unit_index) }
        ensures there { OnErr result (unit_index < length self.old.units) }
    {
        let done = reset(
            rt,
            &*self.shared,
            unit_index as usize,
            &mut self.acts,
            &mut self.post,
            &mut self.waiting,
        );
        self.shared.bell.ring(rt);
        done
    }

    /// Gives the unit at an index of the configuration another capacity for the operator, in blocks of 512 bytes, and
    /// tells the guest (PARAM_CHANGE) where its driver agreed to `CHANGE`. A unit that isn't there changes nothing.
    /// Wakes the workers that sleep. `BadCapacity` for 0 and for more than 2^40 blocks, `NoMemory` where a growth was
    /// refused, `WrongUnit` as of [`Host::operator`]: the unit wasn't resized then. It may wait.
    ///
    /// A resize is one more act, of the unit of that index and to that capacity. At the close the histories of units with
    /// that address have as many resizes to it as there are such acts.
    pub fn resize<R: Wait>(
        &mut self,
        rt: &R,
        unit_index: u16,
        blocks: u64,
    ) -> Result<(), ResizeFault>
        ensures acts { OnOk result (self.new
            ≡ with_act (resize_of blocks self.old.told (address_at unit_index self.old)) self.old) }
        ensures same { OnErr result (self.new ≡ self.old) }
        ensures good { OnOk result (is_capacity blocks ≡ true) }
        ensures resized { OnOk result (unit_index < length self.old.units →
            WasResized (inventory_of self.old.units) unit_index blocks self.old.told) }
        ensures cause { IfErr result (λ fault. ResizeFails blocks fault) }
    {
        let told = self.told;
        let done = resize(
            rt,
            &*self.shared,
            unit_index as usize,
            blocks,
            told,
            &mut self.acts,
            &mut self.waiting,
        );
        self.shared.bell.ring(rt);
        done
    }

    /// Wakes the workers that sleep since they found nothing to do. The embedder calls it once chains are available
    /// that nobody was told of: where the driver notifies (VIRTIO 1.2 §2.9). It costs one load where all are awake, and
    /// may wait.
    pub fn kick<R: Wait>(&self, rt: &R) {
        self.shared.bell.ring(rt);
    }

    /// Returns what a queue came to so far, in one hold of it; `None` where there is no such queue. It may wait.
    pub fn look<R: Wait>(&self, rt: &R, queue: u16) -> Option<Seen>
        ensures there { is_some result ≡ nat_lt queue self.now.queues }
        ensures counts { IfSome result (λ s. s.used ≤ s.accepted) }
    {
        let queue = self.shared.queues.get(queue as usize)?;
        let held = hold(rt, queue);
        let queue = held.queue();
        Some(Seen {
            accepted: queue.log().accepted(),
            used: queue.log().used(),
            notices: queue.notices(),
            broken: queue.fault(),
        })
    }

    /// Closes the host as [`Host::close`] does, but for chains that the guest made available and no worker had taken:
    /// these stay where they are. So it comes back also where the guest's own requests make chains available for ever.
    /// It answers the same.
    pub fn abandon<R: Threads + Wait>(self, rt: &R) -> Result<Report, CloseFault>
        ensures report { IfOk result (λ r. IsReport self.units r.units.items r.queues.items r.receipts.items r.notes.items) }
        ensures units { IfOk result (λ r. vec_len r.units ≡ length self.units) }
        ensures queues { IfOk result (λ r. vec_len r.queues ≡ self.queues) }
        ensures even { IfOk result (λ r. commits_in r.units.items ≡ vec_len r.receipts) }
        ensures acts { IfOk result (λ r. weight_in C.weight r.units.items ≡ acts_weight C.weight self.acts) }
        ensures direct { IfOk result (λ r. AreDecided r.queues.items r.fetched.items r.notes.items) }
    {
        self.shared.abandon();
        self.close(rt)
    }

    /// Ends the workers once nothing is left to them, waits for that, and says what became of every chain that was
    /// accepted. The host is gone afterwards, also at an `Err`. It fails, in this order, with
    ///
    /// - `Unconfirmed`: the least ticket of a receipt whose Commit doesn't stand in its unit's history;
    /// - `Outstanding`: the least ticket of a chain of the control queue, or of a request, that wasn't answered once
    ///   and as its unit's history says. If there is none: 0/0 for a unit that isn't as it was opened, or the first
    ///   ticket of an index where another queue stands.
    ///
    /// `NoMemory` where a growth was refused.
    ///
    /// The Commits of all units are as many as the receipts. The hard resets and resizes in the histories of all units
    /// weigh what the operator's acts weigh, each at the address of its unit, whatever `C` has an act weigh. So each unit
    /// has as many hard resets as the operator made of it, and as many resizes to each capacity. The two ledgers prove
    /// that, where no look at the report could tell. So no unit's lock was given a history with fewer Commits than it had
    /// lent, or with other acts.
    ///
    /// The notes Direct are exactly those of the requests for which their fetch decided the answer. So no request that
    /// was to enter its unit is answered without it and passes as decided. The report tells in proofs what each fetch
    /// left.
    pub fn close<R: Threads + Wait>(self, rt: &R) -> Result<Report, CloseFault>
        ensures report { IfOk result (λ r. IsReport self.units r.units.items r.queues.items r.receipts.items r.notes.items) }
        ensures units { IfOk result (λ r. vec_len r.units ≡ length self.units) }
        ensures queues { IfOk result (λ r. vec_len r.queues ≡ self.queues) }
        ensures even { IfOk result (λ r. commits_in r.units.items ≡ vec_len r.receipts) }
        ensures acts { IfOk result (λ r. weight_in C.weight r.units.items ≡ acts_weight C.weight self.acts) }
        ensures direct { IfOk result (λ r. AreDecided r.queues.items r.fetched.items r.notes.items) }
    {
        let Host {
            alloc,
            shared,
            crew,
            mut post,
            mut acts,
            waiting: _,
            ledgers,
            told: _,
            specs,
        } = self;
        finish(rt, &*shared, &mut post);
        let Worked { seat, kept } = ends(post);
        Shared::close(&*shared, rt);
        let Ok((seats, all)) = crew.join(rt, alloc, seat, kept) else {
            return Err(CloseFault::NoMemory);
        };
        let Shared {
            units,
            queues,
            memory,
            handoff,
            ..
        } = unshared(rt, shared);
        handoff.gather(seats);
        let Ledgers {
            acts: mut counted,
            mut receipts,
            mut book,
        } = ledgers;
        let Ok(units) = units_of(alloc, units, &mut counted, &mut receipts) else {
            return Err(CloseFault::NoMemory);
        };
        let kept = kept_of(alloc, all, &mut receipts)?;
        acts.audit(&mut counted);
        book.audit(&mut receipts);
        let closed = queues_of(alloc, queues)?;
        let memory = memory.into_inner().into_inner();
        report_closed(alloc, specs.as_slice(), units, closed, memory, kept)
    }
}
