//! A virtqueue of the device: its ring, whether it is broken, and the notices that its driver wanted.

ghost use Rattle.std.specs.Prelude.{◌≡◌, IfOk, None, is_none};
ghost use Rattle.virtqueue.specs.AnyRing.{ring_state};
ghost use Rattle.virtqueue.specs.Queue.{opening_ring, placement_of};
ghost use Rattle.ring_core.specs.State.{features_of};

use crate::any_ring::AnyRing;
use foundation::NoMemory;
use guest_mem::{GuestMem, Memory, StillMem, WritableMemory};
use packed_ring::PackedRing;
use ring_core::{
    Answered, Asking, Chain, Fetched, Form, Layout, LayoutFault, Notify, Position, QueueLog, Ring,
    RingFault,
};
use split_ring::SplitRing;
use std::alloc::Global;
use std::marker::Model;

/// Returns why a queue of this form can't lie so, in a memory of so many bytes; `None` where it can.
pub fn placement(form: Form, memory: u64, layout: &Layout) -> Option<LayoutFault>
    ensures { result ≡ placement_of form memory layout.now }
{
    let checked = match form {
        Form::Split => split_ring::check_layout(layout, memory),
        Form::Packed => packed_ring::check_layout(layout, memory),
    };
    checked.err()
}

/// Returns true if a queue of this form can lie so, in a memory of so many bytes.
pub fn is_placed(form: Form, memory: u64, layout: &Layout) -> bool
    ensures { result ≡ is_none (placement_of form memory layout.now) }
{
    match form {
        Form::Split => split_ring::check_layout(layout, memory).is_ok(),
        Form::Packed => packed_ring::check_layout(layout, memory).is_ok(),
    }
}

/// Makes a split ring.
fn split_of<M: Memory>(
    alloc: Global,
    number: u16,
    layout: Layout,
    features: u64,
    memory: &M,
) -> Result<AnyRing, NoMemory>
    requires { placement_of Form.Split (M.extent memory.now) layout ≡ None }
    ensures { IfOk result (λ ring. ring_state ring ≡ opening_ring Form.Split (M.extent memory.now) number layout (features_of features)) }
{
    match SplitRing::new(alloc, number, layout, features, memory) {
        Ok(ring) => Ok(AnyRing::Split(ring)),
        Err(LayoutFault::NoMemory) => Err(NoMemory),
        Err(_) => unreachable!(),
    }
}

/// Makes a packed ring.
fn packed_of<M: Memory>(
    alloc: Global,
    number: u16,
    layout: Layout,
    features: u64,
    memory: &M,
) -> Result<AnyRing, NoMemory>
    requires { placement_of Form.Packed (M.extent memory.now) layout ≡ None }
    ensures { IfOk result (λ ring. ring_state ring ≡ opening_ring Form.Packed (M.extent memory.now) number layout (features_of features)) }
{
    match PackedRing::new(alloc, number, layout, features, memory) {
        Ok(ring) => Ok(AnyRing::Packed(ring)),
        Err(LayoutFault::NoMemory) => Err(NoMemory),
        Err(_) => unreachable!(),
    }
}

/// Makes a ring of either form.
fn ring_of<M: Memory>(
    alloc: Global,
    form: Form,
    number: u16,
    layout: Layout,
    features: u64,
    memory: &M,
) -> Result<AnyRing, NoMemory>
    requires { placement_of form (M.extent memory.now) layout ≡ None }
    ensures { IfOk result (λ ring. ring_state ring ≡ opening_ring form (M.extent memory.now) number layout (features_of features)) }
{
    match form {
        Form::Split => split_of(alloc, number, layout, features, memory),
        Form::Packed => packed_of(alloc, number, layout, features, memory),
    }
}

/// The outcome of a fetch from a queue.
#[derive(Drop)]
pub enum Fetch {
    /// Nothing is to be done.
    Idle,
    /// A fault of the guest, which broke the queue now.
    Broke,
    /// A chain.
    Got(Fetched),
}

/// A virtqueue of the device, seen as its ring's plain value with a count of notices.
#[derive(Drop)]
pub struct Queue {
    number: u16,
    ring: AnyRing,
    notices: u64,
    broken: bool,
}

impl Model for Queue {
    ghost use Rattle.std.specs.Prelude.{◌≡◌, ◌≤◌, length, is_some};
    ghost use Rattle.virtqueue.specs.AnyRing.{ring_state};
    ghost use Rattle.virtqueue.specs.Queue.{BareQueue};

    ghost Value = { BareQueue };

    ghost view = { λ q. record { ring = ring_state q.ring; notices = q.notices } };

    ghost invariant = { λ q. (q.number ≡ (ring_state q.ring).queue)
        × (q.broken ≡ is_some (ring_state q.ring).broken)
        × (q.notices ≤ length (ring_state q.ring).log.used) };
}

impl Queue {
    ghost use Rattle.std.specs.Prelude.{◌≡◌, ◌≤◌, ◌+◌, ◌↔◌, List, ℕ, length, is_some, IfOk, IsTrue};
    ghost use Rattle.std.specs.Option.{IfSome};
    ghost use Rattle.std.specs.Prelude.{None, Ok};
    ghost use Rattle.virtqueue.specs.Queue.{opening_queue, placement_of, completing, MayComplete};
    ghost use Rattle.ring_core.specs.State.{Owns, features_of};
    ghost use Rattle.ring_core.specs.Sound.{IsSound, IsLeastOutstanding, outstanding_count};
    ghost use Rattle.ring_core.specs.Writes.{Wrote, all_written, stores_of};
    ghost use Rattle.ring_core.specs.Offer.{used_writes};
    ghost use Rattle.ring_core.specs.Asking.{asking};
    ghost use Rattle.ring_core.specs.Position.{position};
    ghost use Rattle.virtqueue.specs.Looking.{IsIdle, Looks};
    ghost use Rattle.virtqueue.specs.Completing.{SeenBehind};

    /// Opens a queue with this number of a layout that its ring takes, for a driver that agreed to these features. It
    /// looks only at those that concern rings. `NoMemory` where its ring was refused memory.
    pub fn new<M: Memory>(
        alloc: Global,
        form: Form,
        number: u16,
        layout: Layout,
        features: u64,
        memory: &M,
    ) -> Result<Queue, NoMemory>
        requires { placement_of form (M.extent memory.now) layout ≡ None }
        ensures { IfOk result (λ queue. queue ≡ opening_queue form (M.extent memory.now) number layout (features_of features)) }
    {
        let ring = ring_of(alloc, form, number, layout, features, memory)?;
        Ok(Queue {
            number,
            ring,
            notices: 0,
            broken: false,
        })
    }

    /// Returns its number.
    pub fn number(&self) -> u16
        ensures { result ≡ self.now.ring.queue }
    {
        self.number
    }

    /// Returns true if the memory has the size that it was made with.
    pub fn fits<M: Memory>(&self, memory: &M) -> bool
        ensures { IsTrue result ↔ (M.extent memory.now ≡ self.now.ring.memory) }
    {
        self.ring.fits(memory)
    }

    /// Returns true if the memory has the size that it was made with, and the chain is outstanding here. It reads nothing.
    #[inline(always)]
    pub fn may_complete<M: Memory>(&self, memory: &M, chain: &Chain) -> bool
        ensures fits { IsTrue result → M.extent memory.now ≡ self.now.ring.memory }
        ensures owned { IsTrue result → Owns self.now.ring chain.now }
        ensures may { (m : List ℕ) → M.may_be memory.now m → (IsTrue result ↔ MayComplete self.now m chain.now) }
    {
        self.ring.fits(memory) && self.ring.owns(chain)
    }

    /// Returns true if a fetch would find nothing to do: it is broken, or nothing is available. Called with a memory of
    /// the size that it was made with.
    #[inline(always)]
    pub fn is_idle(&self, memory: &GuestMem) -> bool
        requires { length memory.now ≡ self.now.ring.memory }
        ensures { IsTrue result ↔ IsIdle self.now.ring memory.now }
    {
        let mut still = StillMem::of(memory);
        self.is_idle_in(&mut still)
    }

    /// Returns true if a fetch from any memory would find nothing to do, as `is_idle` does. Called in a phase that wrote
    /// nothing yet and has room for a short read, which it may take.
    pub fn is_idle_in<M: Memory>(&self, memory: &mut M) -> bool
        requires reading { M.is_open memory.old }
        requires fits { M.extent memory.old ≡ self.now.ring.memory }
        requires room { M.has_room memory.old 1 }
        ensures size { M.extent memory.new ≡ M.extent memory.old }
        ensures stays { (m : List ℕ) → M.may_be memory.new m → M.may_be memory.old m }
        ensures stores { M.stored memory.new ≡ M.stored memory.old }
        ensures reading { M.is_open memory.new }
        ensures room { (n : ℕ) → M.has_room memory.old (n + 1) → M.has_room memory.new n }
        ensures idle { (m : List ℕ) → M.may_be memory.new m → (IsTrue result ↔ IsIdle self.now.ring m) }
    {
        self.broken || self.ring.is_idle(memory)
    }

    /// Fetches the next chain, with its first readable bytes. `Fetch::Broke` where a fault of the guest broke the queue
    /// now, `Fetch::Idle` where nothing is available or the queue was broken before. `NoMemory`, with nothing changed,
    /// where memory was refused or the queue has accepted 2^64 - 1 chains. Called with a memory of the size that the
    /// queue was made with.
    #[inline(always)]
    pub fn fetch(&mut self, memory: &GuestMem) -> Result<Fetch, NoMemory>
        requires { length memory.now ≡ self.old.ring.memory }
        ensures { Looks self.old memory.now result self.new }
    {
        let mut still = StillMem::of(memory);
        self.fetch_in(&mut still)
    }

    /// Fetches the next chain from any memory, as `fetch` does. Called in a phase that wrote nothing yet and has room for 4
    /// short reads. Where it is idle, it took one at most.
    #[inline(always)]
    pub fn fetch_in<M: Memory>(&mut self, memory: &mut M) -> Result<Fetch, NoMemory>
        requires reading { M.is_open memory.old }
        requires fits { M.extent memory.old ≡ self.old.ring.memory }
        requires room { M.has_room memory.old 4 }
        ensures size { M.extent memory.new ≡ M.extent memory.old }
        ensures stays { (m : List ℕ) → M.may_be memory.new m → M.may_be memory.old m }
        ensures stores { M.stored memory.new ≡ M.stored memory.old }
        ensures reading { M.is_open memory.new }
        ensures room { (n : ℕ) → result ≡ Ok Fetch.Idle → M.has_room memory.old (n + 1) → M.has_room memory.new n }
        ensures looks { (m : List ℕ) → M.may_be memory.new m → Looks self.old m result self.new }
    {
        if self.broken {
            return Ok(Fetch::Idle);
        }
        let fetched = self.ring.fetch(memory);
        let _bytes = memory.size();
        match fetched {
            Ok(None) => Ok(Fetch::Idle),
            Ok(Some(fetched)) => Ok(Fetch::Got(fetched)),
            Err(RingFault::NoMemory) => Err(NoMemory),
            Err(_) => {
                self.broken = true;
                Ok(Fetch::Broke)
            }
        }
    }

    /// Completes a chain into which `len` bytes were written, and counts the notice where the driver wants one. Called
    /// once for each chain of this queue, after its bytes are written. It takes no memory.
    #[inline(always)]
    pub fn complete(&mut self, memory: &mut GuestMem, chain: Chain, len: u32) -> Answered
        requires fits { length memory.old ≡ self.old.ring.memory }
        requires owned { Owns self.old.ring chain }
        ensures ticket { result ≡ chain.ticket }
        ensures memory { memory.new ≡ all_written memory.old (used_writes self.old.ring chain.id len) }
        ensures size { length memory.new ≡ length memory.old }
        ensures queue { self.new ≡ completing memory.new chain self.old }
    {
        self.complete_in(memory, chain, len)
    }

    /// Completes a chain in any memory, as `complete` does. It begins a phase behind its own writes, and by what it reads
    /// there it decides whether the driver wants a notice. It leaves room for 60 short reads.
    #[inline(always)]
    pub fn complete_in<M: WritableMemory>(
        &mut self,
        memory: &mut M,
        chain: Chain,
        len: u32,
    ) -> Answered
        requires fits { M.extent memory.old ≡ self.old.ring.memory }
        requires owned { Owns self.old.ring chain }
        ensures ticket { result ≡ chain.ticket }
        ensures memory { (written : M) × Wrote (M.may_be memory.old) (M.may_be written) (used_writes self.old.ring chain.id len)
            × ((after : M) × M.begins written after × ((m : List ℕ) → M.may_be memory.new m → M.may_be after m)) }
        ensures size { M.extent memory.new ≡ M.extent memory.old }
        ensures reading { M.is_open memory.new }
        ensures room { M.has_room memory.new 60 }
        ensures queue { (m : List ℕ) → M.may_be memory.new m → self.new ≡ completing m chain self.old }
        ensures seen { SeenBehind M.shared (M.may_be memory.old) (M.may_be memory.new) (used_writes self.old.ring chain.id len) }
        ensures stores { M.stored memory.new
            ≡ M.storing (M.stored memory.old) (stores_of (used_writes self.old.ring chain.id len)) }
    {
        let answered = self.ring.complete(memory, chain, len);
        let _bytes = memory.size();
        memory.begin();
        let _used = self.ring.log().used();
        if self.ring.wants_notice(memory) {
            self.notices += 1;
        }
        answered
    }

    /// Returns what the device writes to ask the driver for a notification of the next chain, or for none. It reads no
    /// memory. The bytes lie in the memory that the queue was made with. A broken queue asks for nothing.
    pub fn asking(&self, notify: Notify) -> Option<Asking>
        ensures asks { result ≡ asking self.now.ring notify }
        ensures inside { IfSome result (λ a. a.addr + length a.bytes ≤ self.now.ring.memory) }
    {
        self.ring.asking(notify)
    }

    /// Returns where it goes on: by these first indices of its layout another device goes on where this one is. Asked once
    /// no chain is outstanding; of one that is the other wouldn't know.
    pub fn position(&self) -> Position
        ensures { result ≡ position self.now.ring }
    {
        self.ring.position()
    }

    /// Returns how many notices were wanted.
    pub fn notices(&self) -> u64
        ensures { result ≡ self.now.notices }
    {
        self.notices
    }

    /// Returns true if a fault of the guest broke it.
    pub fn is_broken(&self) -> bool
        ensures { result ≡ is_some self.now.ring.broken }
    {
        self.broken
    }

    /// Returns the fault of the guest that broke it, if any.
    pub fn fault(&self) -> Option<RingFault>
        ensures { result ≡ self.now.ring.broken }
    {
        self.ring.broken()
    }

    /// Returns its log. The outstanding chains agree with it, and are no more than the queue has descriptors.
    pub fn log(&self) -> &QueueLog
        ensures log { result.now ≡ self.now.ring.log }
        ensures sound { IsSound self.now.ring }
        ensures few { outstanding_count self.now.ring ≤ self.now.ring.layout.size }
    {
        self.ring.log()
    }

    /// Returns the least number of an accepted chain that wasn't used, if there is one: asked once the queue is no
    /// longer served.
    pub fn least_outstanding(&self) -> Option<u64>
        ensures { IsLeastOutstanding self.now.ring result }
    {
        self.ring.least_outstanding()
    }
}
