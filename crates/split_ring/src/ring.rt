//! The queue itself.

use crate::areas::{number_at, put_element, put_number};
use crate::placement::check_layout;
use crate::walk::{fault_without_room, walk};
use guest_mem::{Memory, WritableMemory};
use ring_core::{
    Asking, Chain, Completion, Draft, FIRST_BYTES, Features, Fetched, Layout, LayoutFault, Notify,
    Position, QueueLog, Ring, RingBase, RingFault, RingIndex, Ticket, gather,
};
use std::alloc::Global;
use std::marker::Model;

/// VIRTQ_AVAIL_F_NO_INTERRUPT: the driver asks for no notice (VIRTIO 1.2, 2.7.7).
const NO_INTERRUPT: u16 = 1;

/// VIRTQ_USED_F_NO_NOTIFY: the device asks for no notification (VIRTIO 1.2, 2.7.10).
const NO_NOTIFY: u16 = 1;

/// A chain that was found and not accepted yet.
#[derive(Drop)]
pub struct Candidate {
    head: u16,
    draft: Draft,
}

/// A split virtqueue, seen as its plain value. It takes its memory from the allocator that it
/// was made with.
#[derive(Drop)]
pub struct SplitRing {
    base: RingBase,
}

impl Model for SplitRing {
    ghost use Rattle.ring_core.specs.State.{RingState};
    ghost use Rattle.split_ring.specs.Inner.IsSplit.{IsSplit};

    ghost Value = { RingState };

    ghost view = { λ r. r.base };

    ghost invariant = { λ r. IsSplit r.base };
}

impl SplitRing {
    ghost use Rattle.std.specs.Prelude.{MatchResult};
    ghost use Rattle.split_ring.specs.Inner.Placement.{OpensSplit, LayoutRefusedAs};

    /// Makes a queue with this number at this place, of which nothing was fetched yet. Called once for each queue,
    /// where a device is opened, with the memory that all later calls get. It looks at two of the features that were
    /// agreed, VIRTIO_F_INDIRECT_DESC and VIRTIO_F_EVENT_IDX (bits 28 and 29). It refuses a place, in this order:
    ///
    /// - `BadSize`: a size of 0, above 32,768 or no power of two;
    /// - `BadAlignment`: a descriptor table not aligned to 16, an available ring not to 2, or a used ring not to 4;
    /// - `Outside`: one of them that doesn't lie in memory;
    /// - `NoMemory`: want of memory.
    #[tactic(auto, unfolding(ring_core::specs::State::opening))]
    pub fn new<M: Memory>(
        alloc: Global,
        queue: u16,
        layout: Layout,
        features: u64,
        memory: &M,
    ) -> Result<SplitRing, LayoutFault>
        ensures made { MatchResult result
            (OpensSplit (M.extent memory.now) queue layout features)
            (LayoutRefusedAs (M.extent memory.now) layout) }
    {
        check_layout(&layout, memory.size())?;
        let features = Features::of(features);
        match RingBase::split(alloc, queue, layout, features, memory.size()) {
            Ok(base) => Ok(SplitRing { base }),
            Err(_) => Err(LayoutFault::NoMemory),
        }
    }
}

impl SplitRing {
    ghost use Rattle.std.specs.Prelude.{◌≡◌, ◌≢◌, ◌+◌, ◌<◌, List, ℕ, MatchResult, IsOk, IfOk, None, Some};
    ghost use Rattle.ring_core.specs.Split.{available_index, ahead as ahead_of, entry_wrong, next_head, used_index_after};
    ghost use Rattle.ring_core.specs.Asking.{wanted_index};
    ghost use Rattle.split_ring.specs.Inner.Answers.{SplitFinds};

    /// Returns the index of the available ring's next entry.
    fn available_index(&self) -> u16
        ensures { result ≡ available_index self.now }
    {
        let first = self.base.layout().first_available.index;
        first.wrapping_add((self.base.log().accepted() % 65536) as u16)
    }

    /// Returns the used index behind so many completions.
    fn used_index_after(&self, used: u64) -> u16
        ensures { result ≡ used_index_after self.now used }
    {
        let first = self.base.layout().first_used.index;
        first.wrapping_add((used % 65536) as u16)
    }

    /// Returns the index of the entry of which a driver notifies the device, where event indices were agreed.
    fn wanted_index(&self, notify: Notify) -> u16
        ensures { result ≡ wanted_index self.now notify }
    {
        let next = self.available_index();
        match notify {
            Notify::Next => next,
            Notify::Never => next.wrapping_sub(1),
        }
    }

    /// Returns how many entries of the available ring weren't accepted yet.
    #[inline(always)]
    fn ahead<M: Memory>(&self, memory: &mut M) -> u16
        requires reading { M.is_open memory.old }
        requires fits { M.extent memory.old ≡ self.now.memory }
        requires room { M.has_room memory.old 1 }
        ensures size { M.extent memory.new ≡ M.extent memory.old }
        ensures stays { (m : List ℕ) → M.may_be memory.new m → M.may_be memory.old m }
        ensures stores { M.stored memory.new ≡ M.stored memory.old }
        ensures reading { M.is_open memory.new }
        ensures room { (n : ℕ) → M.has_room memory.old (n + 1) → M.has_room memory.new n }
        ensures ahead { (m : List ℕ) → M.may_be memory.new m → result ≡ ahead_of self.now m }
    {
        let index = self.available_index();
        number_at(memory, self.base.layout().driver + 2).wrapping_sub(index)
    }

    /// Returns the head that the next entry of the available ring names, where so many weren't accepted yet.
    fn entry<M: Memory>(&self, memory: &mut M, ahead: u16) -> Result<u16, RingFault>
        requires reading { M.is_open memory.old }
        requires fits { M.extent memory.old ≡ self.now.memory }
        requires some { (m : List ℕ) → M.may_be memory.old m → ahead ≡ ahead_of self.now m }
        requires room { M.has_room memory.old 1 }
        ensures size { M.extent memory.new ≡ M.extent memory.old }
        ensures stays { (m : List ℕ) → M.may_be memory.new m → M.may_be memory.old m }
        ensures stores { M.stored memory.new ≡ M.stored memory.old }
        ensures reading { M.is_open memory.new }
        ensures room { (n : ℕ) → IsOk result → M.has_room memory.old (n + 1) → M.has_room memory.new n }
        ensures entry { (m : List ℕ) → M.may_be memory.new m → MatchResult result
            (λ head. (entry_wrong self.now m ≡ None) × (head ≡ next_head self.now m))
            (λ fault. entry_wrong self.now m ≡ Some fault) }
        ensures range { IfOk result (λ head. head < self.now.layout.size) }
    {
        let layout = self.base.layout();
        if ahead > layout.size {
            return Err(RingFault::IndexJump);
        }
        let index = self.available_index();
        let addr = layout.driver + 4 + 2 * (index % layout.size) as u64;
        let head = number_at(memory, addr);
        if head >= layout.size {
            return Err(RingFault::HeadOutOfRange);
        }
        if self.base.is_outstanding(head) {
            return Err(RingFault::AlreadyOutstanding);
        }
        Ok(head)
    }

    /// Returns the next chain, where so many weren't accepted yet.
    fn next<M: Memory>(&mut self, memory: &mut M, ahead: u16) -> Result<Candidate, RingFault>
        requires reading { M.is_open memory.old }
        requires fits { M.extent memory.old ≡ self.old.memory }
        requires is { (m : List ℕ) → M.may_be memory.old m → ahead ≡ ahead_of self.old m }
        requires some { ahead ≢ 0 }
        requires room { M.has_room memory.old 2 }
        ensures size { M.extent memory.new ≡ M.extent memory.old }
        ensures stays { (m : List ℕ) → M.may_be memory.new m → M.may_be memory.old m }
        ensures stores { M.stored memory.new ≡ M.stored memory.old }
        ensures reading { M.is_open memory.new }
        ensures finds { (m : List ℕ) → M.may_be memory.new m → SplitFinds self.old m result }
        ensures same { self.new ≡ self.old }
    {
        let head = self.entry(memory, ahead)?;
        let layout = self.base.layout();
        let features = self.base.features();
        let Ok(draft) = self.base.draft() else {
            return Err(fault_without_room(memory, &layout, features, head));
        };
        match walk(draft, memory, &layout, features, head) {
            Ok(draft) => Ok(Candidate { head, draft }),
            Err(fault) => Err(fault),
        }
    }
}

impl SplitRing {
    ghost use Rattle.std.specs.Prelude.{◌≡◌, ◌≢◌, List, ℕ, None, Ok};
    ghost use Rattle.ring_core.specs.Split.{ahead as ahead_of};
    ghost use Rattle.ring_core.specs.Offer.{SplitOffers, Found};
    ghost use Rattle.ring_core.specs.Fetch.{Fetches};

    /// Takes the next chain, where so many weren't accepted yet: apart so that a look that finds none is put into its
    /// callers.
    fn fetch_some<M: Memory>(
        &mut self,
        memory: &mut M,
        ahead: u16,
    ) -> Result<Option<Fetched>, RingFault>
        requires reading { M.is_open memory.old }
        requires fits { M.extent memory.old ≡ self.old.memory }
        requires unbroken { self.old.broken ≡ None }
        requires is { (m : List ℕ) → M.may_be memory.old m → ahead ≡ ahead_of self.old m }
        requires some { ahead ≢ 0 }
        requires room { M.has_room memory.old 2 }
        ensures size { M.extent memory.new ≡ M.extent memory.old }
        ensures stays { (m : List ℕ) → M.may_be memory.new m → M.may_be memory.old m }
        ensures stores { M.stored memory.new ≡ M.stored memory.old }
        ensures reading { M.is_open memory.new }
        ensures some { result ≢ Ok None }
        ensures fetches { (m : List ℕ) → M.may_be memory.new m → Fetches self.old m result self.new }
    {
        match self.next(memory, ahead) {
            Ok(candidate) => self.take(memory, candidate),
            Err(RingFault::NoMemory) => Err(RingFault::NoMemory),
            Err(fault) => {
                self.base.break_with(fault);
                Err(fault)
            }
        }
    }

    /// Accepts the chain that was found, and reads its first bytes.
    fn take<M: Memory>(
        &mut self,
        memory: &mut M,
        candidate: Candidate,
    ) -> Result<Option<Fetched>, RingFault>
        requires reading { M.is_open memory.old }
        requires fits { M.extent memory.old ≡ self.old.memory }
        requires unbroken { self.old.broken ≡ None }
        requires found { (m : List ℕ) → M.may_be memory.old m → SplitOffers self.old m (Found candidate.head 1 candidate.draft) }
        ensures size { M.extent memory.new ≡ M.extent memory.old }
        ensures stays { (m : List ℕ) → M.may_be memory.new m → M.may_be memory.old m }
        ensures stores { M.stored memory.new ≡ M.stored memory.old }
        ensures reading { M.is_open memory.new }
        ensures some { result ≢ Ok None }
        ensures fetches { (m : List ℕ) → M.may_be memory.new m → Fetches self.old m result self.new }
    {
        let _ = &self.base;
        let _bytes = memory.size();
        let Candidate { head, mut draft } = candidate;
        self.base.lend_room(&mut draft);
        let Ok(bytes) = gather(memory, &mut draft, FIRST_BYTES) else {
            return Err(RingFault::NoMemory);
        };
        match self.base.accept(head, 1, draft) {
            Ok(chain) => Ok(Some(Fetched { chain, bytes })),
            Err(_) => Err(RingFault::NoMemory),
        }
    }
}

impl Ring for SplitRing {
    ghost state = { λ r. r };

    #[inline(always)]
    fn fetch<M: Memory>(&mut self, memory: &mut M) -> Result<Option<Fetched>, RingFault> {
        if let Some(fault) = self.base.broken() {
            return Err(fault);
        }
        let ahead = self.ahead(memory);
        if ahead == 0 {
            return Ok(None);
        }
        self.fetch_some(memory, ahead)
    }

    #[inline(always)]
    fn is_idle<M: Memory>(&self, memory: &mut M) -> bool {
        !self.base.is_broken() && self.ahead(memory) == 0
    }

    fn finish<M: WritableMemory>(
        &mut self,
        memory: &mut M,
        chain: Chain,
        len: u32,
        _leave: Completion,
    ) -> Ticket {
        let _size = memory.size();
        let layout = self.base.layout();
        let own = self.used_index_after(self.base.log().used());
        let addr = layout.device + 4 + 8 * (own % layout.size) as u64;
        put_element(memory, addr, chain.id() as u32, len);
        put_number(memory, layout.device + 2, own.wrapping_add(1));
        self.base.release(chain)
    }

    #[inline(always)]
    fn wants_notice<M: Memory>(&self, memory: &mut M) -> bool {
        let layout = self.base.layout();
        if !self.base.features().event_index {
            return number_at(memory, layout.driver) & NO_INTERRUPT == 0;
        }
        let used = self.base.log().used();
        let event = number_at(memory, layout.driver + 4 + 2 * layout.size as u64);
        used != 0 && event == self.used_index_after(used - 1)
    }

    fn asking(&self, notify: Notify) -> Option<Asking> {
        if self.base.is_broken() {
            return None;
        }
        let layout = self.base.layout();
        if self.base.features().event_index {
            let addr = layout.device + 4 + 8 * layout.size as u64;
            return Some(Asking::one(addr, self.wanted_index(notify)));
        }
        let flags = match notify {
            Notify::Next => 0,
            Notify::Never => NO_NOTIFY,
        };
        Some(Asking::one(layout.device, flags))
    }

    fn position(&self) -> Position {
        Position {
            available: RingIndex {
                index: self.available_index(),
                wrap: true,
            },
            used: RingIndex {
                index: self.used_index_after(self.base.log().used()),
                wrap: true,
            },
        }
    }

    fn log(&self) -> &QueueLog {
        self.base.log()
    }

    fn least_outstanding(&self) -> Option<u64> {
        self.base.least_outstanding()
    }

    fn broken(&self) -> Option<RingFault> {
        self.base.broken()
    }

    fn fits<M: Memory>(&self, memory: &M) -> bool {
        memory.size() == self.base.memory()
    }

    fn owns(&self, chain: &Chain) -> bool {
        self.base.owns(chain)
    }
}
