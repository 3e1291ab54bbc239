//! The queue itself.

use crate::placement::check_layout;
use crate::slots::{
    descriptor_at, flags_of_used, index_at, is_available, names_one, number_at, passed_at,
    put_used, slot_addr, slot_after, wrap_at,
};
use crate::walk::{Candidate, fault_without_room, walk};
use guest_mem::{Memory, WritableMemory};
use ring_core::{
    Asking, Chain, Completion, Draft, FIRST_BYTES, Features, Fetched, Layout, LayoutFault, Notify,
    Position, QueueLog, Ring, RingBase, RingFault, Ticket, gather,
};
use std::alloc::Global;
use std::marker::Model;

/// RING_EVENT_FLAGS_ENABLE in the two low bits of a side's flags: it asks for every notice (VIRTIO 1.2, 2.8.10 and
/// 2.8.14).
const ENABLE: u16 = 0;

/// RING_EVENT_FLAGS_DISABLE: it asks for no notice.
const DISABLE: u16 = 1;

/// RING_EVENT_FLAGS_DESC: it asks for one of a certain slot, where event indices were agreed.
const DESC: u16 = 2;

/// The wrap counter in the index of a slot, beside its offset.
const WRAP: u16 = 32768;

/// The number of ids that a chain may have: any of two bytes.
const ALL_IDS: usize = 65536;

/// A packed virtqueue, seen as its plain value. It takes its memory from the allocator that it
/// was made with.
#[derive(Drop)]
pub struct PackedRing {
    base: RingBase,
}

impl Model for PackedRing {
    ghost use Rattle.ring_core.specs.State.{RingState};
    ghost use Rattle.packed_ring.specs.Inner.IsPacked.{IsPacked};

    ghost Value = { RingState };

    ghost view = { λ r. r.base };

    ghost invariant = { λ r. IsPacked r.base };
}

impl PackedRing {
    ghost use Rattle.std.specs.Prelude.{MatchResult};
    ghost use Rattle.packed_ring.specs.Inner.Placement.{OpensPacked, IsMisplaced};

    /// Makes a queue with this number at this place, of which nothing was fetched yet. Called once for each queue,
    /// where a device is opened, with the memory that all later calls get. It looks at two of the features that were
    /// agreed, VIRTIO_F_INDIRECT_DESC and VIRTIO_F_EVENT_IDX (bits 28 and 29). It refuses a place, in this order:
    ///
    /// - `BadSize`: a size of 0 or above 32,768;
    /// - `BadAlignment`: a descriptor ring not aligned to 16, or an event suppression area not to 4;
    /// - `Outside`: one of them that doesn't lie in memory;
    /// - `BadStart`: a first index that isn't the number of a slot.
    ///
    /// It takes no memory, so it is never `NoMemory`.
    pub fn new<M: Memory>(
        alloc: Global,
        queue: u16,
        layout: Layout,
        features: u64,
        memory: &M,
    ) -> Result<PackedRing, LayoutFault>
        ensures made { MatchResult result
            (OpensPacked (M.extent memory.now) queue layout features)
            (IsMisplaced (M.extent memory.now) layout) }
    {
        let bytes = memory.size();
        check_layout(&layout, bytes)?;
        let features = Features::of(features);
        let base = RingBase::packed(alloc, queue, layout, features, bytes, ALL_IDS);
        Ok(PackedRing { base })
    }
}

impl PackedRing {
    ghost use Rattle.std.specs.Prelude.{◌≡◌, ◌≢◌, ◌+◌, ◌≤◌, [], List, ℕ, None, Ok, true};
    ghost use Rattle.ring_core.specs.Packed.{available_place, used_place, is_available as is_available_in};
    ghost use Rattle.ring_core.specs.Asking.{wanted_slot, suppression_flags};
    ghost use Rattle.packed_ring.specs.Inner.Answers.{PackedFinds};
    ghost use Rattle.ring_core.specs.Offer.{PackedOffers, Found};
    ghost use Rattle.ring_core.specs.Fetch.{Fetches};

    /// Returns how many slots were passed before the next available one.
    #[inline(always)]
    fn available_place(&self) -> u128
        ensures { result ≡ available_place self.now }
    {
        let layout = self.base.layout();
        self.base.accepted_slots() + passed_at(layout.size, layout.first_available) as u128
    }

    /// Returns how many slots were passed before the next used one.
    #[inline(always)]
    fn used_place(&self) -> u128
        ensures passed { result ≡ used_place self.now }
        ensures behind { self.now.used_slots ≤ result }
    {
        let layout = self.base.layout();
        let _accepted = self.base.accepted_slots();
        self.base.used_slots() + passed_at(layout.size, layout.first_used) as u128
    }

    /// Returns the offset and wrap of the slot of which a driver notifies the device, where the flags are DESC.
    fn wanted_slot(&self, notify: Notify) -> u16
        ensures { result ≡ wanted_slot self.now notify }
    {
        if notify == Notify::Never || !self.base.features().event_index {
            return 0;
        }
        let layout = self.base.layout();
        let next = self.available_place();
        let wrap = if wrap_at(layout.size, next) { WRAP } else { 0 };
        slot_after(next, layout.size) + wrap
    }

    /// Returns the flags that ask the driver for this.
    fn suppression_flags(&self, notify: Notify) -> u16
        ensures { result ≡ suppression_flags self.now.features notify }
    {
        if notify == Notify::Never {
            DISABLE
        } else if self.base.features().event_index {
            DESC
        } else {
            ENABLE
        }
    }

    /// Returns true if the next slot holds an available descriptor.
    fn has_next<M: Memory>(&self, memory: &mut M) -> bool
        requires reading { M.is_open memory.old }
        requires fits { M.extent memory.old ≡ self.now.memory }
        requires room { M.has_room memory.old 1 }
        ensures size { M.extent memory.new ≡ M.extent memory.old }
        ensures stays { (m : List ℕ) → M.may_be memory.new m → M.may_be memory.old m }
        ensures stores { M.stored memory.new ≡ M.stored memory.old }
        ensures reading { M.is_open memory.new }
        ensures room { (n : ℕ) → M.has_room memory.old (n + 1) → M.has_room memory.new n }
        ensures next { (m : List ℕ) → M.may_be memory.new m → result ≡ is_available_in self.now m }
    {
        let layout = self.base.layout();
        let next = self.available_place();
        let first = descriptor_at(memory, &layout, next);
        is_available(&first, wrap_at(layout.size, next))
    }

    /// Returns the next chain, where there is one.
    fn next<M: Memory>(&mut self, memory: &mut M) -> Result<Candidate, RingFault>
        requires reading { M.is_open memory.old }
        requires fits { M.extent memory.old ≡ self.old.memory }
        requires some { (m : List ℕ) → M.may_be memory.old m → is_available_in self.old m ≡ true }
        requires room { M.has_room memory.old 1 }
        ensures size { M.extent memory.new ≡ M.extent memory.old }
        ensures stays { (m : List ℕ) → M.may_be memory.new m → M.may_be memory.old m }
        ensures stores { M.stored memory.new ≡ M.stored memory.old }
        ensures reading { M.is_open memory.new }
        ensures finds { (m : List ℕ) → M.may_be memory.new m → PackedFinds self.old m result }
        ensures same { self.new ≡ self.old }
    {
        let layout = self.base.layout();
        let next = self.available_place();
        let Ok(draft) = self.base.draft() else {
            return Err(fault_without_room(memory, &layout, self.base.features(), next));
        };
        self.find(memory, draft)
    }

    /// Returns the next chain, where there is one, in this room.
    fn find<M: Memory>(&self, memory: &mut M, draft: Draft) -> Result<Candidate, RingFault>
        requires reading { M.is_open memory.old }
        requires fits { M.extent memory.old ≡ self.now.memory }
        requires some { (m : List ℕ) → M.may_be memory.old m → is_available_in self.now m ≡ true }
        requires empty { draft ≡ [] }
        requires room { M.has_room memory.old 1 }
        ensures size { M.extent memory.new ≡ M.extent memory.old }
        ensures stays { (m : List ℕ) → M.may_be memory.new m → M.may_be memory.old m }
        ensures stores { M.stored memory.new ≡ M.stored memory.old }
        ensures reading { M.is_open memory.new }
        ensures finds { (m : List ℕ) → M.may_be memory.new m → PackedFinds self.now m result }
    {
        let layout = self.base.layout();
        let next = self.available_place();
        match walk(draft, memory, &layout, self.base.features(), next) {
            Ok(found) => {
                let outstanding = self.base.accepted_slots() - self.base.used_slots();
                if self.base.is_outstanding(found.id) {
                    Err(RingFault::AlreadyOutstanding)
                } else if outstanding + found.slots as u128 > layout.size as u128 {
                    Err(RingFault::RingOverrun)
                } else {
                    Ok(found)
                }
            }
            Err(fault) => Err(fault),
        }
    }

    /// Takes the next chain, where there is one: apart so that a look that finds none is put into its callers.
    fn fetch_some<M: Memory>(&mut self, memory: &mut M) -> Result<Option<Fetched>, RingFault>
        requires reading { M.is_open memory.old }
        requires fits { M.extent memory.old ≡ self.old.memory }
        requires unbroken { self.old.broken ≡ None }
        requires some { (m : List ℕ) → M.may_be memory.old m → is_available_in self.old m ≡ true }
        requires room { M.has_room memory.old 1 }
        ensures size { M.extent memory.new ≡ M.extent memory.old }
        ensures stays { (m : List ℕ) → M.may_be memory.new m → M.may_be memory.old m }
        ensures stores { M.stored memory.new ≡ M.stored memory.old }
        ensures reading { M.is_open memory.new }
        ensures some { result ≢ Ok None }
        ensures fetches { (m : List ℕ) → M.may_be memory.new m → Fetches self.old m result self.new }
    {
        match self.next(memory) {
            Ok(found) => self.take(memory, found),
            Err(RingFault::NoMemory) => Err(RingFault::NoMemory),
            Err(fault) => {
                self.base.break_with(fault);
                Err(fault)
            }
        }
    }

    /// Accepts the chain that was found, and reads its first bytes.
    fn take<M: Memory>(
        &mut self,
        memory: &mut M,
        candidate: Candidate,
    ) -> Result<Option<Fetched>, RingFault>
        requires reading { M.is_open memory.old }
        requires fits { M.extent memory.old ≡ self.old.memory }
        requires unbroken { self.old.broken ≡ None }
        requires found { (m : List ℕ) → M.may_be memory.old m → PackedOffers self.old m (Found candidate.id candidate.slots candidate.draft) }
        ensures size { M.extent memory.new ≡ M.extent memory.old }
        ensures stays { (m : List ℕ) → M.may_be memory.new m → M.may_be memory.old m }
        ensures stores { M.stored memory.new ≡ M.stored memory.old }
        ensures reading { M.is_open memory.new }
        ensures some { result ≢ Ok None }
        ensures fetches { (m : List ℕ) → M.may_be memory.new m → Fetches self.old m result self.new }
    {
        let _ = &self.base;
        let _bytes = memory.size();
        let Candidate {
            id,
            slots,
            mut draft,
        } = candidate;
        self.base.lend_room(&mut draft);
        let Ok(bytes) = gather(memory, &mut draft, FIRST_BYTES) else {
            return Err(RingFault::NoMemory);
        };
        match self.base.accept(id, slots, draft) {
            Ok(chain) => Ok(Some(Fetched { chain, bytes })),
            Err(_) => Err(RingFault::NoMemory),
        }
    }
}

impl Ring for PackedRing {
    ghost state = { λ r. r };

    #[inline(always)]
    fn fetch<M: Memory>(&mut self, memory: &mut M) -> Result<Option<Fetched>, RingFault> {
        if let Some(fault) = self.base.broken() {
            return Err(fault);
        }
        if !self.has_next(memory) {
            return Ok(None);
        }
        self.fetch_some(memory)
    }

    #[inline(always)]
    fn is_idle<M: Memory>(&self, memory: &mut M) -> bool {
        !self.base.is_broken() && !self.has_next(memory)
    }

    fn finish<M: WritableMemory>(
        &mut self,
        memory: &mut M,
        chain: Chain,
        len: u32,
        _leave: Completion,
    ) -> Ticket {
        let _size = memory.size();
        let _log = self.base.log();
        let layout = self.base.layout();
        let used = self.used_place();
        let flags = flags_of_used(wrap_at(layout.size, used), len);
        put_used(memory, slot_addr(&layout, used) + 8, len, chain.id(), flags);
        self.base.release(chain)
    }

    #[inline(always)]
    fn wants_notice<M: Memory>(&self, memory: &mut M) -> bool {
        let layout = self.base.layout();
        let flags = number_at(memory, layout.driver + 2) % 4;
        if !self.base.features().event_index || flags != DESC {
            return flags != DISABLE;
        }
        let latest = self.base.latest_slots();
        let offset_wrap = number_at(memory, layout.driver);
        names_one(
            layout.size,
            offset_wrap,
            self.used_place() - latest as u128,
            latest,
        )
    }

    fn asking(&self, notify: Notify) -> Option<Asking> {
        if self.base.is_broken() {
            return None;
        }
        let slot = self.wanted_slot(notify);
        let flags = self.suppression_flags(notify);
        Some(Asking::two(self.base.layout().device, slot, flags))
    }

    fn position(&self) -> Position {
        let size = self.base.layout().size;
        Position {
            available: index_at(size, self.available_place()),
            used: index_at(size, self.used_place()),
        }
    }

    fn log(&self) -> &QueueLog {
        self.base.log()
    }

    fn least_outstanding(&self) -> Option<u64> {
        self.base.least_outstanding()
    }

    fn broken(&self) -> Option<RingFault> {
        self.base.broken()
    }

    fn fits<M: Memory>(&self, memory: &M) -> bool {
        memory.size() == self.base.memory()
    }

    fn owns(&self, chain: &Chain) -> bool {
        self.base.owns(chain)
    }
}
