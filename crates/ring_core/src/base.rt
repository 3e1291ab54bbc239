//! The state that queues of both forms keep.

ghost use Rattle.std.specs.Prelude.{◌≡◌, ◌+◌, ◌<◌, ◌≤◌, ◌^◌, ◌↔◌, length, IfOk, OnErr, OnOk, Some, None, [], IsTrue, is_some};
ghost use Rattle.ring_core.specs.State.{under, accepting, using, breaking, opening, next_ticket, Owns};
ghost use Rattle.ring_core.specs.Sound.{IsSound, IsLeastOutstanding};
ghost use Rattle.ring_core.specs.Parts.{PartsFit};

use crate::chain::{Chain, Draft, Spare};
use crate::fault::RingFault;
use crate::layout::{Features, Form, Layout};
use crate::log::{QueueLog, Ticket};
use crate::outstanding::{OutstandingChain, OutstandingTable};
use std::alloc::{AllocError, Global};
use std::marker::Model;

/// A queue's place, its log and its outstanding chains. For rings.
#[derive(Drop)]
pub struct RingBase {
    alloc: Global,
    form: Form,
    queue: u16,
    layout: Layout,
    features: Features,
    memory: u64,
    log: QueueLog,
    outstanding: OutstandingTable,
    accepted_slots: u128,
    used_slots: u128,
    latest_slots: u16,
    broken: Option<RingFault>,
    // The room that the chain used last leaves to the next.
    spare: Option<Spare>,
    // The larger room for bytes that a used chain leaves to the next that has so many.
    large: Vec<u8>,
}

impl Model for RingBase {
    ghost use Rattle.ring_core.specs.State.{RingState};
    ghost use Rattle.ring_core.specs.Sound.{IsSound};

    ghost Value = { RingState };

    ghost use Rattle.ring_core.specs.Base.{state_of};

    ghost view = { state_of };

    ghost invariant = { λ b. IsSound (state_of b) };
}

impl RingBase {
    /// Makes a split queue of which nothing was fetched yet, with an entry for each head.
    pub fn split(
        alloc: Global,
        queue: u16,
        layout: Layout,
        features: Features,
        memory: u64,
    ) -> Result<RingBase, AllocError>
        ensures { IfOk result (λ base. base ≡ opening Form.Split queue layout features memory layout.size) }
    {
        let outstanding = OutstandingTable::by_head(alloc, layout.size as usize)?;
        Ok(RingBase {
            alloc,
            form: Form::Split,
            queue,
            layout,
            features,
            memory,
            log: QueueLog::new(),
            outstanding,
            accepted_slots: 0,
            used_slots: 0,
            latest_slots: 0,
            broken: None,
            spare: None,
            large: Vec::new(alloc),
        })
    }

    /// Makes a packed queue of which nothing was fetched yet, whose ids are below `ids`, at most 65,536. It takes no
    /// memory.
    pub fn packed(
        alloc: Global,
        queue: u16,
        layout: Layout,
        features: Features,
        memory: u64,
        ids: usize,
    ) -> RingBase
        requires { ids ≤ 65536 }
        ensures { result ≡ opening Form.Packed queue layout features memory ids }
    {
        RingBase {
            alloc,
            form: Form::Packed,
            queue,
            layout,
            features,
            memory,
            log: QueueLog::new(),
            outstanding: OutstandingTable::by_id(alloc, ids),
            accepted_slots: 0,
            used_slots: 0,
            latest_slots: 0,
            broken: None,
            spare: None,
            large: Vec::new(alloc),
        }
    }

    /// Makes room for the next chain: what the one that was used last left, or else memory is taken for it.
    pub fn draft(&mut self) -> Result<Draft, AllocError>
        ensures empty { IfOk result (λ draft. draft ≡ []) }
        ensures same { self.new ≡ self.old }
    {
        match self.spare.take() {
            Some(spare) => Ok(spare.into_draft()),
            None => Draft::new(self.alloc),
        }
    }

    /// Lends the larger room to a chain that was found, where it has more readable bytes than a chain's own room holds.
    #[inline(always)]
    pub fn lend_room(&mut self, draft: &mut Draft)
        ensures same { self.new ≡ self.old }
        ensures draft { draft.new ≡ draft.old }
    {
        draft.borrow_room(&mut self.large);
    }

    /// Returns its log.
    pub fn log(&self) -> &QueueLog
        ensures log { result.now ≡ self.now.log }
        ensures sound { IsSound self.now }
    {
        &self.log
    }

    /// Returns where it lies.
    pub fn layout(&self) -> Layout
        ensures { result ≡ self.now.layout }
    {
        self.layout
    }

    /// Returns the features that were agreed.
    pub fn features(&self) -> Features
        ensures { result ≡ self.now.features }
    {
        self.features
    }

    /// Returns the size in bytes of the memory that it was made with.
    pub fn memory(&self) -> u64
        ensures { result ≡ self.now.memory }
    {
        self.memory
    }

    /// Returns the slots of all accepted chains.
    pub fn accepted_slots(&self) -> u128
        ensures slots { result ≡ self.now.accepted_slots }
        ensures bounded { result < 2 ^ 100 }
    {
        let _count = self.log.accepted();
        self.accepted_slots
    }

    /// Returns the slots of all used chains.
    pub fn used_slots(&self) -> u128
        ensures slots { result ≡ self.now.used_slots }
        ensures below { result ≤ self.now.accepted_slots }
    {
        self.used_slots
    }

    /// Returns the slots of the latest used chain.
    pub fn latest_slots(&self) -> u16
        ensures { result ≡ self.now.latest_slots }
    {
        self.latest_slots
    }

    /// Returns the fault that broke it, if one did.
    pub fn broken(&self) -> Option<RingFault>
        ensures broken { result ≡ self.now.broken }
        ensures by_guest { result ≡ Some RingFault.NoMemory → ⊥ }
    {
        self.broken
    }

    /// Returns true if a fault broke it.
    pub fn is_broken(&self) -> bool
        ensures { result ≡ is_some self.now.broken }
    {
        self.broken.is_some()
    }

    /// Returns true if a chain with this head or id is outstanding.
    pub fn is_outstanding(&self, id: u16) -> bool
        ensures { result ≡ is_some (under self.now id) }
    {
        self.outstanding.get(id).is_some()
    }

    /// Returns true if the chain is outstanding here, and of a memory of the same size.
    pub fn owns(&self, chain: &Chain) -> bool
        ensures { IsTrue result ↔ Owns self.now chain.now }
    {
        let ticket = chain.ticket();
        ticket.queue == self.queue
            && chain.memory() == self.memory
            && self.outstanding.get(chain.id())
                == Some(OutstandingChain {
                    number: ticket.number,
                    slots: chain.slots(),
                })
    }

    /// Returns the least number of an accepted chain that wasn't used, if there is one.
    pub fn least_outstanding(&self) -> Option<u64>
        ensures { IsLeastOutstanding self.now result }
    {
        self.outstanding.least()
    }

    /// Accepts a chain that was found. Refused where the table of outstanding chains can't grow, or the log can count
    /// no more.
    #[inline(always)]
    pub fn accept(&mut self, id: u16, slots: u16, draft: Draft) -> Result<Chain, AllocError>
        requires free { under self.old id ≡ None }
        requires in_range { id < length self.old.outstanding }
        requires fit { PartsFit self.old.memory draft }
        ensures chain { IfOk result (λ c. c ≡ record {
          ticket = next_ticket self.old;
          id = id;
          slots = slots;
          parts = draft;
          memory = self.old.memory;
        }) }
        ensures ok { OnOk result (self.new ≡ accepting self.old id slots) }
        ensures owned { IfOk result (λ c. Owns self.new c) }
        ensures err { OnErr result (self.new ≡ self.old) }
    {
        let number = self.log.accepted();
        let ticket = Ticket {
            queue: self.queue,
            number,
        };
        self.outstanding
            .put(id, OutstandingChain { number, slots })?;
        if let Err(refused) = self.log.accept(ticket) {
            self.outstanding.remove(id);
            return Err(refused);
        }
        self.accepted_slots += slots as u128;
        Ok(Chain::of(ticket, id, slots, draft, self.memory))
    }

    /// Uses an outstanding chain. It takes no memory.
    #[inline(always)]
    pub fn release(&mut self, chain: Chain) -> Ticket
        requires { Owns self.old chain }
        ensures ticket { result ≡ chain.ticket }
        ensures state { self.new ≡ using self.old chain }
    {
        let ticket = chain.ticket();
        self.log.record_use(ticket);
        self.outstanding.remove(chain.id());
        self.used_slots += chain.slots() as u128;
        self.latest_slots = chain.slots();
        self.keep(chain);
        ticket
    }

    /// Keeps the room of a chain that is over for the next, where none is kept yet; and its room for bytes, where that is
    /// larger than the one that is kept.
    #[inline(always)]
    fn keep(&mut self, mut chain: Chain)
        ensures { self.new ≡ self.old }
    {
        chain.leave_room(&mut self.large);
        if self.spare.is_none() {
            self.spare = chain.into_spare();
        }
    }

    /// Breaks the queue for good.
    pub fn break_with(&mut self, fault: RingFault)
        requires { fault ≡ RingFault.NoMemory → ⊥ }
        ensures { self.new ≡ breaking self.old fault }
    {
        self.broken = Some(fault);
    }
}
