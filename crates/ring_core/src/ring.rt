//! The contract of every virtqueue, in whatever form it lies in memory.

ghost use Rattle.std.specs.Prelude.{◌≡◌, ◌↔◌, ◌+◌, ◌<◌, ◌≤◌, List, ℕ, IsTrue, length, None, Ok};
ghost use Rattle.std.specs.Option.{IfSome};
ghost use Rattle.ring_core.specs.State.{RingState, Owns, using};
ghost use Rattle.ring_core.specs.Sound.{IsSound, IsLeastOutstanding, outstanding_count};
ghost use Rattle.ring_core.specs.Writes.{Wrote, stores_of};
ghost use Rattle.ring_core.specs.Offer.{Offers, Nothing, used_writes, wants_notice};
ghost use Rattle.ring_core.specs.Asking.{asking};
ghost use Rattle.ring_core.specs.Position.{position};
ghost use Rattle.ring_core.specs.Fetch.{Fetches};

use crate::answered::{Answered, Completion};
use crate::asking::{Asking, Notify};
use crate::chain::{Chain, Fetched};
use crate::fault::RingFault;
use crate::layout::Position;
use crate::log::{QueueLog, Ticket};
use guest_mem::{Memory, WritableMemory};

/// A virtqueue: the device's side of it.
pub trait Ring {
    /// The queue as a plain value.
    ghost state: { Self → RingState };

    /// Takes the next available chain, if there is one, and reads its first 1,048,627 readable
    /// bytes at once. Called with a memory that `fits`, in a phase that wrote nothing yet and has room for 4 short reads.
    /// A fault of the guest breaks the queue for good: later fetches answer the same fault, and chains accepted before can
    /// still be completed. `NoMemory`, where a growth is refused or the queue has accepted 2^64 - 1 chains, leaves the queue
    /// as it was. A fetch that finds nothing is one short read.
    fn fetch<M: Memory>(&mut self, memory: &mut M) -> Result<Option<Fetched>, RingFault>
        requires reading { M.is_open memory.old }
        requires fits { M.extent memory.old ≡ (state self.old).memory }
        requires room { M.has_room memory.old 4 }
        ensures size { M.extent memory.new ≡ M.extent memory.old }
        ensures stays { (m : List ℕ) → M.may_be memory.new m → M.may_be memory.old m }
        ensures stores { M.stored memory.new ≡ M.stored memory.old }
        ensures reading { M.is_open memory.new }
        ensures room { (n : ℕ) → result ≡ Ok None → M.has_room memory.old (n + 1) → M.has_room memory.new n }
        ensures fetches { (m : List ℕ) → M.may_be memory.new m → Fetches (state self.old) m result (state self.new) };

    /// Returns true if a fetch would find nothing: the cheap test before one, by one short read. A broken queue isn't idle.
    /// Called with a memory that `fits`, in a phase that wrote nothing yet and has room for it.
    fn is_idle<M: Memory>(&self, memory: &mut M) -> bool
        requires reading { M.is_open memory.old }
        requires fits { M.extent memory.old ≡ (state self.now).memory }
        requires room { M.has_room memory.old 1 }
        ensures size { M.extent memory.new ≡ M.extent memory.old }
        ensures stays { (m : List ℕ) → M.may_be memory.new m → M.may_be memory.old m }
        ensures stores { M.stored memory.new ≡ M.stored memory.old }
        ensures reading { M.is_open memory.new }
        ensures room { (n : ℕ) → M.has_room memory.old (n + 1) → M.has_room memory.new n }
        ensures idle { (m : List ℕ) → M.may_be memory.new m → IsTrue result ↔ Offers (state self.now) m Nothing };

    /// Does the part of `complete` that is the queue's own; `complete` alone can call it.
    fn finish<M: WritableMemory>(
        &mut self,
        memory: &mut M,
        chain: Chain,
        len: u32,
        leave: Completion,
    ) -> Ticket
        requires fits { M.extent memory.old ≡ (state self.old).memory }
        requires owned { Owns (state self.old) chain }
        ensures ticket { result ≡ chain.ticket }
        ensures state { state self.new ≡ using (state self.old) chain }
        ensures memory { Wrote (M.may_be memory.old) (M.may_be memory.new) (used_writes (state self.old) chain.id len) }
        ensures stores { M.stored memory.new
            ≡ M.storing (M.stored memory.old) (stores_of (used_writes (state self.old) chain.id len)) }
        ensures size { M.extent memory.new ≡ M.extent memory.old };

    /// Gives a chain back to the driver, into which `len` bytes were written: writes its used
    /// entry. Called once for each chain, with a memory that `fits` and a chain that the queue
    /// `owns`. It takes no memory.
    final fn complete<M: WritableMemory>(
        &mut self,
        memory: &mut M,
        chain: Chain,
        len: u32,
    ) -> Answered
        requires fits { M.extent memory.old ≡ (state self.old).memory }
        requires owned { Owns (state self.old) chain }
        ensures ticket { result ≡ chain.ticket }
        ensures state { state self.new ≡ using (state self.old) chain }
        ensures memory { Wrote (M.may_be memory.old) (M.may_be memory.new) (used_writes (state self.old) chain.id len) }
        ensures stores { M.stored memory.new
            ≡ M.storing (M.stored memory.old) (stores_of (used_writes (state self.old) chain.id len)) }
        ensures size { M.extent memory.new ≡ M.extent memory.old }
    {
        Answered::of(self.finish(memory, chain, len, Completion::begin()))
    }

    /// Returns true if the driver asks for a notice of used chains. Called with a memory that `fits`, in a phase that
    /// began behind the used entry's writes. It takes two short reads at most, for which the phase has room.
    fn wants_notice<M: Memory>(&self, memory: &mut M) -> bool
        requires reading { M.is_open memory.old }
        requires fits { M.extent memory.old ≡ (state self.now).memory }
        requires room { M.has_room memory.old 2 }
        ensures size { M.extent memory.new ≡ M.extent memory.old }
        ensures stays { (m : List ℕ) → M.may_be memory.new m → M.may_be memory.old m }
        ensures stores { M.stored memory.new ≡ M.stored memory.old }
        ensures reading { M.is_open memory.new }
        ensures room { (n : ℕ) → M.has_room memory.old (n + 2) → M.has_room memory.new n }
        ensures wants { (m : List ℕ) → M.may_be memory.new m → result ≡ wants_notice (state self.now) m };

    /// Returns what the device writes to ask the driver for a notification of the next chain, or for none. It reads no
    /// memory. The bytes lie in the device area, in a memory that `fits`. A broken queue asks for nothing.
    fn asking(&self, notify: Notify) -> Option<Asking>
        ensures asks { result ≡ asking (state self.now) notify }
        ensures inside { IfSome result (λ a. a.addr + length a.bytes ≤ (state self.now).memory) };

    /// Returns where the queue goes on. Once no chain is outstanding, a device that opens it there goes on where this one
    /// is; of a chain that is outstanding it wouldn't know.
    fn position(&self) -> Position
        ensures { result ≡ position (state self.now) };

    /// Returns which chains were accepted, and which were used. The queue's counts and its outstanding chains agree
    /// with it. No more chains are outstanding than the queue has descriptors (VIRTIO 1.2, 2.7 and 2.8).
    fn log(&self) -> &QueueLog
        ensures log { result.now ≡ (state self.now).log }
        ensures sound { IsSound (state self.now) }
        ensures few { outstanding_count (state self.now) ≤ (state self.now).layout.size };

    /// Returns the least number of an accepted chain that wasn't used, if there is one: asked once the queue is no
    /// longer served. It takes no memory.
    fn least_outstanding(&self) -> Option<u64>
        ensures { IsLeastOutstanding (state self.now) result };

    /// Returns the fault of the guest that broke the queue, if any.
    fn broken(&self) -> Option<RingFault>
        ensures { result ≡ (state self.now).broken };

    /// Returns true if the memory has the size that the queue was made with.
    fn fits<M: Memory>(&self, memory: &M) -> bool
        ensures { IsTrue result ↔ (M.extent memory.now ≡ (state self.now).memory) };

    /// Returns true if the chain is outstanding here, and was fetched from a memory of that size.
    fn owns(&self, chain: &Chain) -> bool
        ensures { IsTrue result ↔ Owns (state self.now) chain.now };
}
