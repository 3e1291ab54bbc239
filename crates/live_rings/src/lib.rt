//! Virtqueues in the memory of a guest that runs: what is fetched and completed there, as of one memory that stands still.
//!
//! # Proved
//!
//! The same, of every list that the memory may be. In live memory a fetch and a completion do what they do in
//! memory that stands still.
#![tactic(auto)]

ghost use Rattle.std.specs.Prelude.{◌≡◌, ◌++◌, List, ℕ};
ghost use Rattle.ring_core.specs.State.{Owns, using};
ghost use Rattle.ring_core.specs.Writes.{Wrote, stores_of};
ghost use Rattle.ring_core.specs.Offer.{used_writes};
ghost use Rattle.ring_core.specs.Fetch.{Fetches};
ghost use Rattle.live_mem.specs.Live.{MayBeLive, stored_live};

use guest_mem::Memory;
use live_mem::{Bus, LiveMem};
use ring_core::{Answered, Chain, Fetched, Ring, RingFault};

/// Fetches the next chain of a queue in a phase of its own. Whatever the guest writes meanwhile, the result is that of a fetch
/// from one memory that stands still, whose bytes are those that the bus gave. It stores nothing. Called with a memory of the
/// size that the queue was made with. Errors are those of `Ring::fetch`.
pub fn fetch<R: Ring, B: Bus>(
    ring: &mut R,
    memory: &mut LiveMem<B>,
) -> Result<Option<Fetched>, RingFault>
    requires { memory.old.size ≡ (R.state ring.old).memory }
    ensures fetches { (m : List ℕ) × MayBeLive memory.new m × Fetches (R.state ring.old) m result (R.state ring.new) }
    ensures stores { stored_live memory.new ≡ stored_live memory.old }
{
    memory.begin();
    let fetched = ring.fetch(memory);
    let _size = memory.size();
    fetched
}

/// Gives a chain back to the driver, into which `len` bytes were written: the used entry is stored in the guest's memory, in
/// the order of `used_writes`, and nothing else. Called once for each chain, with a memory of the size that the queue was made
/// with and a chain that the queue owns.
pub fn complete<R: Ring, B: Bus>(
    ring: &mut R,
    memory: &mut LiveMem<B>,
    chain: Chain,
    len: u32,
) -> Answered
    requires fits { memory.old.size ≡ (R.state ring.old).memory }
    requires owned { Owns (R.state ring.old) chain }
    ensures ticket { result ≡ chain.ticket }
    ensures state { R.state ring.new ≡ using (R.state ring.old) chain }
    ensures memory { Wrote (MayBeLive memory.old) (MayBeLive memory.new) (used_writes (R.state ring.old) chain.id len) }
    ensures stores { stored_live memory.new ≡ stored_live memory.old ++ stores_of (used_writes (R.state ring.old) chain.id len) }
{
    ring.complete(memory, chain, len)
}
