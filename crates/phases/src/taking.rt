//! The step that takes a request from its queue.

ghost use Rattle.std.specs.Prelude.{◌≡◌, ◌+◌, List, ℕ, length, min, Ok};
ghost use Rattle.ring_core.specs.Parts.{readable_total};
ghost use Rattle.phases.specs.Slots.{slot_of};
ghost use Rattle.phases.specs.Inner.Taking.{IsTakenAs, TakesRequest, IsOutstandingIn};

use crate::direct_chain::DirectChain;
use crate::fetching::lengths_of_chain;
use crate::slot::Slot;
use foundation::NoMemory;
use guest_mem::Memory;
use request_intake::{Decision, Inventory, decide};
use ring_core::Fetched;
use scsi_codec::FIRST_REQUEST_QUEUE;
use task_set::Arrival;
use virtqueue::{Fetch, Queue};

/// The outcome of taking a chain from a request queue.
#[derive(Drop)]
pub enum Taken {
    /// Nothing.
    Nothing,
    /// A chain whose answer stands in the slot now, or the first fault.
    Other,
    /// A request.
    Arrived(Arrival),
}

/// Decides on a chain that was taken. Returns the request, unless its answer stands in the slot.
#[inline(never)]
fn decided(inventory: &Inventory, fetched: Fetched, slot: &mut Slot) -> Taken
    requires { length fetched.bytes.items ≡ min 1048627 (readable_total fetched.chain.parts) }
    ensures { IsTakenAs inventory.now fetched.chain fetched.bytes.items (slot_of slot.old) result (slot_of slot.new) }
{
    let Fetched {
        mut chain,
        mut bytes,
    } = fetched;
    let lengths = lengths_of_chain(&chain);
    match decide(inventory, &mut bytes, &lengths) {
        Decision::Direct(answer) => {
            chain.keep_room(bytes);
            *slot = Slot::Direct(DirectChain::decided(chain, answer));
            Taken::Other
        }
        Decision::Enter(unit, request) => {
            chain.keep_room(bytes);
            let number = inventory.number_at(unit);
            Taken::Arrived(Arrival::new(unit, number, chain, request))
        }
    }
}

/// Takes the next chain of a request queue as [`phase_fetch`](crate::phase_fetch) does, but gives a request that
/// arrives to the caller, who puts it into the slot or serves it. Its chain is outstanding at the queue. Called in a phase of
/// the memory that wrote nothing yet and has room for 4 short reads. Where it took nothing, it took one of these at most.
#[inline(always)]
pub fn take_request<M: Memory>(
    queue: &mut Queue,
    slot: &mut Slot,
    memory: &mut M,
    inventory: &Inventory,
) -> Result<Taken, NoMemory>
    requires reading { M.is_open memory.old }
    requires room { M.has_room memory.old 4 }
    ensures size { M.extent memory.new ≡ M.extent memory.old }
    ensures stays { (m : List ℕ) → M.may_be memory.new m → M.may_be memory.old m }
    ensures stores { M.stored memory.new ≡ M.stored memory.old }
    ensures reading { M.is_open memory.new }
    ensures room { (n : ℕ) → result ≡ Ok Taken.Nothing → M.has_room memory.old (n + 1) → M.has_room memory.new n }
    ensures takes { (m : List ℕ) → M.may_be memory.new m
        → TakesRequest inventory.now m (slot_of slot.old) queue.old result (slot_of slot.new) queue.new }
    ensures owned { IsOutstandingIn (M.extent memory.new) result queue.new }
{
    if queue.number() < FIRST_REQUEST_QUEUE || !slot.is_empty() || !queue.fits(memory) {
        return Ok(Taken::Nothing);
    }
    match queue.fetch_in(memory) {
        Err(NoMemory) => Err(NoMemory),
        Ok(Fetch::Idle) => Ok(Taken::Nothing),
        Ok(Fetch::Broke) => Ok(Taken::Other),
        Ok(Fetch::Got(fetched)) => {
            let _parts = fetched.chain.parts();
            let _bytes = memory.size();
            Ok(decided(inventory, fetched, slot))
        }
    }
}
