//! The steps that take a chain from a queue.

ghost use Rattle.std.specs.Prelude.{◌≡◌, ◌+◌, ◌≤◌, ◌^◌, List, ℕ, length, false, Ok};
ghost use Rattle.ring_core.specs.Parts.{PartsFit, writable_total};
ghost use Rattle.task_mgmt.specs.Inner.Control.{Suits};
ghost use Rattle.device_model.specs.Event.Fetch.{DecidesControl};
ghost use Rattle.device_model.specs.Parts.{lengths_of};
ghost use Rattle.phases.specs.Queue.{with_slot};
ghost use Rattle.phases.specs.Slots.{slot_of};
ghost use Rattle.phases.specs.Fetching.{FetchesRequest, FetchesControl};
ghost use Rattle.phases.specs.Inner.Fetching.{IsDecided};

use crate::direct_chain::DirectChain;
use crate::function::OpenFunction;
use crate::slot::Slot;
use crate::taking::{Taken, take_request};
use foundation::NoMemory;
use guest_mem::{GuestMem, Memory, StillMem};
use request_intake::{ChainLengths, Inventory};
use ring_core::{Chain, Fetched};
use scsi_codec::{CONTROL_QUEUE, one_control};
use task_mgmt::{ControlDecision, decide_control};
use virtqueue::{Fetch, Queue};

/// Returns the lengths of a chain.
pub(crate) fn lengths_of_chain(chain: &Chain) -> ChainLengths
    ensures lengths { result ≡ lengths_of chain.now }
    ensures sum { result.readable + result.writable ≤ 2 ^ 32 }
    ensures fit { PartsFit chain.now.memory chain.now.parts }
{
    let _parts = chain.parts();
    ChainLengths {
        readable: chain.readable_len(),
        writable: chain.writable_len(),
    }
}

/// Takes the next chain of a request queue, where its slot is empty and the memory is the queue's, and decides of it. A
/// request that arrived, or a chain that is answered directly, then stands in the slot. A fault of the guest breaks the
/// queue. Returns true if something changed. `NoMemory`, with nothing changed, where the fetch was refused memory or
/// the queue has accepted 2^64 - 1 chains.
pub fn phase_fetch(
    queue: &mut Queue,
    slot: &mut Slot,
    memory: &GuestMem,
    inventory: &Inventory,
) -> Result<bool, NoMemory>
    ensures { FetchesRequest inventory.now memory.now
        (with_slot (slot_of slot.old) queue.old) result (with_slot (slot_of slot.new) queue.new) }
{
    let mut still = StillMem::of(memory);
    phase_fetch_in(queue, slot, &mut still, inventory)
}

/// Takes the next chain of a request queue from any memory, as [`phase_fetch`] does. Called in a phase of the
/// memory that wrote nothing yet and has room for 4 short reads. Where nothing changed, it took one at most.
#[inline(always)]
pub fn phase_fetch_in<M: Memory>(
    queue: &mut Queue,
    slot: &mut Slot,
    memory: &mut M,
    inventory: &Inventory,
) -> Result<bool, NoMemory>
    requires reading { M.is_open memory.old }
    requires room { M.has_room memory.old 4 }
    ensures size { M.extent memory.new ≡ M.extent memory.old }
    ensures stays { (m : List ℕ) → M.may_be memory.new m → M.may_be memory.old m }
    ensures stores { M.stored memory.new ≡ M.stored memory.old }
    ensures reading { M.is_open memory.new }
    ensures room { (n : ℕ) → result ≡ Ok false → M.has_room memory.old (n + 1) → M.has_room memory.new n }
    ensures fetches { (m : List ℕ) → M.may_be memory.new m → FetchesRequest inventory.now m
        (with_slot (slot_of slot.old) queue.old) result (with_slot (slot_of slot.new) queue.new) }
{
    match take_request(queue, slot, memory, inventory) {
        Err(NoMemory) => Err(NoMemory),
        Ok(Taken::Nothing) => Ok(false),
        Ok(Taken::Other) => Ok(true),
        Ok(Taken::Arrived(arrival)) => {
            *slot = Slot::Arrived(arrival);
            Ok(true)
        }
    }
}

/// Returns the decision on a chain of the control queue with these bytes.
fn decision_of_chain(inventory: &Inventory, chain: &Chain, bytes: &[u8]) -> ControlDecision
    ensures decision { DecidesControl inventory.now (record { chain = chain.now; bytes = bytes.now }) result }
    ensures suits { Suits (length inventory.now.addresses) (writable_total chain.now.parts) result }
{
    one_control();
    decide_control(inventory, bytes, chain.writable_len())
}

/// Puts the direct answer of a control chain into the slot, or opens its function.
fn decided_control(
    slot: &mut Slot,
    function: &mut Option<OpenFunction>,
    inventory: &Inventory,
    fetched: Fetched,
)
    ensures { IsDecided inventory.now fetched.chain fetched.bytes.items
        (slot_of slot.old) function.old (slot_of slot.new) function.new }
{
    let Fetched { chain, bytes } = fetched;
    match decision_of_chain(inventory, &chain, bytes.as_slice()) {
        ControlDecision::Direct(answer) => {
            *slot = Slot::Direct(DirectChain::decided(chain, answer));
        }
        ControlDecision::Opens(begun) => {
            *function = Some(OpenFunction {
                chain,
                function: begun,
            });
        }
    }
}

/// Takes the next chain of the control queue, where no function is open, its slot is empty and the memory is the
/// queue's. Decides of it: a function opens, or the chain is answered directly. A fault of the guest breaks the
/// queue. Returns true if something changed. `NoMemory` as of a request queue.
pub fn phase_fetch_control(
    queue: &mut Queue,
    slot: &mut Slot,
    function: &mut Option<OpenFunction>,
    memory: &GuestMem,
    inventory: &Inventory,
) -> Result<bool, NoMemory>
    ensures { FetchesControl inventory.now memory.now (with_slot (slot_of slot.old) queue.old) function.old
        result (with_slot (slot_of slot.new) queue.new) function.new }
{
    let mut still = StillMem::of(memory);
    phase_fetch_control_in(queue, slot, function, &mut still, inventory)
}

/// Takes the next chain of the control queue from any memory, as [`phase_fetch_control`] does. Called in a phase
/// of the memory that wrote nothing yet and has room for 4 short reads. Where nothing changed, it took one at most.
#[inline(always)]
pub fn phase_fetch_control_in<M: Memory>(
    queue: &mut Queue,
    slot: &mut Slot,
    function: &mut Option<OpenFunction>,
    memory: &mut M,
    inventory: &Inventory,
) -> Result<bool, NoMemory>
    requires reading { M.is_open memory.old }
    requires room { M.has_room memory.old 4 }
    ensures size { M.extent memory.new ≡ M.extent memory.old }
    ensures stays { (m : List ℕ) → M.may_be memory.new m → M.may_be memory.old m }
    ensures stores { M.stored memory.new ≡ M.stored memory.old }
    ensures reading { M.is_open memory.new }
    ensures room { (n : ℕ) → result ≡ Ok false → M.has_room memory.old (n + 1) → M.has_room memory.new n }
    ensures fetches { (m : List ℕ) → M.may_be memory.new m
        → FetchesControl inventory.now m (with_slot (slot_of slot.old) queue.old) function.old
        result (with_slot (slot_of slot.new) queue.new) function.new }
{
    if queue.number() != CONTROL_QUEUE
        || function.is_some()
        || !slot.is_empty()
        || !queue.fits(memory)
    {
        return Ok(false);
    }
    match queue.fetch_in(memory) {
        Err(NoMemory) => Err(NoMemory),
        Ok(Fetch::Idle) => Ok(false),
        Ok(Fetch::Broke) => Ok(true),
        Ok(Fetch::Got(fetched)) => {
            decided_control(slot, function, inventory, fetched);
            Ok(true)
        }
    }
}
