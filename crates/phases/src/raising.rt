//! The steps on the event queue: a buffer comes, and an event is raised.

ghost use Rattle.std.specs.Prelude.{◌≡◌, ◌+◌, ◌≤◌, ◌<◌, ◌↔◌, ◌^◌, ◌||◌, List, ℕ, length, IsTrue, false, Ok};
ghost use Rattle.ring_core.specs.Parts.{writable_total};
ghost use Rattle.ring_core.specs.State.{Owns};
ghost use Rattle.ring_core.specs.Writes.{stores_of};
ghost use Rattle.device_model.specs.Parts.{answer_writes, is_short};
ghost use Rattle.phases.specs.Queue.{with_slot};
ghost use Rattle.phases.specs.Slots.{slot_of};
ghost use Rattle.phases.specs.EventQueue.{FetchesEvent, RaisesNext, MayHold};
ghost use Rattle.phases.specs.Inner.EventQueue.{MayRaise};
ghost use Rattle.phases.specs.InMemory.{EachSeen, ByOneReading};
ghost use Rattle.phases.specs.Inner.Stored.{raised_writes, spent_writes};
ghost use Rattle.phases.specs.Inner.EventsInMemory.{FetchesEventIn, RaisesNextIn, LooksAtPort, IsHeldBy, UsesWith, TakesBufferOf, MayRaiseIn};

use crate::slot::Slot;
use event_queue::{EventBuffer, EventPort, WaitingEvents};
use foundation::NoMemory;
use guest_mem::{GuestMem, Memory, WritableMemory};
use ring_core::{Chain, scatter};
use scsi_codec::{EVENT_BYTES, EVENT_QUEUE};
use virtqueue::{Fetch, Queue};

/// Uses a chain with these bytes.
fn use_with<M: WritableMemory>(queue: &mut Queue, memory: &mut M, chain: Chain, bytes: &[u8])
    requires fits { M.extent memory.old ≡ queue.old.ring.memory }
    requires owned { Owns queue.old.ring chain }
    requires room { length bytes.now ≤ writable_total chain.parts }
    requires small { length bytes.now < 2 ^ 32 }
    ensures uses { EachSeen M.shared (M.may_be memory.old) (M.may_be memory.new)
        (λ found left seen. UsesWith chain bytes.now queue.old found queue.new left seen) }
    ensures stores { M.stored memory.new
        ≡ M.storing (M.stored memory.old) (stores_of (answer_writes queue.old.ring chain bytes.now)) }
    ensures size { M.extent memory.new ≡ M.extent memory.old }
    ensures reading { M.is_open memory.new }
    ensures room { M.has_room memory.new 60 }
{
    let len = scatter(memory, &chain, 0, bytes);
    let _answered = queue.complete_in(memory, chain, len);
}

/// Uses a buffer that was held with an event.
fn use_held<M: WritableMemory>(
    queue: &mut Queue,
    memory: &mut M,
    buffer: EventBuffer,
    event: &[u8; EVENT_BYTES],
)
    requires fits { M.extent memory.old ≡ queue.old.ring.memory }
    requires owned { Owns queue.old.ring buffer }
    ensures uses { EachSeen M.shared (M.may_be memory.old) (M.may_be memory.new)
        (λ found left seen. UsesWith buffer event.now queue.old found queue.new left seen) }
    ensures stores { M.stored memory.new
        ≡ M.storing (M.stored memory.old) (stores_of (answer_writes queue.old.ring buffer event.now)) }
    ensures size { M.extent memory.new ≡ M.extent memory.old }
    ensures reading { M.is_open memory.new }
    ensures room { M.has_room memory.new 60 }
{
    use_with(queue, memory, buffer.into_chain(), event);
}

/// Holds a chain of the event queue, or uses it at once: a short one with no byte, another where an event was missed.
fn take_buffer<M: WritableMemory>(
    queue: &mut Queue,
    memory: &mut M,
    port: &mut EventPort,
    chain: Chain,
)
    requires fits { M.extent memory.old ≡ queue.old.ring.memory }
    requires reading { M.is_open memory.old }
    requires owned { Owns queue.old.ring chain }
    requires room { MayHold port.old }
    ensures takes { EachSeen M.shared (M.may_be memory.old) (M.may_be memory.new)
        (λ found left seen. TakesBufferOf chain queue.old found port.old queue.new left seen port.new) }
    ensures stores { M.stored memory.new
        ≡ M.storing (M.stored memory.old) (stores_of (spent_writes (is_short chain || port.old.missed) chain queue.old.ring)) }
    ensures size { M.extent memory.new ≡ M.extent memory.old }
    ensures reading { M.is_open memory.new }
{
    let _parts = chain.parts();
    if chain.writable_len() < EVENT_BYTES as u64 {
        use_with(queue, memory, chain, &[]);
        return;
    }
    match port.buffer(chain) {
        Some(given) => {
            let (chain, bytes) = given;
            use_with(queue, memory, chain, &bytes);
        }
        None => {}
    }
}

/// Fetches the next chain of the event queue, where its slot is empty, the memory is the queue's and the port may hold
/// one more. Elsewhere it is as if nothing were available.
#[inline(always)]
fn fetch_at_port<M: Memory>(
    queue: &mut Queue,
    slot: &Slot,
    port: &EventPort,
    memory: &mut M,
) -> Result<Fetch, NoMemory>
    requires reading { M.is_open memory.old }
    requires room { M.has_room memory.old 4 }
    ensures size { M.extent memory.new ≡ M.extent memory.old }
    ensures stays { (m : List ℕ) → M.may_be memory.new m → M.may_be memory.old m }
    ensures stores { M.stored memory.new ≡ M.stored memory.old }
    ensures reading { M.is_open memory.new }
    ensures room { (n : ℕ) → result ≡ Ok Fetch.Idle → M.has_room memory.old (n + 1) → M.has_room memory.new n }
    ensures looks { (m : List ℕ) → M.may_be memory.new m
        → LooksAtPort (slot_of slot.now) queue.old m port.now result queue.new }
    ensures owned { IsHeldBy (M.extent memory.new) port.now result queue.new }
{
    if queue.number() != EVENT_QUEUE
        || !slot.is_empty()
        || !queue.fits(memory)
        || !port.has_room()
    {
        return Ok(Fetch::Idle);
    }
    let fetched = queue.fetch_in(memory);
    let _bytes = memory.size();
    fetched
}

/// Takes the next chain of the event queue, where its slot is empty, the memory is the queue's and the port may hold
/// one more. A chain that is shorter than an event is used at once, with no byte. Where an event was missed, the chain
/// is used at once, with what tells so. Else the port holds it. A fault of the guest breaks the queue. Returns true if
/// something changed. `NoMemory` as of a request queue.
pub fn phase_fetch_event(
    queue: &mut Queue,
    slot: &Slot,
    port: &mut EventPort,
    memory: &mut GuestMem,
) -> Result<bool, NoMemory>
    ensures fetches { FetchesEvent (with_slot (slot_of slot.now) queue.old) memory.old port.old
        result (with_slot (slot_of slot.now) queue.new) memory.new port.new }
    ensures size { length memory.new ≡ length memory.old }
{
    phase_fetch_event_in(queue, slot, port, memory)
}

/// Takes the next chain of the event queue from any memory, as [`phase_fetch_event`] does. Called in a phase of the
/// memory that wrote nothing yet and has room for 4 short reads. Where nothing changed, it took one at most. Where it
/// uses a chain, it begins a new phase behind that. It looks at the queue once, and does what it does by all that memory
/// may be once it was read.
#[inline(always)]
pub fn phase_fetch_event_in<M: WritableMemory>(
    queue: &mut Queue,
    slot: &Slot,
    port: &mut EventPort,
    memory: &mut M,
) -> Result<bool, NoMemory>
    requires reading { M.is_open memory.old }
    requires room { M.has_room memory.old 4 }
    ensures room { (n : ℕ) → result ≡ Ok false → M.has_room memory.old (n + 1) → M.has_room memory.new n }
    ensures fetches { EachSeen M.shared (M.may_be memory.old) (M.may_be memory.new)
        (λ found left seen. FetchesEventIn M.shared
        (λ ws. M.stored memory.new ≡ M.storing (M.stored memory.old) (stores_of ws))
        (with_slot (slot_of slot.now) queue.old) found port.old
        result (with_slot (slot_of slot.now) queue.new) left seen port.new) }
    ensures once { ByOneReading M.shared M.may_be memory.old memory.new
        (λ found left seen. FetchesEventIn M.shared
        (λ ws. M.stored memory.new ≡ M.storing (M.stored memory.old) (stores_of ws))
        (with_slot (slot_of slot.now) queue.old) found port.old
        result (with_slot (slot_of slot.now) queue.new) left seen port.new) }
    ensures size { M.extent memory.new ≡ M.extent memory.old }
    ensures reading { M.is_open memory.new }
{
    match fetch_at_port(queue, slot, port, memory) {
        Err(NoMemory) => Err(NoMemory),
        Ok(Fetch::Idle) => Ok(false),
        Ok(Fetch::Broke) => Ok(true),
        Ok(Fetch::Got(fetched)) => {
            take_buffer(queue, memory, port, fetched.chain);
            let _bytes = memory.size();
            Ok(true)
        }
    }
}

/// Returns true if the oldest buffer, if there is one, may be completed.
fn may_raise<M: Memory>(queue: &Queue, memory: &M, port: &EventPort) -> bool
    ensures owned { IsTrue result → MayRaiseIn (M.extent memory.now) port.now.buffers queue.now }
    ensures may { (m : List ℕ) → M.may_be memory.now m → (IsTrue result ↔ MayRaise port.now.buffers queue.now m) }
{
    match port.oldest() {
        Some(buffer) => queue.may_complete(memory, buffer.chain()),
        None => true,
    }
}

/// Gives the oldest event that waits to the oldest buffer, which is used, or misses it where none is held. Returns true
/// if something changed: not where no event waits. Where the memory isn't the queue's, or the queue doesn't own the
/// buffer, which never happens in one device, nothing is changed.
pub fn phase_raise(
    queue: &mut Queue,
    memory: &mut GuestMem,
    port: &mut EventPort,
    waiting: &mut WaitingEvents,
) -> bool
    ensures raises { RaisesNext waiting.old queue.old memory.old port.old
        result queue.new memory.new port.new waiting.new }
    ensures size { length memory.new ≡ length memory.old }
{
    phase_raise_in(queue, memory, port, waiting)
}

/// Gives the oldest event that waits to the oldest buffer in any memory, as [`phase_raise`] does. Where it uses the
/// buffer, it begins a new phase of the memory behind that.
#[inline(always)]
pub fn phase_raise_in<M: WritableMemory>(
    queue: &mut Queue,
    memory: &mut M,
    port: &mut EventPort,
    waiting: &mut WaitingEvents,
) -> bool
    ensures raises { EachSeen M.shared (M.may_be memory.old) (M.may_be memory.new)
        (λ found left seen. RaisesNextIn M.shared waiting.old queue.old found port.old
        result queue.new left seen port.new waiting.new) }
    ensures stores { M.stored memory.new
        ≡ M.storing (M.stored memory.old) (stores_of (raised_writes waiting.old port.old.buffers queue.old.ring result)) }
    ensures size { M.extent memory.new ≡ M.extent memory.old }
    ensures reading { M.is_open memory.old → M.is_open memory.new }
    ensures room { (n : ℕ) → n ≤ 60 → M.has_room memory.old n → M.has_room memory.new n }
{
    let Some(event) = waiting.oldest() else {
        return false;
    };
    if !may_raise(queue, memory, port) {
        return false;
    }
    waiting.pop();
    match port.raise(&event) {
        Some(given) => {
            let (buffer, bytes) = given;
            use_held(queue, memory, buffer, &bytes);
            true
        }
        None => true,
    }
}
