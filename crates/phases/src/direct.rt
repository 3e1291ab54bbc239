//! The steps that answer a chain for which no command ran.

ghost use Rattle.std.specs.Prelude.{◌≡◌, ◌≤◌, List, ℕ, length, is_some, IfSome, Some};
ghost use Rattle.ring_core.specs.Parts.{writable_total};
ghost use Rattle.ring_core.specs.State.{Owns};
ghost use Rattle.ring_core.specs.Writes.{stores_of};
ghost use Rattle.device_model.specs.Parts.{answer_writes};
ghost use Rattle.virtqueue.specs.Queue.{completing};
ghost use Rattle.virtqueue.specs.Completing.{SeenBehind};
ghost use Rattle.phases.specs.Slots.{slot_of};
ghost use Rattle.phases.specs.DirectChain.{note_in};
ghost use Rattle.phases.specs.Direct.{Directs, Responds};
ghost use Rattle.phases.specs.InMemory.{EachSeen};
ghost use Rattle.phases.specs.Inner.InMemory.{DirectsIn, RespondsIn};
ghost use Rattle.phases.specs.Inner.Stored.{directed_writes, responded_writes};

use crate::function::OpenFunction;
use crate::note::Note;
use crate::slot::Slot;
use guest_mem::{GuestMem, WritableMemory};
use request_intake::DirectAnswer;
use responses::write_direct;
use ring_core::{Answered, Chain};
use std::mem;
use virtqueue::Queue;

/// Answers a chain, and uses it.
fn answer_chain<M: WritableMemory>(
    queue: &mut Queue,
    memory: &mut M,
    chain: Chain,
    answer: &DirectAnswer,
) -> Answered
    requires fits { M.extent memory.old ≡ queue.old.ring.memory }
    requires owned { Owns queue.old.ring chain }
    requires room { length answer.now ≤ writable_total chain.parts }
    ensures ticket { result ≡ chain.ticket }
    ensures seen { SeenBehind M.shared (M.may_be memory.old) (M.may_be memory.new)
        (answer_writes queue.old.ring chain answer.now) }
    ensures stores { M.stored memory.new
        ≡ M.storing (M.stored memory.old) (stores_of (answer_writes queue.old.ring chain answer.now)) }
    ensures size { M.extent memory.new ≡ M.extent memory.old }
    ensures reading { M.is_open memory.new }
    ensures room { M.has_room memory.new 60 }
    ensures queue { (m : List ℕ) → M.may_be memory.new m → queue.new ≡ completing m chain queue.old }
{
    let len = write_direct(memory, &chain, answer);
    queue.complete_in(memory, chain, len)
}

/// Answers and uses the chain that is ready in the slot. Returns a note of why it got no receipt. `None` where no chain
/// is ready. `None`, with the chain let go, where the memory isn't the queue's, or the queue doesn't own the chain,
/// which never happens in one device.
#[inline(always)]
pub fn phase_direct(queue: &mut Queue, slot: &mut Slot, memory: &mut GuestMem) -> Option<Note>
    ensures directs { Directs (slot_of slot.old) queue.old memory.old (is_some result) queue.new memory.new
        (slot_of slot.new) }
    ensures note { IfSome result (λ note. note_in (slot_of slot.old) ≡ Some note) }
    ensures size { length memory.new ≡ length memory.old }
{
    phase_direct_in(queue, slot, memory)
}

/// Answers and uses the chain that is ready in the slot, in any memory, as [`phase_direct`] does. Whether the driver
/// wants a notice is decided in a phase behind what it wrote.
pub fn phase_direct_in<M: WritableMemory>(
    queue: &mut Queue,
    slot: &mut Slot,
    memory: &mut M,
) -> Option<Note>
    ensures directs { EachSeen M.shared (M.may_be memory.old) (M.may_be memory.new)
        (λ found left seen. DirectsIn M.shared (slot_of slot.old) queue.old found (is_some result) queue.new left seen
        (slot_of slot.new)) }
    ensures stores { M.stored memory.new
        ≡ M.storing (M.stored memory.old) (stores_of (directed_writes (slot_of slot.old) queue.old.ring (is_some result))) }
    ensures note { IfSome result (λ note. note_in (slot_of slot.old) ≡ Some note) }
    ensures size { M.extent memory.new ≡ M.extent memory.old }
    ensures reading { M.is_open memory.old → M.is_open memory.new }
    ensures room { (n : ℕ) → n ≤ 60 → M.has_room memory.old n → M.has_room memory.new n }
{
    if !slot.is_direct() {
        return None;
    }
    match mem::replace(slot, Slot::Empty) {
        Slot::Direct(ready) => {
            let (chain, direct, cause) = ready.into_parts();
            if !queue.may_complete(memory, &chain) {
                return None;
            }
            let answered = answer_chain(queue, memory, chain, &direct);
            Some(Note::new(answered.ticket(), cause))
        }
        Slot::Empty | Slot::Arrived(_) => unreachable!(),
    }
}

/// Answers the open function, where every unit was visited and every mark is clear, and uses its chain. Returns true if
/// it was answered. Where the memory isn't the queue's, or the queue doesn't own the chain, which never happens in one
/// device, the function is let go.
#[inline(always)]
pub fn phase_answer_tmf(
    queue: &mut Queue,
    memory: &mut GuestMem,
    function: &mut Option<OpenFunction>,
) -> bool
    ensures responds { Responds function.old queue.old memory.old result queue.new memory.new function.new }
    ensures size { length memory.new ≡ length memory.old }
{
    phase_answer_tmf_in(queue, memory, function)
}

/// Answers the open function in any memory, as [`phase_answer_tmf`] does. Whether the driver wants a notice is decided
/// in a phase behind what it wrote.
pub fn phase_answer_tmf_in<M: WritableMemory>(
    queue: &mut Queue,
    memory: &mut M,
    function: &mut Option<OpenFunction>,
) -> bool
    ensures responds { EachSeen M.shared (M.may_be memory.old) (M.may_be memory.new)
        (λ found left seen. RespondsIn M.shared function.old queue.old found result queue.new left seen function.new) }
    ensures stores { M.stored memory.new
        ≡ M.storing (M.stored memory.old) (stores_of (responded_writes function.old queue.old.ring result)) }
    ensures size { M.extent memory.new ≡ M.extent memory.old }
    ensures reading { M.is_open memory.old → M.is_open memory.new }
    ensures room { (n : ℕ) → n ≤ 60 → M.has_room memory.old n → M.has_room memory.new n }
{
    match function.take() {
        Some(open) => {
            if !open.function.finished() {
                *function = Some(open);
                return false;
            }
            let OpenFunction {
                chain,
                function: finished,
            } = open;
            if !queue.may_complete(memory, &chain) {
                return false;
            }
            let response = DirectAnswer::of_function(finished.answer());
            let _answered = answer_chain(queue, memory, chain, &response);
            true
        }
        None => false,
    }
}
