//! Two or three phases on a queue with the memory that share one hold, of what threads share.

ghost use Rattle.std.specs.Prelude.{◌≡◌, ◌<◌, List, ℕ, length, is_some, IfSome, Some};
ghost use Rattle.virtqueue.specs.Queue.{BareQueue};
ghost use Rattle.device_model.specs.Parts as plain;
ghost use Rattle.phases.specs.Slots.{slot_of};
ghost use Rattle.phases.specs.Parts.{hand_of};
ghost use Rattle.phases.specs.Giving.{given_in};
ghost use Rattle.lock_scopes.specs.Lending.{IsQueue};
ghost use Rattle.lock_scopes.specs.Joined.{Takes, AnswersTakes};

use crate::holding::hold;
use crate::kept_queue::NextChain;
use crate::locked::LockedQueues;
use phases::{Hand, ReceiptOrNote, Slot};
use request_intake::Inventory;
use std::sync::Wait;

/// Takes the next chain of a request queue into an empty slot (`phase_fetch`), in one hold of it and of the memory.
/// Where its answer is decided there, the chain is answered in that hold (`phase_direct`), and its note stays with the
/// queue. The queue's owner calls.
pub fn take_on<R: Wait>(
    queues: &LockedQueues<'_, R>,
    at: usize,
    slot: &mut Slot,
    inventory: &Inventory,
) -> NextChain
    requires there { at < length queues.now.queues.now }
    requires empty { slot_of slot.old ≡ plain.Slot.Empty }
    ensures { (q : BareQueue) × (m : List ℕ) × (r : BareQueue) × (n : List ℕ) × IsQueue q
        × Takes inventory.now q m result.fetched result.answered r n (slot_of slot.new)
        × (length n ≡ length m) × IsQueue r }
{
    let mut held = hold(queues.rt, &queues.queues[at]);
    let mut held_memory = hold(queues.rt, queues.memory);
    let queue = &mut *held;
    let memory = &mut *held_memory;
    queue.take(memory, slot, inventory)
}

/// Answers the job in the hand whose commit is over (`phase_answer`), in one hold of its queue and of the memory. Then
/// takes the next chain of the same queue in that hold, as [`take_on`] does. The queue's owner calls, which has the
/// hand. Returns what `answer_on` would return, and then what `take_on` would.
pub fn answer_take_on<R: Wait>(
    queues: &LockedQueues<'_, R>,
    at: usize,
    hand: &mut Hand,
    slot: &mut Slot,
    inventory: &Inventory,
) -> (Option<ReceiptOrNote>, NextChain)
    requires there { at < length queues.now.queues.now }
    requires empty { slot_of slot.old ≡ plain.Slot.Empty }
    ensures did { (q : BareQueue) × (m : List ℕ) × (r : BareQueue) × (n : List ℕ) × IsQueue q
        × AnswersTakes inventory.now (hand_of hand.old) q m (is_some result.0) result.1.fetched result.1.answered
        r n (hand_of hand.new) (slot_of slot.new)
        × (length n ≡ length m) × IsQueue r }
    ensures gives { IfSome result.0 (λ given. given_in hand.old ≡ Some given) }
{
    let mut held = hold(queues.rt, &queues.queues[at]);
    let mut held_memory = hold(queues.rt, queues.memory);
    let queue = &mut *held;
    let memory = &mut *held_memory;
    let given = queue.answer(memory, hand);
    let next = queue.take(memory, slot, inventory);
    (given, next)
}
