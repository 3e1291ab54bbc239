//! The phases on a queue with the memory, each run on what is lent. The clause is the phase's own, for some queue and
//! memory that were lent and came back.

ghost use Rattle.std.specs.Prelude.{◌≡◌, ◌<◌, List, ℕ, length, is_some, IfSome, Some};
ghost use Rattle.virtqueue.specs.Queue.{BareQueue};
ghost use Rattle.phases.specs.Queue.{with_slot};
ghost use Rattle.phases.specs.Slots.{slot_of};
ghost use Rattle.phases.specs.Parts.{hand_of};
ghost use Rattle.phases.specs.Fetching.{FetchesControl};
ghost use Rattle.phases.specs.Direct.{Directs, Responds};
ghost use Rattle.phases.specs.Answering.{Answers};
ghost use Rattle.phases.specs.DirectChain.{note_in};
ghost use Rattle.phases.specs.Giving.{given_in};
ghost use Rattle.phases.specs.EventQueue.{FetchesEvent, RaisesNext};

use crate::lend::QueueLender;
use event_queue::{EventPort, WaitingEvents};
use foundation::NoMemory;
use phases::{
    Hand, Note, OpenFunction, ReceiptOrNote, Slot, phase_answer, phase_answer_tmf, phase_direct,
    phase_fetch_control, phase_fetch_event, phase_raise,
};
use request_intake::Inventory;

/// Takes the next chain of the control queue (`phase_fetch_control`), in one hold of it and of the memory. The queue's
/// owner calls. Returns true if something changed, or `NoMemory` as the phase does.
pub fn fetch_control_on<B: QueueLender>(
    lender: &mut B,
    at: usize,
    slot: &mut Slot,
    function: &mut Option<OpenFunction>,
    inventory: &Inventory,
) -> Result<bool, NoMemory>
    requires there { at < B.queues lender.old }
    ensures did { (q : BareQueue) × (m : List ℕ) × (r : BareQueue) × B.lends_queue lender.old at q m
        × FetchesControl inventory.now m (with_slot (slot_of slot.old) q) function.old
        result (with_slot (slot_of slot.new) r) function.new
        × B.keeps_queue lender.old at r m lender.new }
    ensures queues { B.queues lender.new ≡ B.queues lender.old }
{
    lender.queue(
        at,
        slot,
        function,
        move |queue, memory, slot, function| -> Result<bool, NoMemory>
            ensures { FetchesControl inventory.entry.now memory.old
                (with_slot (slot_of slot.old) queue.old) function.old
                result (with_slot (slot_of slot.new) queue.new) function.new × (memory.new ≡ memory.old) }
        { phase_fetch_control(queue, slot, function, memory, inventory) },
    )
}

/// Takes the next chain of the event queue (`phase_fetch_event`), in one hold of it and of the memory. The thread that
/// has the event port calls. Returns true if something changed, or `NoMemory` as the phase does.
pub fn fetch_event_on<B: QueueLender>(
    lender: &mut B,
    at: usize,
    slot: &Slot,
    port: &mut EventPort,
) -> Result<bool, NoMemory>
    requires there { at < B.queues lender.old }
    ensures did { (q : BareQueue) × (m : List ℕ) × (r : BareQueue) × (n : List ℕ) × B.lends_queue lender.old at q m
        × FetchesEvent (with_slot (slot_of slot.now) q) m port.old result (with_slot (slot_of slot.now) r) n port.new
        × (length n ≡ length m) × B.keeps_queue lender.old at r n lender.new }
    ensures queues { B.queues lender.new ≡ B.queues lender.old }
{
    lender.queue(
        at,
        port,
        &mut (),
        move |queue, memory, port, _nothing| -> Result<bool, NoMemory>
            ensures { FetchesEvent (with_slot (slot_of slot.entry.now) queue.old) memory.old port.old
                result (with_slot (slot_of slot.entry.now) queue.new) memory.new port.new
                × (length memory.new ≡ length memory.old) }
        { phase_fetch_event(queue, slot, port, memory) },
    )
}

/// Answers and uses the chain that is ready in the slot (`phase_direct`), in one hold of its queue and of the memory.
/// The queue's owner calls. Returns a note of why it got no receipt; `None` where no chain was answered.
pub fn direct_on<B: QueueLender>(lender: &mut B, at: usize, slot: &mut Slot) -> Option<Note>
    requires there { at < B.queues lender.old }
    ensures did { (q : BareQueue) × (m : List ℕ) × (r : BareQueue) × (n : List ℕ) × B.lends_queue lender.old at q m
        × Directs (slot_of slot.old) q m (is_some result) r n (slot_of slot.new) × (length n ≡ length m)
        × B.keeps_queue lender.old at r n lender.new }
    ensures note { IfSome result (λ note. note_in (slot_of slot.old) ≡ Some note) }
    ensures queues { B.queues lender.new ≡ B.queues lender.old }
{
    lender.queue(
        at,
        slot,
        &mut (),
        |queue, memory, slot, _nothing| -> Option<Note>
            ensures { Directs (slot_of slot.old) queue.old memory.old (is_some result) queue.new memory.new
                (slot_of slot.new)
                × (length memory.new ≡ length memory.old)
                × IfSome result (λ note. note_in (slot_of slot.old) ≡ Some note) }
        { phase_direct(queue, slot, memory) },
    )
}

/// Answers the job in the hand whose commit is over, and uses its chain (`phase_answer`), in one hold of its queue and
/// of the memory. The seat that has the hand calls, with its index from `Hand::answering_queue`. Returns its receipt,
/// or a note of why it got none; `None` where no chain was answered.
pub fn answer_on<B: QueueLender>(
    lender: &mut B,
    at: usize,
    hand: &mut Hand,
) -> Option<ReceiptOrNote>
    requires there { at < B.queues lender.old }
    ensures did { (q : BareQueue) × (m : List ℕ) × (r : BareQueue) × (n : List ℕ) × B.lends_queue lender.old at q m
        × Answers (hand_of hand.old) q m (is_some result) r n (hand_of hand.new) × (length n ≡ length m)
        × B.keeps_queue lender.old at r n lender.new }
    ensures gives { IfSome result (λ given. given_in hand.old ≡ Some given) }
    ensures queues { B.queues lender.new ≡ B.queues lender.old }
{
    lender.queue(
        at,
        hand,
        &mut (),
        |queue, memory, hand, _nothing| -> Option<ReceiptOrNote>
            ensures { Answers (hand_of hand.old) queue.old memory.old (is_some result) queue.new memory.new
                (hand_of hand.new)
                × (length memory.new ≡ length memory.old)
                × IfSome result (λ given. given_in hand.old ≡ Some given) }
        { phase_answer(queue, memory, hand) },
    )
}

/// Answers the open function, where nothing is left for it to do, and uses its chain (`phase_answer_tmf`), in one hold
/// of its queue and of the memory. The worker that has the function calls. Returns true if it was answered.
pub fn answer_tmf_on<B: QueueLender>(
    lender: &mut B,
    at: usize,
    function: &mut Option<OpenFunction>,
) -> bool
    requires there { at < B.queues lender.old }
    ensures did { (q : BareQueue) × (m : List ℕ) × (r : BareQueue) × (n : List ℕ) × B.lends_queue lender.old at q m
        × Responds function.old q m result r n function.new × (length n ≡ length m)
        × B.keeps_queue lender.old at r n lender.new }
    ensures queues { B.queues lender.new ≡ B.queues lender.old }
{
    lender.queue(
        at,
        function,
        &mut (),
        |queue, memory, function, _nothing| -> bool
            ensures { Responds function.old queue.old memory.old result queue.new memory.new function.new
                × (length memory.new ≡ length memory.old) }
        { phase_answer_tmf(queue, memory, function) },
    )
}

/// Gives the oldest event that waits to the oldest buffer, which is used, or misses it (`phase_raise`), in one hold of
/// the event queue and of the memory. The thread that has the event port calls. Returns true if something changed.
pub fn raise_on<B: QueueLender>(
    lender: &mut B,
    at: usize,
    port: &mut EventPort,
    waiting: &mut WaitingEvents,
) -> bool
    requires there { at < B.queues lender.old }
    ensures did { (q : BareQueue) × (m : List ℕ) × (r : BareQueue) × (n : List ℕ) × B.lends_queue lender.old at q m
        × RaisesNext waiting.old q m port.old result r n port.new waiting.new × (length n ≡ length m)
        × B.keeps_queue lender.old at r n lender.new }
    ensures queues { B.queues lender.new ≡ B.queues lender.old }
{
    lender.queue(
        at,
        port,
        waiting,
        |queue, memory, port, waiting| -> bool
            ensures { RaisesNext waiting.old queue.old memory.old port.old result queue.new memory.new port.new
                waiting.new
                × (length memory.new ≡ length memory.old) }
        { phase_raise(queue, memory, port, waiting) },
    )
}
