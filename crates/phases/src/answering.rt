//! The step that answers a job.

ghost use Rattle.std.specs.Prelude.{◌≡◌, ◌<◌, ◌≤◌, List, ℕ, length, true, is_some, MatchOption, IfSome, Some};
ghost use Rattle.ring_core.specs.State.{Owns};
ghost use Rattle.ring_core.specs.Writes.{stores_of};
ghost use Rattle.virtqueue.specs.Queue.{MayComplete};
ghost use Rattle.device_model.specs.Parts as plain;
ghost use Rattle.phases.specs.Parts.{hand_of, outcome_in};
ghost use Rattle.phases.specs.Inner.Parts.{job_held};
ghost use Rattle.phases.specs.Giving.{given_for, given_in};
ghost use Rattle.phases.specs.Inner.Outcomes.{WritesEndingIn};
ghost use Rattle.phases.specs.Answering.{Answers};
ghost use Rattle.phases.specs.InMemory.{EachSeen};
ghost use Rattle.phases.specs.Inner.InMemory.{AnswersIn};
ghost use Rattle.phases.specs.Inner.Stored.{answered_writes, StoresEnding};

use crate::hand::Hand;
use crate::job_in_hand::JobInHand;
use crate::note::{Cause, Note};
use crate::receipt_or_note::ReceiptOrNote;
use guest_mem::{GuestMem, WritableMemory};
use logical_unit::Outcome;
use ring_core::{Chain, Ticket};
use std::mem;
use virtqueue::Queue;

/// Writes what answers a job whose commit is over: how many bytes it has. `None` where the memory isn't the queue's, or
/// the queue doesn't own the chain.
fn write_held<M: WritableMemory>(queue: &Queue, memory: &mut M, held: &JobInHand) -> Option<u32>
    requires over { is_some held.now.outcome ≡ true }
    ensures owned { MatchOption result (((m : List ℕ) → M.may_be memory.old m → MayComplete queue.now m held.now.job.chain → ⊥)
        × (memory.new ≡ memory.old))
        (λ len. (M.extent memory.old ≡ queue.now.ring.memory) × Owns queue.now.ring held.now.job.chain
        × WritesEndingIn held.now (M.may_be memory.old) len (M.may_be memory.new)) }
    ensures stores { IfSome result (λ _. StoresEnding held.now
        (λ ws. M.stored memory.new ≡ M.storing (M.stored memory.old) (stores_of ws))) }
    ensures size { M.extent memory.new ≡ M.extent memory.old }
{
    if !queue.may_complete(memory, held.job().chain()) {
        return None;
    }
    Some(held.write(memory))
}

/// Lets go of the job in a hand whose commit is over: its unit, its chain, and what came of it.
fn take_job(hand: &mut Hand) -> (usize, Chain, Outcome)
    requires over { is_some (outcome_in hand.old) ≡ true }
    ensures job { IfSome (job_held (hand_of hand.old)) (λ x. (result.0 ≡ x.unit) × (result.1 ≡ x.chain)) }
    ensures outcome { outcome_in hand.old ≡ Some result.2 }
    ensures hand { hand_of hand.new ≡ plain.Hand.Empty }
{
    match mem::replace(hand, Hand::Empty) {
        Hand::Job(held) => {
            let (job, outcome) = held.into_parts();
            match outcome {
                Some(outcome) => (job.unit(), job.into_chain(), outcome),
                None => unreachable!(),
            }
        }
        Hand::Empty | Hand::Answered(_, _) => unreachable!(),
    }
}

/// Returns what a job leaves once it is answered: its receipt, or a note of why it has none.
fn given(ticket: Ticket, outcome: Outcome) -> ReceiptOrNote
    ensures { result ≡ given_for ticket outcome }
{
    match outcome {
        Outcome::Reply(receipt) => ReceiptOrNote::Receipt(receipt),
        Outcome::Aborted(_) => ReceiptOrNote::Note(Note::new(ticket, Cause::Aborted)),
        Outcome::Busy => ReceiptOrNote::Note(Note::new(ticket, Cause::Busy)),
        Outcome::Unknown => ReceiptOrNote::Note(Note::new(ticket, Cause::Unknown)),
    }
}

/// Answers the job in the hand whose commit is over by what came of it, and uses its chain; its task is then to leave.
/// Returns its receipt, or a note of why it got none. `None` where no such job is in the hand. `None`, with the job let
/// go, where the memory isn't the queue's, or the queue doesn't own the chain, which never happens in one device.
#[inline(always)]
pub fn phase_answer(
    queue: &mut Queue,
    memory: &mut GuestMem,
    hand: &mut Hand,
) -> Option<ReceiptOrNote>
    ensures answers { Answers (hand_of hand.old) queue.old memory.old (is_some result) queue.new memory.new
        (hand_of hand.new) }
    ensures gives { IfSome result (λ given. given_in hand.old ≡ Some given) }
    ensures size { length memory.new ≡ length memory.old }
{
    phase_answer_in(queue, memory, hand)
}

/// Answers the job in the hand in any memory, as [`phase_answer`] does. Whether the driver wants a notice is decided in a
/// phase behind what it wrote.
pub fn phase_answer_in<M: WritableMemory>(
    queue: &mut Queue,
    memory: &mut M,
    hand: &mut Hand,
) -> Option<ReceiptOrNote>
    ensures answers { EachSeen M.shared (M.may_be memory.old) (M.may_be memory.new)
        (λ found left seen. AnswersIn M.shared (hand_of hand.old) queue.old found (is_some result) queue.new left seen
        (hand_of hand.new)) }
    ensures stores { M.stored memory.new
        ≡ M.storing (M.stored memory.old) (stores_of (answered_writes (hand_of hand.old) queue.old.ring (is_some result))) }
    ensures gives { IfSome result (λ given. given_in hand.old ≡ Some given) }
    ensures size { M.extent memory.new ≡ M.extent memory.old }
    ensures reading { M.is_open memory.old → M.is_open memory.new }
    ensures room { (n : ℕ) → n ≤ 60 → M.has_room memory.old n → M.has_room memory.new n }
{
    let written = match hand {
        Hand::Job(held) => {
            if !held.is_over() {
                return None;
            }
            write_held(queue, memory, held)
        }
        Hand::Empty | Hand::Answered(_, _) => return None,
    };
    let (unit, chain, outcome) = take_job(hand);
    match written {
        Some(len) => {
            let answered = queue.complete_in(memory, chain, len);
            let ticket = answered.ticket();
            *hand = Hand::Answered(unit, answered);
            Some(given(ticket, outcome))
        }
        None => None,
    }
}
