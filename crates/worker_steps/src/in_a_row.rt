//! The way of a worker from one request of a queue to the next, in as few holds as may be.

ghost use Rattle.std.specs.Prelude.{◌≡◌, ◌<◌, vec_len};
ghost use Rattle.std.specs.Bool.{OnFalse};
ghost use Rattle.device_model.specs.Parts as plain;
ghost use Rattle.phases.specs.Slots.{slot_of};
ghost use Rattle.close_audit.specs.Rooms.{HasRoomForOne};
ghost use Rattle.worker_steps.specs.Inner.Tallying.{HasNoJob};

use crate::post::{Post, commit, is_long, leave, pass, serve_hand, take_own, ticket_in};
use crate::requests::{direct, fetch_next, pass_answered};
use crate::shared::Shared;
use lock_scopes::{
    Gate, NextJob, Point, Weighing, answer_take_on, enter_on, leave_enter_commit_on, leave_enter_on,
};
use phases::{Hand, Slot};
use ring_core::Ticket;
use std::sync::Wait;
use std::sync::ledger::Ledger;
use std::thread;

/// The bytes of a request from which on another worker that waits for a job gets it. A READ or a WRITE of 16 KiB takes
/// longer than a job's way to another processor.
const LONG_REQUEST: u64 = 16_384;

/// Returns the ticket of a request that arrived; `None` where none did.
fn arrived(slot: &Slot) -> Option<Ticket> {
    match slot {
        Slot::Arrived(arrival) => Some(arrival.ticket()),
        Slot::Empty | Slot::Direct(_) => None,
    }
}

/// Returns true if a request arrived that has so much data that another worker may as well run it. A short one is run
/// here sooner than another processor has its job.
fn is_long_arrival(slot: &Slot) -> bool {
    match slot {
        Slot::Arrived(arrival) => {
            let lengths = arrival.lengths();
            lengths.readable >= LONG_REQUEST || lengths.writable >= LONG_REQUEST
        }
        Slot::Empty | Slot::Direct(_) => false,
    }
}

/// Returns true if a job is in a hand: one that is to be committed, or to be answered.
fn has_job(hand: &Hand) -> bool
    ensures { OnFalse result (HasNoJob hand.now) }
{
    match hand {
        Hand::Job(_) => true,
        Hand::Empty | Hand::Answered(_, _) => false,
    }
}

/// Has the task in the hand leave a unit and the request that arrived enter it, in one hold. Commits the only job that
/// may run then in the same hold, where no gate watches, and the request is short or no other worker waits for a job.
/// Where a job is in the hand the request enters alone.
fn turn_at<R: Wait, G: Gate + Drop, C: Ledger + Weighing, W: Ledger>(
    rt: &R,
    shared: &Shared<G, C, W>,
    at: usize,
    slot: &mut Slot,
    post: &mut Post<W>,
) -> NextJob
    requires at { at < vec_len shared.now.units }
    ensures seat { post.new.seat ≡ post.old.seat }
    ensures kept { post.new.kept ≡ post.old.kept }
{
    let mut units = shared.units(rt, &mut post.part);
    if has_job(&post.hand) {
        enter_on(&mut units, at, slot, &mut post.out);
        return NextJob::Listed;
    }
    if shared.gate.watches() || (is_long_arrival(slot) && shared.is_awaited(post.waits)) {
        leave_enter_on(&mut units, at, &mut post.hand, slot, &mut post.out);
        return NextJob::Listed;
    }
    leave_enter_commit_on(
        &mut units,
        &shared.gate,
        at,
        &mut post.hand,
        slot,
        &mut post.out,
    )
}

/// Has the task in the hand leave, where one is, and the request that arrived enter its unit, where one did: in one
/// hold where both are of one unit.
pub(crate) fn turn<R: Wait, G: Gate + Drop, C: Ledger + Weighing, W: Ledger>(
    rt: &R,
    shared: &Shared<G, C, W>,
    slot: &mut Slot,
    post: &mut Post<W>,
)
    ensures seat { post.new.seat ≡ post.old.seat }
    ensures kept { post.new.kept ≡ post.old.kept }
{
    let unit_index = slot.unit();
    if post.hand.leaving_unit() != unit_index {
        leave(rt, shared, post);
    }
    let Some(at) = unit_index else {
        return;
    };
    if at >= shared.units.len() {
        return;
    }
    let ticket = arrived(slot);
    let next = turn_at(rt, shared, at, slot, post);
    if let (Some(ticket), true) = (ticket, slot.is_empty()) {
        shared.gate.pass(Point::Entered, ticket);
    }
    if next != NextJob::Listed {
        pass(&shared.gate, Point::Taken, &post.hand);
    }
    if next == NextJob::Committed {
        pass(&shared.gate, Point::Committed, &post.hand);
    }
}

/// Answers the job in the hand and takes the next chain of its queue into an empty slot, in one hold. Keeps what the
/// job leaves.
fn answer_and_fetch<R: Wait, G: Gate + Drop, C: Ledger + Weighing, W: Ledger>(
    rt: &R,
    shared: &Shared<G, C, W>,
    at: usize,
    slot: &mut Slot,
    post: &mut Post<W>,
)
    requires at { at < vec_len shared.now.queues }
    requires empty { slot_of slot.old ≡ plain.Slot.Empty }
    requires room { HasRoomForOne post.old.kept }
    ensures seat { post.new.seat ≡ post.old.seat }
{
    let Some(ticket) = ticket_in(&post.hand) else {
        return;
    };
    // The next round fetches again where this fetch was refused memory.
    let (given, next) = answer_take_on(
        &shared.queues(rt),
        at,
        &mut post.hand,
        slot,
        &shared.inventory,
    );
    match given {
        Some(given) => post.kept.keep(given),
        None => post.lost = Some(ticket),
    }
    pass(&shared.gate, Point::Answered, &post.hand);
    pass_answered(&shared.gate, next.answered);
}

/// Makes room for what one request leaves. Room for two was made before the first of them was answered, so it is found
/// at once.
fn make_room_behind<R: Wait, W: Ledger>(rt: &R, post: &mut Post<W>)
    ensures room { HasRoomForOne post.new.kept }
    ensures seat { post.new.seat ≡ post.old.seat }
{
    for _ in rt.forever() {
        if post.make_room() {
            return;
        }
        thread::yield_now();
    }
    unreachable!()
}

/// Returns true if what is in the hand is to be answered on this queue.
fn is_of_queue<W: Ledger>(post: &Post<W>, at: usize) -> bool {
    match post.hand.answering_queue() {
        Some(queue) => usize::from(queue) == at,
        None => false,
    }
}

/// Returns true if one job is in the hand, and no other may run. Where the hand is free it first takes the only job
/// that may run, if no other worker waits for one.
pub(crate) fn has_one_job<G: Gate + Drop, C: Ledger + Weighing, W: Ledger>(
    shared: &Shared<G, C, W>,
    post: &mut Post<W>,
) -> bool
    ensures seat { post.new.seat ≡ post.old.seat }
{
    if post.hand.is_empty() {
        return take_own(shared, post);
    }
    post.out.len() == 0
}

/// Serves the job in the hand, and takes the next chain of the queue, which comes to its unit or is answered. A long
/// answer holds the memory, so the next chain is taken before it, as work for a time when others hold the memory. Else
/// it is taken in the hold of the answer. Does nothing where memory was refused.
pub(crate) fn serve_and_fetch<R: Wait, G: Gate + Drop, C: Ledger + Weighing, W: Ledger>(
    rt: &R,
    shared: &Shared<G, C, W>,
    at: usize,
    post: &mut Post<W>,
)
    requires at { at < vec_len shared.now.queues }
    ensures seat { post.new.seat ≡ post.old.seat }
{
    commit(rt, shared, post);
    if is_long(&post.hand) {
        let _ = fetch_next(rt, shared, at, post);
    }
    if is_long(&post.hand) || !is_of_queue(post, at) {
        serve_hand(rt, shared, post);
        return;
    }
    if !post.make_room() {
        return;
    }
    let mut slot = Slot::Empty;
    answer_and_fetch(rt, shared, at, &mut slot, post);
    turn(rt, shared, &mut slot, post);
    if !slot.is_empty() {
        make_room_behind(rt, post);
        direct(rt, shared, at, &mut slot, post);
    }
}
