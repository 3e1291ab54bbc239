//! The request queues that a worker owns, and how it serves them.

ghost use Rattle.std.specs.Prelude.{◌≡◌, ◌<◌, vec_len};
ghost use Rattle.std.specs.Bool.{OnFalse};
ghost use Rattle.handoff.specs.Seats.{IsSeatOf, IsSameSeat};
ghost use Rattle.phases.specs.declared.note.Cause.TheVariants as cause;
ghost use Rattle.close_audit.specs.Rooms.{HasRoomForOne};

use crate::in_a_row::{has_one_job, serve_and_fetch, turn};
use crate::post::{Post, drain};
use crate::progress::Progress;
use crate::shared::Shared;
use lock_scopes::{Gate, Point, Weighing, direct_on, take_on};
use phases::{Cause, Note, ReceiptOrNote, Slot};
use ring_core::Ticket;
use std::sync::Wait;
use std::sync::ledger::Ledger;

/// A worker serves at most so many requests of one queue in a row.
const IN_A_ROW: usize = 16;

/// Tells the gate that a chain was answered in the hold of its fetch, if one was.
pub(crate) fn pass_answered<G: Gate>(gate: &G, answered: Option<Ticket>) {
    if let Some(ticket) = answered {
        gate.pass(Point::Answered, ticket);
    }
}

/// Answers the request in the slot that its unit refused, where one is there, and keeps the note of why it got no
/// receipt. An answer that was decided at the fetch is given in the hold of that, so a note Direct never comes here.
pub(crate) fn direct<R: Wait, G: Gate + Drop, C: Ledger + Weighing, W: Ledger>(
    rt: &R,
    shared: &Shared<G, C, W>,
    at: usize,
    slot: &mut Slot,
    post: &mut Post<W>,
)
    requires at { at < vec_len shared.now.queues }
    requires room { HasRoomForOne post.old.kept }
    ensures seat { post.new.seat ≡ post.old.seat }
{
    if slot.is_empty() {
        return;
    }
    let Some(note) = direct_on(&mut shared.queues(rt), at, slot) else {
        return;
    };
    let ticket = note.ticket();
    keep_note(post, note);
    shared.gate.pass(Point::Answered, ticket);
}

/// Returns true if a note is Direct.
fn is_direct(note: &Note) -> bool
    ensures { OnFalse result (note.now.cause ≡ cause.Direct → ⊥) }
{
    match note.cause() {
        Cause::Direct => true,
        Cause::Aborted | Cause::Full | Cause::Busy | Cause::Stale | Cause::Unknown => false,
    }
}

/// Keeps a note that isn't Direct. A seat that would keep another has lost the request, and `close` gives no report.
fn keep_note<W: Ledger>(post: &mut Post<W>, note: Note)
    requires room { HasRoomForOne post.old.kept }
    ensures seat { post.new.seat ≡ post.old.seat }
{
    if is_direct(&note) {
        post.lost = Some(note.ticket());
    } else {
        post.kept.keep(ReceiptOrNote::Note(note));
    }
}

/// Takes a request queue's next chain, and brings it to its unit or answers it. Idle where there was none. A refused growth
/// counts as made.
pub(crate) fn fetch_next<R: Wait, G: Gate + Drop, C: Ledger + Weighing, W: Ledger>(
    rt: &R,
    shared: &Shared<G, C, W>,
    at: usize,
    post: &mut Post<W>,
) -> Progress
    requires at { at < vec_len shared.now.queues }
    ensures seat { post.new.seat ≡ post.old.seat }
{
    if !post.make_room() {
        return Progress::Made;
    }
    let mut slot = Slot::Empty;
    let next = take_on(&shared.queues(rt), at, &mut slot, &shared.inventory);
    let Ok(is_there) = next.fetched else {
        return Progress::Made;
    };
    pass_answered(&shared.gate, next.answered);
    turn(rt, shared, &mut slot, post);
    direct(rt, shared, at, &mut slot, post);
    Progress::of(is_there)
}

/// Takes a request queue's next chain, and brings it to its unit or answers it. Serves the job that it gives, where no
/// other worker waits for one, and likewise the next requests of the queue, up to [`IN_A_ROW`]. The queue's
/// owner calls, once it found the hand-off empty. A refused growth counts as made.
pub fn serve_queue<R: Wait, G: Gate + Drop, C: Ledger + Weighing, W: Ledger>(
    rt: &R,
    shared: &Shared<G, C, W>,
    at: usize,
    post: &mut Post<W>,
) -> Progress
    requires at { at < vec_len shared.now.queues }
    requires seat { IsSeatOf shared.now.handoff post.old.seat }
    ensures seat { IsSameSeat post.old.seat post.new.seat }
{
    // Then its list has the room that an Enter asks for.
    if !post.is_idle() {
        return Progress::Made;
    }
    let fetched = fetch_next(rt, shared, at, post);
    for _ in 0..IN_A_ROW {
        if !has_one_job(shared, post) {
            break;
        }
        serve_and_fetch(rt, shared, at, post);
    }
    drain(rt, shared, post);
    fetched
}
