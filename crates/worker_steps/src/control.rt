//! The control queue and the event queue, which the first worker serves.

ghost use Rattle.std.specs.Prelude.{◌≡◌};

use crate::post::Post;
use crate::progress::Progress;
use crate::shared::Shared;
use event_queue::WaitingEvents;
use lock_scopes::{
    Gate, Weighing, answer_tmf_on, check_on, direct_on, fetch_control_on, fetch_event_on, hold,
    mark_on, raise_on,
};
use phases::{OpenFunction, Slot};
use scsi_codec::{CONTROL_QUEUE, EVENT_QUEUE};
use std::sync::Wait;
use std::sync::ledger::Ledger;

/// The index of the control queue among the queues.
const CONTROL: usize = CONTROL_QUEUE as usize;

/// The index of the event queue among the queues.
const EVENTS: usize = EVENT_QUEUE as usize;

/// Takes the next step of the open function; `None` where nothing is left for it to do but to be answered.
fn go_on<R: Wait, G: Gate + Drop, C: Ledger + Weighing, W: Ledger>(
    rt: &R,
    shared: &Shared<G, C, W>,
    function: &mut OpenFunction,
    post: &mut Post<W>,
) -> Option<Progress>
    ensures seat { post.new.seat ≡ post.old.seat }
{
    if let Some(at) = function.function.next_unit() {
        if at < shared.units.len() {
            mark_on(
                &mut shared.units(rt, &mut post.part),
                at,
                &shared.inventory,
                function,
                &mut post.out,
            );
        }
        return Some(Progress::Made);
    }
    let waits = function.function.waits_for()?;
    if waits.unit >= shared.units.len() {
        return Some(Progress::Idle);
    }
    let did = check_on(
        &mut shared.units(rt, &mut post.part),
        waits.unit,
        &shared.inventory,
        function,
    );
    Some(Progress::of(did))
}

/// Answers the open function, where nothing is left for it to do.
fn answer<R: Wait, G: Gate + Drop, C: Ledger + Weighing, W: Ledger>(
    rt: &R,
    shared: &Shared<G, C, W>,
    function: &mut Option<OpenFunction>,
) -> Progress {
    if shared.queues.len() <= CONTROL {
        return Progress::Idle;
    }
    Progress::of(answer_tmf_on(&mut shared.queues(rt), CONTROL, function))
}

/// Takes the control queue's next chain, which opens a function or is answered.
fn fetch_control<R: Wait, G: Gate + Drop, C: Ledger + Weighing, W: Ledger>(
    rt: &R,
    shared: &Shared<G, C, W>,
    function: &mut Option<OpenFunction>,
) -> Progress {
    if shared.queues.len() <= CONTROL {
        return Progress::Idle;
    }
    let mut queues = shared.queues(rt);
    let mut slot = Slot::Empty;
    let fetched = fetch_control_on(&mut queues, CONTROL, &mut slot, function, &shared.inventory);
    if !slot.is_empty() {
        // A control chain has no receipt, and its note says nothing that its log doesn't.
        let _note = direct_on(&mut queues, CONTROL, &mut slot);
    }
    Progress::of(fetched != Ok(false))
}

/// Takes a step of the function that is open, or else takes the next chain of the control queue. The first worker
/// calls, in each round in which it looks at these. A refused growth counts as made.
pub fn manage<R: Wait, G: Gate + Drop, C: Ledger + Weighing, W: Ledger>(
    rt: &R,
    shared: &Shared<G, C, W>,
    function: &mut Option<OpenFunction>,
    post: &mut Post<W>,
) -> Progress
    ensures seat { post.new.seat ≡ post.old.seat }
{
    let Some(open) = function else {
        return fetch_control(rt, shared, function);
    };
    match go_on(rt, shared, open, post) {
        Some(progress) => progress,
        None => answer(rt, shared, function),
    }
}

/// Takes the event queue's next chain into the port. The first worker calls, behind `manage`. A refused growth counts
/// as made.
pub fn fetch_event<R: Wait, G: Gate + Drop, C: Ledger + Weighing, W: Ledger>(
    rt: &R,
    shared: &Shared<G, C, W>,
) -> Progress {
    if shared.queues.len() <= EVENTS {
        return Progress::Idle;
    }
    let mut held = hold(rt, &shared.port);
    let fetched = fetch_event_on(&mut shared.queues(rt), EVENTS, &Slot::Empty, &mut held);
    Progress::of(fetched != Ok(false))
}

/// Gives the oldest event that waits to the guest, or misses it. The operator calls, behind a reset or a resize.
pub fn raise<R: Wait, G: Gate + Drop, C: Ledger + Weighing, W: Ledger>(
    rt: &R,
    shared: &Shared<G, C, W>,
    waiting: &mut WaitingEvents,
) {
    if shared.queues.len() <= EVENTS {
        return;
    }
    let mut held = hold(rt, &shared.port);
    raise_on(&mut shared.queues(rt), EVENTS, &mut held, waiting);
}
