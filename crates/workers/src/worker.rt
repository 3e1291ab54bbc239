//! A worker: what it has, and its rounds.

ghost use Rattle.std.specs.Prelude.{◌≡◌, ◌<◌};
ghost use Rattle.handoff.specs.Seats.{IsSeatOf, IsSameSeat};
ghost use Rattle.lock_scopes.specs.Ledgers.{receipts_due};

use crate::hired::Worked;
use crate::tallied::Tallied;
use lock_scopes::{Gate, Weighing};
use phases::OpenFunction;
use scsi_codec::FIRST_REQUEST_QUEUE;
use std::hint::spin_loop;
use std::sync::Wait;
use std::sync::ledger::Ledger;
use worker_steps::{
    Post, Progress, Shared, drain, fetch_event, manage, serve_handed_off, serve_queue,
};

/// The index of the first request queue among the queues.
const FIRST_REQUEST: usize = FIRST_REQUEST_QUEUE as usize;

/// A worker sleeps after this many rounds in a row that found nothing.
const SLEEPS_AFTER: u32 = 64;

/// Under load, worker 0 looks at the control queue and the event queue once per this many rounds.
const LOOKS_EVERY: u8 = 16;

/// A worker: what its seat has, and which worker it is, of how many.
#[derive(Drop)]
pub(crate) struct Worker<W: Ledger> {
    pub(crate) post: Post<W>,
    pub(crate) number: usize,
    pub(crate) workers: usize,
}

/// Takes a post apart into what its thread brings back.
pub(crate) fn ends<W: Ledger>(post: Post<W>) -> Worked<Tallied<W>>
    requires empty { receipts_due post.hand ≡ 0 }
    ensures { result.seat ≡ post.seat }
{
    let Post {
        seat,
        kept,
        part,
        lost,
        ..
    } = post;
    Worked {
        seat,
        kept: Tallied { kept, part, lost },
    }
}

/// Takes a step of the open function or the control queue, and one of the event queue. An abandoned host gets
/// one of the open function alone.
fn serve_others<R: Wait, G: Gate + Drop, C: Ledger + Weighing, W: Ledger>(
    rt: &R,
    shared: &Shared<G, C, W>,
    function: &mut Option<OpenFunction>,
    post: &mut Post<W>,
) -> Progress
    ensures seat { post.new.seat ≡ post.old.seat }
{
    if shared.is_abandoned() {
        return match function {
            None => Progress::Idle,
            Some(_) => manage(rt, shared, function, post),
        };
    }
    let managed = manage(rt, shared, function, post);
    managed.and(fetch_event(rt, shared))
}

/// Serves each request queue that the worker owns, in the order of their numbers.
fn serve_own<R: Wait, G: Gate + Drop, C: Ledger + Weighing, W: Ledger>(
    rt: &R,
    shared: &Shared<G, C, W>,
    number: usize,
    workers: usize,
    post: &mut Post<W>,
) -> Progress
    requires some { 0 < workers }
    requires seat { IsSeatOf shared.now.handoff post.old.seat }
    ensures seat { IsSameSeat post.old.seat post.new.seat }
{
    let mut progress = Progress::Idle;
    for at in FIRST_REQUEST..shared.queues.len() {
        if (at - FIRST_REQUEST) % workers == number {
            progress = serve_queue(rt, shared, at, post).and(progress);
        }
    }
    progress
}

/// Goes one round: serves what the seat has, then a job of the hand-off or, where there is none, each queue that the
/// worker owns, unless the host was abandoned.
fn round<R: Wait, G: Gate + Drop, C: Ledger + Weighing, W: Ledger>(
    rt: &R,
    shared: &Shared<G, C, W>,
    number: usize,
    workers: usize,
    post: &mut Post<W>,
) -> Progress
    requires some { 0 < workers }
    requires seat { IsSeatOf shared.now.handoff post.old.seat }
    ensures seat { IsSameSeat post.old.seat post.new.seat }
{
    if !post.is_idle() {
        drain(rt, shared, post);
    }
    match serve_handed_off(rt, shared, post) {
        Progress::Made => Progress::Made,
        Progress::Idle if shared.is_abandoned() => Progress::Idle,
        Progress::Idle => serve_own(rt, shared, number, workers, post),
    }
}

/// Has a worker sleep that found nothing to do for a while: it announces that, and sleeps where the next round found
/// nothing either. While a function is open it stays awake, since what others answer lets the function go on. Returns
/// the rings that it saw as it announced; `None` where it is awake.
fn nap<R: Wait, G: Gate + Drop, C: Ledger + Weighing, W: Ledger>(
    rt: &R,
    shared: &Shared<G, C, W>,
    announced: Option<u64>,
    idle_rounds: u32,
    is_open: bool,
) -> Option<u64> {
    match announced {
        None => {
            if idle_rounds < SLEEPS_AFTER || is_open || shared.is_closing() {
                return None;
            }
            Some(shared.bell.announce(rt))
        }
        Some(seen) => {
            if idle_rounds > SLEEPS_AFTER && !is_open && !shared.is_closing() {
                shared.bell.sleep(rt, seen);
            }
            shared.bell.withdraw();
            None
        }
    }
}

/// Counts the worker among those that wait for a job where its round found nothing, and no longer where one found
/// something.
fn count_waiting<G: Gate + Drop, C: Ledger + Weighing, W: Ledger>(
    shared: &Shared<G, C, W>,
    post: &mut Post<W>,
    is_idle: bool,
)
    ensures seat { post.new.seat ≡ post.old.seat }
{
    if is_idle != post.waits {
        shared.wait_for_job(is_idle);
        post.waits = is_idle;
    }
}

/// Returns how many rounds under load a worker has gone since it last looked at all queues, one more among them. An
/// idle round begins them anew.
fn rounds_behind(rounds: u8, is_idle: bool) -> u8 {
    if is_idle {
        return 0;
    }
    rounds.wrapping_add(1) % LOOKS_EVERY
}

/// Works until the host closes, and a round then looked at all queues, found nothing to do and left the worker nothing.
pub(crate) fn work<R: Wait, G: Gate + Drop, C: Ledger + Weighing, W: Ledger>(
    rt: &R,
    shared: &Shared<G, C, W>,
    worker: Worker<W>,
) -> Worked<Tallied<W>>
    requires some { 0 < worker.workers }
    requires seat { IsSeatOf shared.now.handoff worker.post.seat }
    ensures seat { IsSameSeat worker.post.seat result.seat }
{
    let Worker {
        mut post,
        number,
        workers,
    } = worker;
    let mut function = None;
    let mut rounds: u8 = 0;
    let mut idle_rounds: u32 = 0;
    let mut announced = None;
    for _ in rt.forever() {
        let is_closing = shared.is_closing();
        let looks = number != 0 || rounds == 0 || function.is_some();
        let mut others = Progress::Idle;
        if looks && number == 0 {
            others = serve_others(rt, shared, &mut function, &mut post);
        }
        let is_idle = round(rt, shared, number, workers, &mut post).is_idle();
        count_waiting(shared, &mut post, is_idle);
        rounds = rounds_behind(rounds, is_idle);
        if is_idle && others.is_idle() && looks {
            if is_closing && function.is_none() && post.is_idle() {
                if announced.is_some() {
                    shared.bell.withdraw();
                }
                return ends(post);
            }
            spin_loop();
            idle_rounds = idle_rounds.saturating_add(1);
        } else if looks {
            idle_rounds = 0;
        }
        announced = nap(rt, shared, announced, idle_rounds, function.is_some());
    }
    unreachable!()
}
