//! A seat's post, and what its thread does with a job in its hand.

ghost use Rattle.std.specs.Prelude.{◌≡◌, ◌<◌, IfOk, vec_len};
ghost use Rattle.handoff.specs.Seats.{IsSeatOf, IsSameSeat};
ghost use Rattle.std.specs.Bool.{OnTrue};
ghost use Rattle.phases.specs.Parts.{hand_of};
ghost use Rattle.lock_scopes.specs.Ledgers.{receipts_due};
ghost use Rattle.close_audit.specs.Rooms.{HasRoomForOne};
ghost use Rattle.worker_steps.specs.Tallying.{Tallies};

use crate::progress::Progress;
use crate::shared::Shared;
use cdb::Command;
use close_audit::Kept;
use handoff::Seat;
use lock_scopes::{Gate, Part, Point, Weighing, answer_on, commit_on, leave_on, prepare_on};
use logical_unit::{Job, JobList};
use phases::Hand;
use ring_core::Ticket;
use std::alloc::{AllocError, Global};
use std::sync::Wait;
use std::sync::ledger::Ledger;
use std::thread;

/// An answer may be long from so many writable bytes of its chain on: to copy as many takes longer than to take a
/// chain.
const LONG: u64 = 16_384;

/// All that a seat has: its ends of the hand-off's queues, the jobs that may run, and the job in its hand. It also has what it
/// kept of those that it answered, and the part of the ledger that counts its receipts.
#[derive(Drop)]
pub struct Post<W: Ledger> {
    pub seat: Seat,
    pub out: JobList,
    pub hand: Hand,
    pub kept: Kept,
    pub part: Part<W>,
    // True if its worker is counted among those that wait for a job.
    pub waits: bool,
    // The first request whose chain its queue didn't know when it was to be answered, which never happens: no receipt
    // is given then.
    pub lost: Option<Ticket>,
    /// As many receipts were counted for it as it kept, with the one that its hand is to give, unless it lost one.
    pub ghost even: { Tallies lost part.share.amount kept hand },
}

/// Returns the ticket of what is in a hand; `None` where nothing is.
pub(crate) fn ticket_in(hand: &Hand) -> Option<Ticket> {
    match hand {
        Hand::Empty => None,
        Hand::Job(held) => Some(held.job().ticket()),
        Hand::Answered(_, answered) => Some(answered.ticket()),
    }
}

/// Tells the gate where the request in the hand has come.
pub(crate) fn pass<G: Gate>(gate: &G, point: Point, hand: &Hand) {
    if let Some(ticket) = ticket_in(hand) {
        gate.pass(point, ticket);
    }
}

/// Returns true if what is in a hand may have a long answer.
pub(crate) fn is_long(hand: &Hand) -> bool {
    match hand {
        Hand::Job(held) => held.job().lengths().writable >= LONG,
        Hand::Empty | Hand::Answered(_, _) => false,
    }
}

/// Returns true if the job in a hand is a WRITE.
fn is_write(hand: &Hand) -> bool {
    match hand {
        Hand::Job(held) => matches!(held.job().command(), Command::Write { .. }),
        Hand::Empty | Hand::Answered(_, _) => false,
    }
}

/// Makes the pages of the WRITE in the hand, where its job is to be committed there and its unit gives what they need.
fn prepare<R: Wait, G: Gate + Drop, C: Ledger + Weighing, W: Ledger>(
    rt: &R,
    shared: &Shared<G, C, W>,
    at: usize,
    part: &mut Part<W>,
    hand: &mut Hand,
)
    requires at { at < vec_len shared.now.units }
    ensures hand { hand_of hand.new ≡ hand_of hand.old }
    ensures part { part.new.share.amount ≡ part.old.share.amount }
{
    if is_write(hand) && prepare_on(&mut shared.units(rt, part), at, hand) {
        pass(&shared.gate, Point::Prepared, hand);
    }
}

/// Commits the job in the hand, where one is there that isn't committed. The pages of a WRITE are made before that.
pub(crate) fn commit<R: Wait, G: Gate + Drop, C: Ledger + Weighing, W: Ledger>(
    rt: &R,
    shared: &Shared<G, C, W>,
    post: &mut Post<W>,
)
    ensures seat { post.new.seat ≡ post.old.seat }
    ensures kept { post.new.kept ≡ post.old.kept }
{
    let Some(at) = post.hand.committing_unit() else {
        return;
    };
    if at >= shared.units.len() {
        return;
    }
    prepare(rt, shared, at, &mut post.part, &mut post.hand);
    if commit_on(
        &mut shared.units(rt, &mut post.part),
        &shared.gate,
        at,
        &mut post.hand,
    ) {
        pass(&shared.gate, Point::Committed, &post.hand);
    }
}

/// Answers the job in the hand, where one is there whose commit is over, and keeps what it leaves.
fn answer<R: Wait, G: Gate + Drop, C: Ledger + Weighing, W: Ledger>(
    rt: &R,
    shared: &Shared<G, C, W>,
    post: &mut Post<W>,
)
    requires room { HasRoomForOne post.old.kept }
    ensures seat { post.new.seat ≡ post.old.seat }
{
    let Some(queue) = post.hand.answering_queue() else {
        return;
    };
    let at = usize::from(queue);
    if at >= shared.queues.len() {
        return;
    }
    let Some(ticket) = ticket_in(&post.hand) else {
        return;
    };
    match answer_on(&mut shared.queues(rt), at, &mut post.hand) {
        Some(given) => post.kept.keep(given),
        None => post.lost = Some(ticket),
    }
    pass(&shared.gate, Point::Answered, &post.hand);
}

/// Has the task in the hand leave, where one is there. The jobs that this lets go on come to the list, to be handed
/// off.
pub(crate) fn leave<R: Wait, G: Gate + Drop, C: Ledger + Weighing, W: Ledger>(
    rt: &R,
    shared: &Shared<G, C, W>,
    post: &mut Post<W>,
)
    ensures seat { post.new.seat ≡ post.old.seat }
    ensures kept { post.new.kept ≡ post.old.kept }
{
    let Some(at) = post.hand.leaving_unit() else {
        return;
    };
    if at >= shared.units.len() {
        return;
    }
    leave_on(
        &mut shared.units(rt, &mut post.part),
        at,
        &mut post.hand,
        &mut post.out,
    );
}

impl<W: Ledger> Post<W> {
    /// Makes the post of a seat that has nothing yet, with room for `limit` jobs; its receipts are counted in this
    /// part. Called once for each seat, where a host is started. An error where a growth was refused.
    pub fn new(
        alloc: Global,
        seat: Seat,
        part: Part<W>,
        limit: usize,
    ) -> Result<Post<W>, AllocError>
        requires new { part.share.amount ≡ 0 }
        ensures seat { IfOk result (λ post. post.seat ≡ seat) }
    {
        Ok(Post {
            seat,
            out: JobList::with_limit(alloc, limit)?,
            hand: Hand::Empty,
            kept: Kept::new(alloc),
            part,
            waits: false,
            lost: None,
        })
    }

    /// Returns true if it has no job, in its hand or to be handed off. Asked before more is taken.
    pub fn is_idle(&self) -> bool
        ensures { OnTrue result (receipts_due self.now.hand ≡ 0) }
    {
        self.hand.is_empty() && self.out.len() == 0
    }

    /// Makes room for what the jobs in its list and in its hand leave, and one more request. Returns false where a
    /// growth was refused.
    pub(crate) fn make_room(&mut self) -> bool
        ensures room { OnTrue result (HasRoomForOne self.new.kept) }
        ensures seat { self.new.seat ≡ self.old.seat }
        ensures hand { self.new.hand ≡ self.old.hand }
    {
        self.kept.make_room(self.out.len().saturating_add(2))
    }
}

/// Commits, answers and lets leave what is in the hand, from where it has come. Room for what it leaves was made
/// before.
fn serve<R: Wait, G: Gate + Drop, C: Ledger + Weighing, W: Ledger>(
    rt: &R,
    shared: &Shared<G, C, W>,
    post: &mut Post<W>,
)
    requires room { HasRoomForOne post.old.kept }
    ensures seat { post.new.seat ≡ post.old.seat }
{
    commit(rt, shared, post);
    answer(rt, shared, post);
    leave(rt, shared, post);
}

/// Serves what is in the hand, where there is room for what it leaves.
pub(crate) fn serve_hand<R: Wait, G: Gate + Drop, C: Ledger + Weighing, W: Ledger>(
    rt: &R,
    shared: &Shared<G, C, W>,
    post: &mut Post<W>,
)
    ensures seat { post.new.seat ≡ post.old.seat }
{
    if post.hand.is_empty() || !post.make_room() {
        return;
    }
    serve(rt, shared, post);
}

/// Takes a job into the hand, and serves it where there is room for what it leaves.
fn serve_job<R: Wait, G: Gate + Drop, C: Ledger + Weighing, W: Ledger>(
    rt: &R,
    shared: &Shared<G, C, W>,
    post: &mut Post<W>,
    job: Job,
)
    requires empty { receipts_due post.old.hand ≡ 0 }
    ensures seat { post.new.seat ≡ post.old.seat }
{
    shared.gate.pass(Point::Taken, job.ticket());
    post.hand = Hand::taken(job);
    serve_hand(rt, shared, post);
}

/// Takes the only job that may run into the hand, where that is free and no other worker waits for a job. Returns true
/// if it took one.
pub(crate) fn take_own<G: Gate + Drop, C: Ledger + Weighing, W: Ledger>(
    shared: &Shared<G, C, W>,
    post: &mut Post<W>,
) -> bool
    ensures seat { post.new.seat ≡ post.old.seat }
{
    if !post.hand.is_empty() || post.out.len() != 1 || shared.is_awaited(post.waits) {
        return false;
    }
    let Some(job) = post.out.next() else {
        return false;
    };
    shared.gate.pass(Point::Taken, job.ticket());
    post.hand = Hand::taken(job);
    true
}

/// Hands off the next job that may run; this seat serves it where the hand-off is full. Returns true if there was one,
/// and the hand was free for it.
fn put<R: Wait, G: Gate + Drop, C: Ledger + Weighing, W: Ledger>(
    rt: &R,
    shared: &Shared<G, C, W>,
    post: &mut Post<W>,
) -> bool
    requires seat { IsSeatOf shared.now.handoff post.old.seat }
    ensures seat { IsSameSeat post.old.seat post.new.seat }
{
    if !post.hand.is_empty() {
        return false;
    }
    let Some(job) = post.out.next() else {
        return false;
    };
    match shared.handoff.put(rt, &mut post.seat, job) {
        Ok(()) => shared.bell.ring(rt),
        Err(job) => serve_job(rt, shared, post, job),
    }
    true
}

/// Serves or hands off what this seat has, until it has nothing, or memory was refused to it. A worker calls as a round
/// begins, and behind each job and each queue; the operator, before and behind a reset.
pub fn drain<R: Wait, G: Gate + Drop, C: Ledger + Weighing, W: Ledger>(
    rt: &R,
    shared: &Shared<G, C, W>,
    post: &mut Post<W>,
)
    requires seat { IsSeatOf shared.now.handoff post.old.seat }
    ensures seat { IsSameSeat post.old.seat post.new.seat }
{
    serve_hand(rt, shared, post);
    for _ in rt.forever() {
        if !put(rt, shared, post) {
            return;
        }
    }
    unreachable!()
}

/// Serves or hands off what this seat has, until it has nothing. Where memory was refused it tries again, once other
/// threads had their turn. Called for the operator's seat, as its host is closed.
pub fn finish<R: Wait, G: Gate + Drop, C: Ledger + Weighing, W: Ledger>(
    rt: &R,
    shared: &Shared<G, C, W>,
    post: &mut Post<W>,
)
    requires seat { IsSeatOf shared.now.handoff post.old.seat }
    ensures seat { IsSameSeat post.old.seat post.new.seat }
    ensures empty { receipts_due post.new.hand ≡ 0 }
{
    drain(rt, shared, post);
    for _ in rt.forever() {
        if post.is_idle() {
            return;
        }
        thread::yield_now();
        drain(rt, shared, post);
    }
    unreachable!()
}

/// Takes a job from the hand-off and serves it, and hands off the jobs that may run then. A worker calls once a round.
/// `Idle` where the hand-off was found empty; a refused growth counts as made.
pub fn serve_handed_off<R: Wait, G: Gate + Drop, C: Ledger + Weighing, W: Ledger>(
    rt: &R,
    shared: &Shared<G, C, W>,
    post: &mut Post<W>,
) -> Progress
    requires seat { IsSeatOf shared.now.handoff post.old.seat }
    ensures seat { IsSameSeat post.old.seat post.new.seat }
{
    if !post.is_idle() || !post.make_room() {
        return Progress::Made;
    }
    let Some(job) = shared.handoff.take(rt, &mut post.seat) else {
        return Progress::Idle;
    };
    shared.gate.pass(Point::Taken, job.ticket());
    post.hand = Hand::taken(job);
    serve(rt, shared, post);
    drain(rt, shared, post);
    Progress::Made
}
