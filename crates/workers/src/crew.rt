//! All threads of a hand-off.

ghost use Rattle.std.specs.Prelude.{◌≡◌, ◌+◌, ◌<◌, ◌≤◌, [], vec_len, IfOk};
ghost use Rattle.std.specs.Vec.{vec_capacity};
ghost use Rattle.std.specs.Arc.{arc_value};
ghost use Rattle.handoff.specs.Seats.{Hub, IsSeatOf};
ghost use Rattle.handoff.specs.Inner.Seats.{AreSeatsFrom, AreAllSeats};
ghost use Rattle.workers.specs.Crew.{IsLastSeat};
ghost use Rattle.workers.specs.Inner.Crew.{AreHired};

use crate::hired::{Begins, Hired, Worked, Works, hire_one};
use handoff::{Handoff, Seat};
use std::alloc::{AllocError, Global};
use std::marker::Model;
use std::snapshot::Snapshot;
use std::sync::{Arc, Wait};
use std::thread::Threads;

/// The threads that have all seats of a hand-off but the last, each told to bring its own back. Clauses see which
/// hand-off, and how many threads. It isn't `Drop`: who hires them joins them.
pub struct Crew<K: Drop> {
    hired: Vec<Hired<K>>,
    hub: Snapshot<Handoff>,
}

impl<K: Drop> Model for Crew<K> {
    ghost use Rattle.std.specs.Prelude.{◌≡◌, ◌+◌, vec_len};
    ghost use Rattle.workers.specs.Crew.{Band};
    ghost use Rattle.workers.specs.Inner.Crew.{AreHired};

    ghost Value = { Band };

    ghost view = { λ c. record { hub = c.hub.value; threads = vec_len c.hired } };

    ghost invariant = { λ c. AreHired c.hub.value 0 c.hired.items × (vec_len c.hired + 1 ≡ c.hub.value.seats) };
}

/// Waits for the end of all threads.
fn wait_for<R: Threads, K: Drop>(rt: &R, hired: Vec<Hired<K>>) {
    for worker in hired {
        worker.join(rt);
    }
}

/// Starts the thread of one worker, with the last of the parts, and room for so many jobs.
fn start<R, W, P, K, S>(
    rt: R,
    alloc: Global,
    shared: &Arc<W>,
    seat: Seat,
    parts: &mut Vec<S>,
    limit: usize,
    number: usize,
    workers: usize,
) -> Result<Hired<K>, AllocError>
where
    R: Threads + Wait + Copy + Send + 'static,
    W: Works<P, K, S> + Drop + Send + Sync + 'static,
    P: Begins + Drop + Send + 'static,
    K: Drop + Send + 'static,
    S: Drop + Send + 'static,
    requires seat { IsSeatOf (W.hub (arc_value shared.now)) seat × (seat.number ≡ number) }
    requires some { 0 < workers }
    ensures { IfOk result (λ h. (h.hub ≡ W.hub (arc_value shared.now)) × (h.number ≡ number)) }
{
    let Some(part) = parts.pop() else {
        return Err(AllocError);
    };
    let post = shared.begin(alloc, seat, part, limit)?;
    hire_one(rt, shared, post, number, workers)
}

/// Starts a thread for each seat. Where one can't be made, those that were are ended.
fn start_all<R, W, P, K, S>(
    rt: R,
    alloc: Global,
    shared: &Arc<W>,
    seats: Vec<Seat>,
    mut parts: Vec<S>,
    limit: usize,
) -> Result<Vec<Hired<K>>, AllocError>
where
    R: Threads + Wait + Copy + Send + 'static,
    W: Works<P, K, S> + Drop + Send + Sync + 'static,
    P: Begins + Drop + Send + 'static,
    K: Drop + Send + 'static,
    S: Drop + Send + 'static,
    requires { AreSeatsFrom (W.hub (arc_value shared.now)) 0 seats.items }
    ensures hired { IfOk result (λ v. AreHired (W.hub (arc_value shared.now)) 0 v.items) }
    ensures len { IfOk result (λ v. vec_len v ≡ vec_len seats) }
{
    let count = seats.len();
    let mut hired = Vec::with_capacity(alloc, count)?;
    for seat in seats {
        let number = hired.len();
        let Ok(worker) = start(rt, alloc, shared, seat, &mut parts, limit, number, count) else {
            shared.close(&rt);
            wait_for(&rt, hired);
            return Err(AllocError);
        };
        hired.push_reserved(worker);
    }
    Ok(hired)
}

/// Waits for the end of all threads: their seats, in order, and what each kept. There is room for them.
fn join_all<R: Threads, K: Drop>(
    rt: &R,
    hired: Vec<Hired<K>>,
    mut seats: Vec<Seat>,
    mut kept: Vec<K>,
) -> (Vec<Seat>, Vec<K>)
    requires new { (seats.items ≡ []) × (kept.items ≡ []) }
    requires room { (vec_len hired < vec_capacity seats) × (vec_len hired < vec_capacity kept) }
    ensures seats { (h : Hub) → AreHired h 0 hired.items → AreSeatsFrom h 0 result.0.items }
    ensures count { (vec_len result.0 ≡ vec_len hired) × (vec_len result.0 < vec_capacity result.0) }
    ensures room { (vec_len result.1 ≡ vec_len hired) × (vec_len result.1 < vec_capacity result.1) }
{
    for worker in hired {
        let Worked { seat, kept: theirs } = worker.join(rt);
        seats.push_reserved(seat);
        kept.push_reserved(theirs);
    }
    (seats, kept)
}

/// Starts a thread for each seat of a hand-off but the last, and gives what the last begins with: the caller works by
/// that. Each begins with a part, of which there are as many as seats, and room for `limit` jobs. Called once, for all
/// seats of the hand-off. An error where a growth was refused or a thread couldn't be made: those that were made are
/// told to end then, and it waits for that.
pub fn hire<R, W, P, K, S>(
    rt: R,
    alloc: Global,
    shared: &Arc<W>,
    mut seats: Vec<Seat>,
    mut parts: Vec<S>,
    limit: usize,
) -> Result<(Crew<K>, P), AllocError>
where
    R: Threads + Wait + Copy + Send + 'static,
    W: Works<P, K, S> + Drop + Send + Sync + 'static,
    P: Begins + Drop + Send + 'static,
    K: Drop + Send + 'static,
    S: Drop + Send + 'static,
    requires all { AreAllSeats (W.hub (arc_value shared.now)) seats.items }
    requires some { 0 < (W.hub (arc_value shared.now)).seats }
    ensures hub { IfOk result (λ r. r.0.hub ≡ W.hub (arc_value shared.now)) }
    ensures threads { IfOk result (λ r. r.0.threads + 1 ≡ (W.hub (arc_value shared.now)).seats) }
    ensures last { IfOk result (λ r. IsLastSeat (W.hub (arc_value shared.now)) (P.seat r.1)) }
{
    let Some(last) = seats.pop() else {
        unreachable!()
    };
    let Some(part) = parts.pop() else {
        return Err(AllocError);
    };
    let post = shared.begin(alloc, last, part, limit)?;
    let hub = Snapshot::of(shared.handoff());
    let hired = start_all(rt, alloc, shared, seats, parts, limit)?;
    Ok((Crew { hired, hub }, post))
}

impl<K: Drop> Crew<K> {
    /// Waits for the end of all threads, which were told to end. Returns all seats of the hand-off, in order, of which
    /// the caller gives the last, and what each kept. Called once, where what they share is closed. An error where a
    /// growth was refused; the threads have ended then too.
    pub fn join<R: Threads>(
        self,
        rt: &R,
        alloc: Global,
        seat: Seat,
        kept: K,
    ) -> Result<(Vec<Seat>, Vec<K>), AllocError>
        requires { IsLastSeat self.hub seat }
        ensures seats { IfOk result (λ r. AreAllSeats self.hub r.0.items) }
        ensures count { IfOk result (λ r. vec_len r.1 ≡ self.threads + 1) }
    {
        let Crew { hired, hub: _ } = self;
        let room = hired.len() + 1;
        let (Ok(seats), Ok(all)) = (
            Vec::with_capacity(alloc, room),
            Vec::with_capacity(alloc, room),
        ) else {
            wait_for(rt, hired);
            return Err(AllocError);
        };
        let (mut seats, mut all) = join_all(rt, hired, seats, all);
        seats.push_reserved(seat);
        all.push_reserved(kept);
        Ok((seats, all))
    }
}
