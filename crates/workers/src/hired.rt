//! A thread that works, and brings its seat back.

ghost use Rattle.std.specs.Prelude.{◌≡◌, ◌<◌, IfOk};
ghost use Rattle.std.specs.Arc.{arc_value};
ghost use Rattle.handoff.specs.Seats.{IsSeatOf, IsSameSeat};

use handoff::{Handoff, Seat};
use std::alloc::{AllocError, Global};
use std::marker::Model;
use std::snapshot::Snapshot;
use std::sync::{Arc, Wait};
use std::thread::{self, Promise, PromisedHandle, Threads};

/// A worker's beginning: what its thread starts from. `Send` is shown where the type is known.
pub trait Begins {
    /// Its seat.
    ghost seat: { Self → Rattle.handoff.specs.Seats.PlainSeat };
}

/// A worker's end: its seat, and what it kept.
#[derive(Drop)]
pub struct Worked<K: Drop> {
    pub seat: Seat,
    pub kept: K,
}

/// Work shared by a pool of threads: each starts from a `P`, which is made with an `S`, and returns a `K`. `Sync` is
/// shown where the type is known.
pub trait Works<P: Begins, K: Drop, S: Drop> {
    /// The hand-off at which their seats are.
    ghost hub: { Self → Rattle.handoff.specs.Seats.Hub };

    /// Returns the hand-off.
    fn handoff(&self) -> &Handoff
        ensures { result.now ≡ hub self.now };

    /// Returns what a seat begins with, with room for so many jobs. An error where a growth was refused.
    fn begin(&self, alloc: Global, seat: Seat, part: S, limit: usize) -> Result<P, AllocError>
        ensures seat { IfOk result (λ p. P.seat p ≡ seat) };

    /// Tells them to end.
    fn close<R: Wait>(&self, rt: &R);

    /// Works as one of so many, until they are to end.
    fn work<R: Wait>(&self, rt: &R, post: P, number: usize, workers: usize) -> Worked<K>
        requires some { 0 < workers }
        requires seat { IsSeatOf (hub self.now) (P.seat post) }
        ensures seat { IsSameSeat (P.seat post) result.seat };
}

/// A worker brings back this seat of this hand-off.
#[derive(Drop)]
struct BringsSeat {
    hub: Snapshot<Handoff>,
    number: usize,
}

impl<K: Drop> Promise<Worked<K>> for BringsSeat {
    ghost kept_by = { λ p w. IsSeatOf p.hub.value w.seat × (w.seat.number ≡ p.number) };
}

/// A thread that works. To a contract it is the seat that it brings back.
#[derive(Drop)]
pub(crate) struct Hired<K: Drop> {
    handle: PromisedHandle<Worked<K>, BringsSeat>,
}

impl<K: Drop> Model for Hired<K> {
    ghost use Rattle.workers.specs.Crew.{Hand};

    ghost Value = { Hand };

    ghost view = { λ h. record { hub = h.handle.promise.hub.value; number = h.handle.promise.number } };
}

impl<K: Drop> Hired<K> {
    /// Waits for the thread's end.
    pub(crate) fn join<R: Threads>(self, rt: &R) -> Worked<K>
        ensures { IsSeatOf self.hub result.seat × (result.seat.number ≡ self.number) }
    {
        let Hired { handle } = self;
        handle.join(rt)
    }
}

/// Starts the thread of one worker, of so many.
pub(crate) fn hire_one<R, W, P, K, S>(
    rt: R,
    shared: &Arc<W>,
    post: P,
    number: usize,
    workers: usize,
) -> Result<Hired<K>, AllocError>
where
    R: Threads + Wait + Copy + Send + 'static,
    W: Works<P, K, S> + Drop + Send + Sync + 'static,
    P: Begins + Drop + Send + 'static,
    K: Drop + Send + 'static,
    S: Drop + Send + 'static,
    requires seat { IsSeatOf (W.hub (arc_value shared.now)) (P.seat post) × ((P.seat post).number ≡ number) }
    requires some { 0 < workers }
    ensures { IfOk result (λ h. (h.hub ≡ W.hub (arc_value shared.now)) × (h.number ≡ number)) }
{
    let theirs = Arc::try_clone(shared)?;
    let promise = BringsSeat {
        hub: Snapshot::of(theirs.handoff()),
        number,
    };
    let job = move || -> Worked<K>
        requires { IsSeatOf (W.hub (arc_value theirs)) (P.seat post) × (0 < workers) }
        ensures { IsSameSeat (P.seat post) result.seat }
    { theirs.work(&rt, post, number, workers) };
    let handle = thread::spawn_with(&rt, promise, job)?;
    Ok(Hired { handle })
}
