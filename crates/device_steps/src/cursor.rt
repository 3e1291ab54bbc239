//! The point in the order of service from which to look next.

ghost use Rattle.std.specs.Prelude.{◌≡◌, ◌↔◌, IsTrue};
ghost use Rattle.device_steps.specs.Inner.Cursors.{IsFetchPlace, served_of, direct_from, seat_from, enter_from};

use phases::Brought;

/// A point in the order before which no event applies. A host that serves begins at `Start`, and goes on from where each
/// turn says.
#[derive(Clone, Copy)]
pub enum Cursor {
    /// Its beginning.
    Start,
    /// The answer of the chain that is ready on a queue.
    Direct(u16),
    /// The first seat.
    Seats,
    /// The request that arrived on a queue.
    Enter(u16),
    /// The first queue's next chain, behind the request of this queue that was served at once.
    Fetch(u16),
}

/// The events that were served, and from where on to look then.
#[derive(Clone, Copy)]
pub struct Progress {
    /// The point from which on to look.
    pub next: Cursor,
    /// The number of events that were served.
    pub steps: u64,
}

/// The number of events of a request that is served at once.
pub(crate) const AT_ONCE: u64 = 7;

/// Returns the progress where one event was served.
pub(crate) fn one(next: Cursor) -> Progress
    ensures { result ≡ record { next = next; steps = 1 } }
{
    Progress { next, steps: 1 }
}

/// Returns the progress of a request of a queue that was served at once, where the first seat has so many jobs to hand off
/// then.
pub(crate) fn progress_of(done: Brought, jobs: usize, queue: u16) -> Progress
    ensures { result ≡ served_of done jobs queue }
{
    if matches!(done, Brought::Waits) {
        return Progress {
            next: Cursor::Start,
            steps: 2,
        };
    }
    let next = if jobs == 0 {
        Cursor::Fetch(queue)
    } else {
        Cursor::Seats
    };
    Progress {
        next,
        steps: AT_ONCE,
    }
}

/// Returns true if it is the beginning.
pub(crate) fn is_start(cursor: Cursor) -> bool
    ensures { IsTrue result ↔ (cursor ≡ Cursor.Start) }
{
    match cursor {
        Cursor::Start => true,
        Cursor::Direct(_) | Cursor::Seats | Cursor::Enter(_) | Cursor::Fetch(_) => false,
    }
}

/// Returns true if it is the first queue's next chain.
pub fn is_fetch(cursor: Cursor) -> bool
    ensures { IsTrue result ↔ IsFetchPlace cursor }
{
    match cursor {
        Cursor::Fetch(_) => true,
        Cursor::Start | Cursor::Direct(_) | Cursor::Seats | Cursor::Enter(_) => false,
    }
}

/// Returns the first queue whose answer may be ready, of so many.
pub(crate) fn first_direct(cursor: Cursor, queues: usize) -> usize
    ensures { result ≡ direct_from cursor queues }
{
    match cursor {
        Cursor::Start => 0,
        Cursor::Direct(number) => number as usize,
        Cursor::Seats | Cursor::Enter(_) | Cursor::Fetch(_) => queues,
    }
}

/// Returns the first seat that may have a step to take, of so many.
pub(crate) fn first_seat(cursor: Cursor, seats: usize) -> usize
    ensures { result ≡ seat_from cursor seats }
{
    match cursor {
        Cursor::Start | Cursor::Direct(_) | Cursor::Seats => 0,
        Cursor::Enter(_) | Cursor::Fetch(_) => seats,
    }
}

/// Returns the first queue on which a request may have arrived, of so many.
pub(crate) fn first_enter(cursor: Cursor, queues: usize) -> usize
    ensures { result ≡ enter_from cursor queues }
{
    match cursor {
        Cursor::Start | Cursor::Direct(_) | Cursor::Seats => 0,
        Cursor::Enter(number) => number as usize,
        Cursor::Fetch(_) => queues,
    }
}
