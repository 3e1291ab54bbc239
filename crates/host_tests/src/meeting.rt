//! A gate at which two threads meet.

use ring_core::Ticket;
use std::sync::Arc;
use std::sync::atomic::{AtomicU64, Ordering};
use std::thread;
use workers::{Gate, Point};

/// For how many turns a thread waits for another that comes.
pub(crate) const LONG: u32 = 10_000_000;

/// For how many it waits for one that can't come.
pub(crate) const SHORT: u32 = 100_000;

/// The number of threads that came to each point of a gate, and the times that one went on without the other.
#[derive(Drop)]
pub(crate) struct Seen {
    entered: AtomicU64,
    taken: AtomicU64,
    prepared: AtomicU64,
    locked: AtomicU64,
    committed: AtomicU64,
    answered: AtomicU64,
    missed: AtomicU64,
}

impl Seen {
    /// Makes the counts of a gate to which none came yet.
    pub(crate) fn new() -> Seen {
        Seen {
            entered: AtomicU64::new(0),
            taken: AtomicU64::new(0),
            prepared: AtomicU64::new(0),
            locked: AtomicU64::new(0),
            committed: AtomicU64::new(0),
            answered: AtomicU64::new(0),
            missed: AtomicU64::new(0),
        }
    }

    /// Returns the number of threads that came to a point.
    fn came(&self, point: Point) -> &AtomicU64 {
        match point {
            Point::Entered => &self.entered,
            Point::Taken => &self.taken,
            Point::Prepared => &self.prepared,
            Point::Locked => &self.locked,
            Point::Committed => &self.committed,
            Point::Answered => &self.answered,
        }
    }

    /// Returns how often one went on without the other; `None` where two didn't come to each of these points.
    pub(crate) fn missed(&self, points: &[Point]) -> Option<u64> {
        for point in points {
            if self.came(*point).load(Ordering::SeqCst) != 2 {
                return None;
            }
        }
        Some(self.missed.load(Ordering::SeqCst))
    }
}

/// A gate that holds the first request of each queue up at these points, until that of another queue came there too. It
/// waits for so many turns at most where its unit's lock is held.
#[derive(Drop)]
pub(crate) struct Meeting {
    pub(crate) seen: Arc<Seen>,
    pub(crate) points: &'static [Point],
    pub(crate) turns: u32,
}

impl Gate for Meeting {
    fn pass(&self, point: Point, ticket: Ticket) {
        if ticket.number != 0 || !self.points.contains(&point) {
            return;
        }
        let came = self.seen.came(point);
        came.fetch_add(1, Ordering::SeqCst);
        let turns = if point == Point::Locked {
            self.turns
        } else {
            LONG
        };
        for _ in 0..turns {
            if came.load(Ordering::SeqCst) >= 2 {
                return;
            }
            thread::yield_now();
        }
        self.seen.missed.fetch_add(1, Ordering::SeqCst);
    }
}
