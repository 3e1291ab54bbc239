//! Two WRITEs into one page, whose pages are made at once.

ghost use Rattle.workers.specs.Ledgers.{Opens};

use crate::guest::{are_answered, ask, fill};
use crate::meeting::LONG;
use crate::runs::{FIRST, start};
use logical_unit::UnitState;
use ring_core::Ticket;
use std::alloc::Global;
use std::marker::Brand;
use std::sync::atomic::{AtomicU64, Ordering};
use std::sync::ledger::{Blank, Ledger};
use std::sync::{Arc, Wait};
use std::thread;
use std::thread::Threads;
use test_guest::Chain;
use workers::{Gate, Host, Point, Weighing};

/// The queues of the two WRITEs.
const EARLY: u16 = 2;

const LATE: u16 = 3;

/// The bytes of which their blocks are.
const EARLY_BYTE: u8 = 0xab;

const LATE_BYTE: u8 = 0xcd;

/// WRITE (10) of block 0, whose pages are made first, and which is committed last.
const EARLY_WRITE: Chain = Chain {
    queue: EARLY,
    bytes: &[
        1, 0, 0, 0, 0, 0, 0, 0, 0, 0, 0, 0, 0, 0, 0, 0, 0, 0, 0, 0x2a, 0, 0, 0, 0, 0, 0, 0, 1,
    ],
    readable: 563,
    ..FIRST
};

/// WRITE (10) of block 1.
const LATE_WRITE: Chain = Chain {
    queue: LATE,
    bytes: &[
        1, 0, 0, 0, 0, 0, 0, 0, 0, 0, 0, 0, 0, 0, 0, 0, 0, 0, 0, 0x2a, 0, 0, 0, 0, 1, 0, 0, 1,
    ],
    ..EARLY_WRITE
};

/// The points that the two WRITEs have reached.
#[derive(Drop)]
struct Seen {
    entered: AtomicU64,
    prepared: AtomicU64,
    late_prepared: AtomicU64,
    late_answered: AtomicU64,
    missed: AtomicU64,
}

impl Seen {
    /// Makes the points of two that have come nowhere.
    fn new() -> Seen {
        Seen {
            entered: AtomicU64::new(0),
            prepared: AtomicU64::new(0),
            late_prepared: AtomicU64::new(0),
            late_answered: AtomicU64::new(0),
            missed: AtomicU64::new(0),
        }
    }

    /// Waits until so many came.
    fn wait(&self, came: &AtomicU64, count: u64) {
        for _ in 0..LONG {
            if came.load(Ordering::SeqCst) >= count {
                return;
            }
            thread::yield_now();
        }
        self.missed.fetch_add(1, Ordering::SeqCst);
    }
}

/// A gate that holds each WRITE up once it entered, until the other has. It holds the late one before its pages are
/// made, until those of the early one are. It then holds the early one until the late one is answered.
#[derive(Drop)]
struct Crossing {
    seen: Arc<Seen>,
}

impl Gate for Crossing {
    fn pass(&self, point: Point, ticket: Ticket) {
        let seen = &self.seen;
        let is_early = ticket.queue == EARLY;
        match point {
            Point::Entered => {
                seen.entered.fetch_add(1, Ordering::SeqCst);
                seen.wait(&seen.entered, 2);
            }
            Point::Taken => {
                if !is_early {
                    seen.wait(&seen.prepared, 1);
                }
            }
            Point::Prepared => {
                if is_early {
                    seen.prepared.fetch_add(1, Ordering::SeqCst);
                    seen.wait(&seen.late_answered, 1);
                } else {
                    seen.late_prepared.fetch_add(1, Ordering::SeqCst);
                }
            }
            Point::Answered => {
                if !is_early {
                    seen.late_answered.fetch_add(1, Ordering::SeqCst);
                }
            }
            Point::Locked | Point::Committed => {}
        }
    }
}

/// The outcome of two WRITEs into one page.
#[derive(Clone, Copy, PartialEq, Eq)]
pub struct Crossed {
    /// The times that one went on without what it waited for.
    pub missed: u64,
    /// The times that the pages of the early one, and of the late one, were made.
    pub prepared: (u64, u64),
    /// True if the guest saw that both were answered.
    pub answered: bool,
    /// The byte of which each of the first three blocks is; `None` where its bytes differ.
    pub blocks: [Option<u8>; 3],
}

/// Returns the byte of which a block is; `None` where its bytes differ.
fn byte_of(alloc: Global, unit: &UnitState, block: u64) -> Option<u8> {
    if unit.capacity() <= block {
        return None;
    }
    let mut bytes = Vec::new(alloc);
    unit.read_blocks(block, 1, &mut bytes).ok()?;
    let first = *bytes.get(0)?;
    if bytes.as_slice() == [first; 512].as_slice() {
        return Some(first);
    }
    None
}

/// Serves two WRITEs of one block each, both into the first page of a disk, by so many workers, 2 to 8. The pages of
/// the second are made and put in place while those of the first wait. `None` where memory was refused, or the closed
/// host doesn't add up.
pub(crate) fn cross<R: Threads + Wait + Copy + Send + 'static>(
    rt: R,
    alloc: Global,
    workers: u16,
) -> Option<Crossed> {
    cross_with::<Brand, Brand, R>(rt, alloc, workers, Blank::new(64), Blank::new(73))
}

/// Does what [`cross`] does, with these ledgers.
fn cross_with<C, D, R>(
    rt: R,
    alloc: Global,
    workers: u16,
    acts: Blank,
    receipts: Blank,
) -> Option<Crossed>
where
    C: Ledger + Weighing + Send + Sync + 'static,
    D: Ledger + Send + Sync + 'static,
    R: Threads + Wait + Copy + Send + 'static,
    requires acts { Opens acts.name acts.parts C.name C.parts 64 }
    requires receipts { Opens receipts.name receipts.parts D.name D.parts 73 }
{
    let seen = Arc::new(alloc, Seen::new()).ok()?;
    let gate = Crossing {
        seen: Arc::try_clone(&seen).ok()?,
    };
    let host: Host<Crossing, C, D> = start(rt, alloc, gate, workers, 8, acts, receipts)?;
    fill(&rt, &host, EARLY_WRITE, EARLY_BYTE);
    fill(&rt, &host, LATE_WRITE, LATE_BYTE);
    ask(&rt, &host, EARLY_WRITE);
    ask(&rt, &host, LATE_WRITE);
    let answered = are_answered(&rt, &host, EARLY, 1) && are_answered(&rt, &host, LATE, 1);
    let report = host.close(&rt).ok()?;
    let unit = report.units.get(0)?;
    Some(Crossed {
        missed: seen.missed.load(Ordering::SeqCst),
        prepared: (
            seen.prepared.load(Ordering::SeqCst),
            seen.late_prepared.load(Ordering::SeqCst),
        ),
        answered,
        blocks: [
            byte_of(alloc, unit, 0),
            byte_of(alloc, unit, 1),
            byte_of(alloc, unit, 2),
        ],
    })
}
