//! Workers that serve at once.

ghost use Rattle.workers.specs.Ledgers.{Opens};

use crate::guest::{are_answered, ask, fill};
use crate::meeting::{LONG, Meeting, SHORT, Seen};
use crate::runs::{FIRST, Left, start};
use logical_unit::{StepKind, UnitState};
use std::alloc::Global;
use std::marker::Brand;
use std::sync::ledger::{Blank, Ledger};
use std::sync::{Arc, Wait};
use std::thread::Threads;
use test_guest::Chain;
use workers::{Host, Point, Report, Weighing};

/// The byte of which the block is that is written.
const WRITTEN: u8 = 0xab;

/// The block that is written.
const BLOCK: u64 = 3;

/// WRITE (10) of block 3 of LUN 0.
const WRITE: Chain = Chain {
    bytes: &[
        1, 0, 0, 0, 0, 0, 0, 0, 0, 0, 0, 0, 0, 0, 0, 0, 0, 0, 0, 0x2a, 0, 0, 0, 0, 3, 0, 0, 1,
    ],
    readable: 563,
    ..FIRST
};

/// READ (10) of block 5 of LUN 0.
const READ: Chain = Chain {
    bytes: &[
        1, 0, 0, 0, 0, 0, 0, 0, 0, 0, 0, 0, 0, 0, 0, 0, 0, 0, 0, 0x28, 0, 0, 0, 0, 5, 0, 0, 1,
    ],
    writable: 620,
    ..FIRST
};

/// The same of LUN 1.
const OTHER_READ: Chain = Chain {
    bytes: &[
        1, 0, 0, 1, 0, 0, 0, 0, 0, 0, 0, 0, 0, 0, 0, 0, 0, 0, 0, 0x28, 0, 0, 0, 0, 5, 0, 0, 1,
    ],
    ..READ
};

/// Three requests on a queue, and two on another, for two units.
const FIVE: [Chain; 5] = [
    WRITE,
    Chain { number: 1, ..READ },
    Chain {
        number: 2,
        ..OTHER_READ
    },
    Chain { queue: 3, ..READ },
    Chain {
        queue: 3,
        number: 1,
        ..OTHER_READ
    },
];

/// A request for each unit, each on a queue of its own.
const TWO: [Chain; 2] = [
    READ,
    Chain {
        queue: 3,
        ..OTHER_READ
    },
];

/// Two requests for one unit, each on a queue of its own.
const ONE: [Chain; 2] = [READ, Chain { queue: 3, ..READ }];

/// The outcome of two workers that served at once.
#[derive(Clone, Copy, PartialEq, Eq)]
pub struct Together {
    /// The times that the first request of a queue went on from a point to which that of the other hadn't come. `None`
    /// where not both came to each point.
    pub missed: Option<u64>,
    /// True if the guest saw that all were answered.
    pub answered: bool,
    /// The receipts and notes that the closed host left.
    pub left: Left,
    /// The number of commands that ran on each unit, by their histories.
    pub commits: (u64, u64),
    /// True if the block that was to be written on the first unit has the WRITE's bytes.
    pub written: bool,
}

/// Returns how many commands ran on a unit, by its history.
fn commits(unit: &UnitState) -> u64 {
    let mut count: u64 = 0;
    for place in 0..unit.steps() {
        if let Some(StepKind::Commit(_)) = unit.step(place) {
            count = count.wrapping_add(1);
        }
    }
    count
}

/// Returns true if the block that was to be written has the WRITE's bytes; `None` where memory was refused.
fn is_written(alloc: Global, unit: &UnitState) -> Option<bool> {
    if unit.capacity() <= BLOCK {
        return None;
    }
    let mut bytes = Vec::new(alloc);
    unit.read_blocks(BLOCK, 1, &mut bytes).ok()?;
    Some(bytes.as_slice() == [WRITTEN; 512].as_slice())
}

/// Returns how a closed host served.
fn told(alloc: Global, report: &Report, missed: Option<u64>, answered: bool) -> Option<Together> {
    let (Some(first), Some(second)) = (report.units.get(0), report.units.get(1)) else {
        return None;
    };
    Some(Together {
        missed,
        answered,
        left: Left {
            receipts: report.receipts.len(),
            notes: report.notes.len(),
        },
        commits: (commits(first), commits(second)),
        written: is_written(alloc, first)?,
    })
}

/// Asks for all, as the guest, and returns true if so many of two queues are answered. The WRITE, if it is asked for, has
/// its data.
fn ask_all<R: Wait, C: Ledger + Weighing, D: Ledger>(
    rt: &R,
    host: &Host<Meeting, C, D>,
    all: &[Chain],
    counts: (u8, u8),
) -> bool {
    fill(rt, host, WRITE, WRITTEN);
    for chain in all {
        ask(rt, host, *chain);
    }
    are_answered(rt, host, 2, counts.0) && are_answered(rt, host, 3, counts.1)
}

/// Serves what a guest asks for on two queues, so many on each, by so many workers. The first requests of both are held
/// up at these points, where a unit's lock is held for so many turns at most. `None` where memory was refused, or the
/// closed host doesn't add up.
fn serve_all<R: Threads + Wait + Copy + Send + 'static>(
    rt: R,
    alloc: Global,
    workers: u16,
    all: &[Chain],
    counts: (u8, u8),
    points: &'static [Point],
    turns: u32,
) -> Option<Together> {
    serve_all_with::<Brand, Brand, R>(
        rt,
        alloc,
        workers,
        all,
        counts,
        points,
        turns,
        Blank::new(64),
        Blank::new(73),
    )
}

/// Does what [`serve_all`] does, with these ledgers.
fn serve_all_with<C, D, R>(
    rt: R,
    alloc: Global,
    workers: u16,
    all: &[Chain],
    counts: (u8, u8),
    points: &'static [Point],
    turns: u32,
    acts: Blank,
    receipts: Blank,
) -> Option<Together>
where
    C: Ledger + Weighing + Send + Sync + 'static,
    D: Ledger + Send + Sync + 'static,
    R: Threads + Wait + Copy + Send + 'static,
    requires acts { Opens acts.name acts.parts C.name C.parts 64 }
    requires receipts { Opens receipts.name receipts.parts D.name D.parts 73 }
{
    let seen = Arc::new(alloc, Seen::new()).ok()?;
    let gate = Meeting {
        seen: Arc::try_clone(&seen).ok()?,
        points,
        turns,
    };
    let host: Host<Meeting, C, D> = start(rt, alloc, gate, workers, 8, acts, receipts)?;
    let answered = ask_all(&rt, &host, all, counts);
    match host.close(&rt) {
        Ok(report) => told(alloc, &report, seen.missed(points), answered),
        Err(_) => None,
    }
}

/// Serves five requests for two units by so many workers, 2 to 8. Each of the first two is held up once it entered,
/// once it was taken, and once it ran, until the other has come there.
pub(crate) fn serve_together<R: Threads + Wait + Copy + Send + 'static>(
    rt: R,
    alloc: Global,
    workers: u16,
) -> Option<Together> {
    let points = &[Point::Entered, Point::Taken, Point::Committed];
    serve_all(rt, alloc, workers, &FIVE, (3, 2), points, LONG)
}

/// Serves a request for each of two units by so many workers, 2 to 8. Each is held up once it entered, and with its
/// unit's lock held, until the other has come there.
pub(crate) fn meet<R: Threads + Wait + Copy + Send + 'static>(
    rt: R,
    alloc: Global,
    workers: u16,
) -> Option<Together> {
    let points = &[Point::Entered, Point::Locked];
    serve_all(rt, alloc, workers, &TWO, (1, 1), points, LONG)
}

/// Serves two requests for one unit by so many workers, 2 to 8. Where one has the unit's lock the other can't come, so
/// that it goes on alone.
pub(crate) fn contend<R: Threads + Wait + Copy + Send + 'static>(
    rt: R,
    alloc: Global,
    workers: u16,
) -> Option<Together> {
    let points = &[Point::Entered, Point::Locked];
    serve_all(rt, alloc, workers, &ONE, (1, 1), points, SHORT)
}
