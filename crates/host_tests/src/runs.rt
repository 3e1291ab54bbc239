//! Hosts from start to close.

ghost use Rattle.workers.specs.Ledgers.{Opens};
ghost use Rattle.std.specs.Prelude.{◌≡◌};

use crate::guest::{PAGES, are_answered, ask, layouts};
use config::{Identity, Profile, UnitSpec, VERSION_1};
use std::alloc::Global;
use std::marker::Brand;
use std::sync::Wait;
use std::sync::ledger::{Blank, Ledger};
use std::thread::Threads;
use test_guest::Chain;
use workers::{CloseFault, Config, Gate, Host, Open, Report, StartFault, Weighing};

/// The numbers of receipts and notes that a closed host left.
#[derive(Clone, Copy, PartialEq, Eq)]
pub struct Left {
    /// The receipts.
    pub receipts: usize,
    /// The notes.
    pub notes: usize,
}

/// TEST UNIT READY for each of two units, and for a target that isn't there, each on a queue of its own.
pub(crate) const FIRST: Chain = Chain {
    queue: 2,
    number: 0,
    bytes: &[1],
    readable: 51,
    writable: 108,
};

pub(crate) const SECOND: Chain = Chain {
    queue: 3,
    bytes: &[1, 0, 0, 1],
    ..FIRST
};

pub(crate) const ABSENT: Chain = Chain {
    queue: 4,
    bytes: &[1, 7],
    ..FIRST
};

/// Returns the unit of a LUN.
pub(crate) fn unit(lun: u16) -> UnitSpec {
    UnitSpec {
        target: 0,
        lun,
        blocks: 8,
        calm: true,
        profile: Profile::Narrow,
        identity: Identity::PLAIN,
    }
}

/// Returns the configuration of a small device, whose hand-off takes so many jobs; `None` where memory was refused.
fn config(alloc: Global, handoff: u16) -> Option<Config> {
    let mut units = Vec::new(alloc);
    units.push(unit(0)).ok()?;
    units.push(unit(1)).ok()?;
    Some(Config {
        pages: PAGES,
        features: VERSION_1,
        queues: layouts(alloc)?,
        workers: 1,
        handoff,
        units,
    })
}

/// Returns what a closed host left, where it adds up.
pub(crate) fn summed(closed: Result<Report, CloseFault>) -> Option<Left> {
    match closed {
        Ok(report) => Some(Left {
            receipts: report.receipts.len(),
            notes: report.notes.len(),
        }),
        Err(_) => None,
    }
}

/// Returns true if a host of so many workers is refused as a bad configuration; `None` where memory was refused.
pub(crate) fn is_refused<R: Threads + Wait + Copy + Send + 'static>(
    rt: R,
    alloc: Global,
    workers: u16,
) -> Option<bool> {
    is_refused_with::<Brand, Brand, R>(rt, alloc, workers, Blank::new(64), Blank::new(73))
}

/// Does what [`is_refused`] does, with these ledgers.
fn is_refused_with<C, D, R>(
    rt: R,
    alloc: Global,
    workers: u16,
    acts: Blank,
    receipts: Blank,
) -> Option<bool>
where
    C: Ledger + Weighing + Send + Sync + 'static,
    D: Ledger + Send + Sync + 'static,
    R: Threads + Wait + Copy + Send + 'static,
    requires acts { Opens acts.name acts.parts C.name C.parts 64 }
    requires receipts { Opens receipts.name receipts.parts D.name D.parts 73 }
{
    let config = config(alloc, 1)?;
    let started: Result<Host<Open, C, D>, StartFault> = Host::start(
        rt, alloc, config, Open, workers, acts, receipts,
    );
    match started {
        Err(StartFault::BadConfig) => Some(true),
        Err(StartFault::NoMemory) => None,
        Ok(host) => {
            let _ = host.close(&rt);
            Some(false)
        }
    }
}

/// Starts a host of so many workers, with a hand-off of so many jobs, a gate and ledgers.
pub(crate) fn start<R, G, C, D>(
    rt: R,
    alloc: Global,
    gate: G,
    workers: u16,
    handoff: u16,
    acts: Blank,
    receipts: Blank,
) -> Option<Host<G, C, D>>
where
    R: Threads + Wait + Copy + Send + 'static,
    G: Gate + Drop + Send + Sync + 'static,
    C: Ledger + Weighing + Send + Sync + 'static,
    D: Ledger + Send + Sync + 'static,
    requires acts { Opens acts.name acts.parts C.name C.parts 64 }
    requires receipts { Opens receipts.name receipts.parts D.name D.parts 73 }
{
    let config = config(alloc, handoff)?;
    Host::start(rt, alloc, config, gate, workers, acts, receipts).ok()
}

/// Returns what a host of so many workers leaves when nothing was asked of it.
pub(crate) fn serve_nothing<R: Threads + Wait + Copy + Send + 'static>(
    rt: R,
    alloc: Global,
    workers: u16,
) -> Option<Left> {
    summed(closed(rt, alloc, workers, &[])?)
}

/// Asks for these, and closes the host, which has so many workers; `None` where memory was refused before.
pub(crate) fn closed<R: Threads + Wait + Copy + Send + 'static>(
    rt: R,
    alloc: Global,
    workers: u16,
    asked: &[Chain],
) -> Option<Result<Report, CloseFault>> {
    closed_with::<Brand, Brand, R>(rt, alloc, workers, asked, Blank::new(64), Blank::new(73))
}

/// Does what [`closed`] does, with these ledgers.
fn closed_with<C, D, R>(
    rt: R,
    alloc: Global,
    workers: u16,
    asked: &[Chain],
    acts: Blank,
    receipts: Blank,
) -> Option<Result<Report, CloseFault>>
where
    C: Ledger + Weighing + Send + Sync + 'static,
    D: Ledger + Send + Sync + 'static,
    R: Threads + Wait + Copy + Send + 'static,
    requires acts { Opens acts.name acts.parts C.name C.parts 64 }
    requires receipts { Opens receipts.name receipts.parts D.name D.parts 73 }
{
    let host: Host<Open, C, D> = start(rt, alloc, Open, workers, 1, acts, receipts)?;
    for each in asked {
        ask(&rt, &host, *each);
    }
    Some(host.close(&rt))
}

/// Returns true if the guest saw an answer to each request, and what a host of so many workers left.
pub(crate) fn serve<R: Threads + Wait + Copy + Send + 'static>(
    rt: R,
    alloc: Global,
    workers: u16,
) -> Option<(bool, Option<Left>)> {
    serve_with::<Brand, Brand, R>(rt, alloc, workers, Blank::new(64), Blank::new(73))
}

/// Does what [`serve`] does, with these ledgers.
fn serve_with<C, D, R>(
    rt: R,
    alloc: Global,
    workers: u16,
    acts: Blank,
    receipts: Blank,
) -> Option<(bool, Option<Left>)>
where
    C: Ledger + Weighing + Send + Sync + 'static,
    D: Ledger + Send + Sync + 'static,
    R: Threads + Wait + Copy + Send + 'static,
    requires acts { Opens acts.name acts.parts C.name C.parts 64 }
    requires receipts { Opens receipts.name receipts.parts D.name D.parts 73 }
{
    let host: Host<Open, C, D> = start(rt, alloc, Open, workers, 1, acts, receipts)?;
    ask(&rt, &host, FIRST);
    ask(&rt, &host, SECOND);
    ask(&rt, &host, ABSENT);
    let first = are_answered(&rt, &host, FIRST.queue, 1);
    let second = are_answered(&rt, &host, SECOND.queue, 1);
    let absent = are_answered(&rt, &host, ABSENT.queue, 1);
    Some((first && second && absent, summed(host.close(&rt))))
}
