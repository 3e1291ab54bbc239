//! Reports of closed hosts with something amiss, and what is said of them.

use crate::runs::{ABSENT, FIRST, SECOND, closed, unit};
use close_audit::examine;
use config::UnitSpec;
use logical_unit::UnitState;
use phases::{Slot, phase_fetch};
use request_intake::Inventory;
use std::alloc::Global;
use std::sync::Wait;
use std::thread::Threads;
use test_guest::Chain;
use workers::{CloseFault, Report};

/// The address of the number of chains that the guest made available on the queue of the refused request.
const AVAILABLE: u64 = 4 * 4096 + 1026;

/// The fault of a report of a host whose queue 2 had a request that ran, and whose queue 4 had one that was refused.
#[derive(Clone, Copy)]
pub enum Amiss {
    /// Nothing is amiss.
    Nothing,
    /// The receipt of the first is lost.
    ReceiptLost,
    /// There is another receipt of the same commit.
    ReceiptTwice,
    /// The units are put back as they were before any request.
    HistoryLost,
    /// The second was made available again, and fetched alone.
    ChainUnused,
    /// The first has a note in place of its receipt.
    NoteOfAnother,
    /// The note of the second is lost, and so is the receipt of the first.
    BothLost,
    /// A unit where the first ran, too, stands in place of the second.
    RunTwice,
    /// The second unit, of which nothing was asked, is gone.
    UnitGone,
    /// Another unit stands in place of the second.
    OtherUnit(Other),
    /// A second control queue stands in place of the event queue.
    OtherQueue,
}

/// The difference of another unit in place of the second.
#[derive(Clone, Copy)]
pub enum Other {
    /// Another target.
    Target,
    /// Another LUN.
    Lun,
    /// Another capacity.
    Capacity,
    /// No replies that it keeps.
    Replies,
}

/// Returns what is asked of another host, of which something is taken.
fn asked_elsewhere(amiss: Amiss) -> Option<Chain> {
    match amiss {
        Amiss::ReceiptTwice => Some(FIRST),
        Amiss::NoteOfAnother => Some(Chain {
            queue: FIRST.queue,
            ..ABSENT
        }),
        Amiss::RunTwice => Some(Chain {
            queue: FIRST.queue,
            ..SECOND
        }),
        _ => None,
    }
}

/// Returns how the unit is wanted that stands in place of the second.
fn spec_of(other: Other) -> UnitSpec {
    let second = unit(1);
    match other {
        Other::Target => UnitSpec {
            target: 1,
            ..second
        },
        Other::Lun => UnitSpec { lun: 2, ..second },
        Other::Capacity => UnitSpec {
            blocks: 9,
            ..second
        },
        Other::Replies => second,
    }
}

/// Makes the unit that stands in place of the second.
fn other_unit(alloc: Global, other: Other) -> Option<UnitState> {
    let keeps_replies = !matches!(other, Other::Replies);
    UnitState::new(alloc, &spec_of(other), &[0, 1], keeps_replies).ok()
}

/// Puts this unit in place of the last one.
fn put_last(units: &mut Vec<UnitState>, unit: UnitState) -> Option<()> {
    units.pop()?;
    units.push(unit).ok()
}

/// Makes the second request available again, and fetches it and no more.
fn fetch_again(report: &mut Report) -> Option<()> {
    report.memory.write(AVAILABLE, &[2]).ok()?;
    let queue = report.queues.get_mut(usize::from(ABSENT.queue))?;
    let inventory = Inventory::new(&[]);
    match phase_fetch(queue, &mut Slot::Empty, &report.memory, &inventory) {
        Ok(true) => Some(()),
        _ => None,
    }
}

/// Changes in a report what is amiss, with what another host left.
fn change(alloc: Global, amiss: Amiss, report: &mut Report, mut other: Report) -> Option<()> {
    match amiss {
        Amiss::Nothing => {}
        Amiss::ReceiptLost => report.receipts.clear(),
        Amiss::ReceiptTwice => report.receipts.push(other.receipts.pop()?).ok()?,
        Amiss::HistoryLost => report.units = other.units,
        Amiss::ChainUnused => fetch_again(report)?,
        Amiss::NoteOfAnother => {
            report.receipts.clear();
            report.notes.push(other.notes.pop()?).ok()?;
        }
        Amiss::BothLost => {
            report.receipts.clear();
            report.notes.clear();
        }
        Amiss::RunTwice => put_last(&mut report.units, other.units.pop()?)?,
        Amiss::UnitGone => {
            report.units.pop()?;
        }
        Amiss::OtherUnit(unlike) => put_last(&mut report.units, other_unit(alloc, unlike)?)?,
        Amiss::OtherQueue => *report.queues.get_mut(1)? = other.queues.into_iter().next()?,
    }
    Some(())
}

/// Returns what is said of a report with this amiss; `None` where memory was refused.
pub(crate) fn fault_of<R: Threads + Wait + Copy + Send + 'static>(
    rt: R,
    alloc: Global,
    amiss: Amiss,
) -> Option<Option<CloseFault>> {
    let mut report = closed(rt, alloc, 1, &[FIRST, ABSENT])?.ok()?;
    let other = match asked_elsewhere(amiss) {
        Some(asked) => closed(rt, alloc, 1, &[asked])?,
        None => closed(rt, alloc, 1, &[])?,
    };
    change(alloc, amiss, &mut report, other.ok()?)?;
    if report.queues.len() > 65536 {
        return None;
    }
    match examine(alloc, &[unit(0), unit(1)], report) {
        Ok(_) => Some(None),
        Err(CloseFault::NoMemory) => None,
        Err(fault) => Some(Some(fault)),
    }
}
