//! What is said of reports of closed hosts with something amiss.

use crate::amiss::{Amiss, Other, fault_of};
use ring_core::Ticket;
use std::alloc::Global;
use std::sync::Wait;
use std::test::Fail;
use std::thread::Threads;
use workers::CloseFault;

/// The first request, and the second where it was fetched again.
const FIRST: Ticket = Ticket {
    queue: 2,
    number: 0,
};

const SECOND: Ticket = Ticket {
    queue: 4,
    number: 1,
};

/// The first ticket of all, which tells that the units aren't those that were wanted.
const OTHER_UNITS: Ticket = Ticket {
    queue: 0,
    number: 0,
};

/// The first ticket of the event queue.
const EVENT: Ticket = Ticket {
    queue: 1,
    number: 0,
};

/// The faults of reports, and what is said of each.
static ROWS: [(Amiss, Option<CloseFault>); 14] = [
    (Amiss::Nothing, None),
    (Amiss::ReceiptLost, Some(CloseFault::Outstanding(FIRST))),
    (Amiss::ReceiptTwice, Some(CloseFault::Outstanding(FIRST))),
    (Amiss::HistoryLost, Some(CloseFault::Unconfirmed(FIRST))),
    (Amiss::ChainUnused, Some(CloseFault::Outstanding(SECOND))),
    (Amiss::NoteOfAnother, Some(CloseFault::Outstanding(FIRST))),
    (Amiss::BothLost, Some(CloseFault::Outstanding(FIRST))),
    (Amiss::RunTwice, Some(CloseFault::Outstanding(FIRST))),
    (Amiss::UnitGone, Some(CloseFault::Outstanding(OTHER_UNITS))),
    (
        Amiss::OtherUnit(Other::Target),
        Some(CloseFault::Outstanding(OTHER_UNITS)),
    ),
    (
        Amiss::OtherUnit(Other::Lun),
        Some(CloseFault::Outstanding(OTHER_UNITS)),
    ),
    (
        Amiss::OtherUnit(Other::Capacity),
        Some(CloseFault::Outstanding(OTHER_UNITS)),
    ),
    (
        Amiss::OtherUnit(Other::Replies),
        Some(CloseFault::Outstanding(OTHER_UNITS)),
    ),
    (Amiss::OtherQueue, Some(CloseFault::Outstanding(EVENT))),
];

/// Returns the number of the first row of which something else is said, from 0.
fn first_wrong<R: Threads + Wait + Copy + Send + 'static>(rt: R, alloc: Global) -> Option<usize> {
    for number in 0..ROWS.len() {
        let (amiss, fault) = ROWS[number];
        if fault_of(rt, alloc, amiss) != Some(fault) {
            return Some(number);
        }
    }
    None
}

#[test]
fn reports_are_given_where_they_add_up(rt: HostRuntime) {
    assert_eq!(rt; first_wrong(rt, rt.alloc()), None);
}

/// Faults, and what they are called.
static CALLED: [(CloseFault, &str); 3] = [
    (CloseFault::NoMemory, "no memory"),
    (CloseFault::Unconfirmed(FIRST), "unconfirmed 2/0"),
    (CloseFault::Outstanding(SECOND), "outstanding 4/1"),
];

#[test]
fn faults_are_told(rt: HostRuntime) -> Result<(), Fail> {
    for (fault, text) in &CALLED {
        assert_eq!(rt; format!(in rt.alloc(); "{fault}")?.as_str(), *text);
    }
    Ok(())
}
