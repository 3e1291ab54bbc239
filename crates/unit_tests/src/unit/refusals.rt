//! Calls that are refused, and change nothing.

use crate::acts::{Act, Comes, Ends, HEAD, OTHER, READ, Row, SIMPLE, Sent};
use unit_model::Rule;

/// The numbers of the chains.
const A: u64 = 0;

const B: u64 = 1;

const C: u64 = 2;

/// Chains of the other queue with the same tickets.
const OTHER_A: u64 = OTHER;

const OTHER_B: u64 = OTHER + 1;

const OTHER_C: u64 = OTHER + 2;

/// As SIMPLE, but to the other queue.
const BESIDE: Sent = Sent {
    to_other: true,
    ..SIMPLE
};

/// As that, with another command.
const OTHER_COMMAND: Sent = Sent {
    asked: READ,
    ..BESIDE
};

/// As that, with another identifier.
const OTHER_ID: Sent = Sent { id: 6, ..BESIDE };

/// As that, with another attribute.
const OTHER_ATTRIBUTE: Sent = Sent {
    to_other: true,
    ..HEAD
};

/// A request to unit 0:1, over the other queue.
const TO_SECOND: Sent = Sent { unit: 1, ..BESIDE };

pub(crate) static ROWS: [Row; 4] = [
    Row {
        shows: "a task that can't leave",
        keeps_replies: false,
        acts: &[
            Act::Enter(A, SIMPLE, Comes::Run),
            Act::Enter(B, SIMPLE, Comes::Run),
            Act::Enter(OTHER_A, BESIDE, Comes::Stale),
            Act::Enter(OTHER_B, BESIDE, Comes::Stale),
            Act::LeaveUnknown(OTHER_A),
            Act::Commit(A, Ends::Good(0)),
            Act::Leave(A, &[]),
            Act::Commit(B, Ends::Good(0)),
            Act::Leave(B, &[]),
            Act::LeaveUnknown(OTHER_B),
            Act::Steps(0, 6),
        ],
    },
    Row {
        shows: "a job that can't run",
        keeps_replies: false,
        acts: &[
            Act::Enter(A, SIMPLE, Comes::Run),
            Act::Enter(B, SIMPLE, Comes::Run),
            Act::Enter(C, SIMPLE, Comes::Run),
            Act::Enter(OTHER_A, OTHER_COMMAND, Comes::Stale),
            Act::Enter(OTHER_B, OTHER_ID, Comes::Stale),
            Act::Enter(OTHER_C, OTHER_ATTRIBUTE, Comes::Stale),
            Act::Commit(OTHER_A, Ends::Unknown),
            Act::Commit(OTHER_B, Ends::Unknown),
            Act::Commit(OTHER_C, Ends::Unknown),
            Act::CommitAt(1, A, Ends::Unknown),
            Act::Commit(A, Ends::Good(0)),
            Act::Commit(A, Ends::Unknown),
            Act::Abort(Rule::Id(5), 4, &[]),
            Act::Commit(OTHER_B, Ends::Unknown),
            Act::Commit(B, Ends::Aborted),
            Act::Leave(B, &[]),
            Act::Commit(OTHER_B, Ends::Unknown),
            Act::Steps(0, 6),
        ],
    },
    Row {
        shows: "a ticket that isn't above the last",
        keeps_replies: false,
        acts: &[
            Act::Enter(A, SIMPLE, Comes::Run),
            Act::Commit(A, Ends::Good(0)),
            Act::Leave(A, &[]),
            Act::Enter(OTHER_A, BESIDE, Comes::Stale),
            Act::Enter(OTHER_B, BESIDE, Comes::Run),
            Act::Enter(B, SIMPLE, Comes::Stale),
            Act::Enter(C, SIMPLE, Comes::Run),
            Act::Steps(0, 5),
        ],
    },
    Row {
        shows: "a request for another unit",
        keeps_replies: false,
        acts: &[
            Act::EnterAt(1, A, SIMPLE, Comes::Stale),
            Act::EnterAt(0, OTHER_A, TO_SECOND, Comes::Stale),
            Act::EnterAt(2, OTHER_B, TO_SECOND, Comes::Stale),
            Act::Steps(0, 0),
            Act::Steps(1, 0),
            Act::Steps(2, 0),
            Act::Enter(B, SIMPLE, Comes::Run),
            Act::Enter(OTHER_C, TO_SECOND, Comes::Run),
            Act::Steps(0, 1),
            Act::Steps(1, 1),
        ],
    },
];
