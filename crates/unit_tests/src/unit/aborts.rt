//! Tasks that aborts and resets meet, and what becomes of them.

use crate::acts::{Act, Comes, DATA, Ends, ORDERED, Row, SIMPLE, Sent, WRITE};
use unit_model::Rule;

/// The numbers of the chains.
const A: u64 = 0;

const B: u64 = 1;

const C: u64 = 2;

const D: u64 = 3;

const E: u64 = 4;

/// The WRITE that is aborted.
const ABORTED: Sent = Sent {
    id: 1,
    asked: WRITE,
    ..SIMPLE
};

/// The request that it may wait for.
const OLDER: Sent = Sent { id: 9, ..ORDERED };

/// The attention of a reset: BUS DEVICE RESET FUNCTION OCCURRED.
const WAS_RESET: Ends = Ends::Sense(0x06, 0x29, 0x03);

pub(crate) static ROWS: [Row; 7] = [
    Row {
        shows: "an abort of a parked task",
        keeps_replies: false,
        acts: &[
            Act::Enter(A, OLDER, Comes::Run),
            Act::Enter(B, ABORTED, Comes::Parked),
            Act::Abort(Rule::Id(1), 2, &[B]),
            Act::ClearOf(2, false),
            Act::Commit(B, Ends::Aborted),
            Act::Block(3, 0),
            Act::ClearOf(2, false),
            Act::Leave(B, &[]),
            Act::ClearOf(2, true),
            Act::Commit(A, Ends::Good(0)),
            Act::Leave(A, &[]),
            Act::Block(3, 0),
            Act::Steps(0, 6),
        ],
    },
    Row {
        shows: "an abort of a task that was handed out",
        keeps_replies: false,
        acts: &[
            Act::Enter(A, ABORTED, Comes::Run),
            Act::Abort(Rule::Id(1), 1, &[]),
            Act::ClearOf(1, false),
            Act::Commit(A, Ends::Aborted),
            Act::Block(3, 0),
            Act::ClearOf(1, false),
            Act::Leave(A, &[]),
            Act::ClearOf(1, true),
            Act::Block(3, 0),
            Act::Steps(0, 3),
        ],
    },
    Row {
        shows: "an abort of a task that ran",
        keeps_replies: false,
        acts: &[
            Act::Enter(A, ABORTED, Comes::Run),
            Act::Commit(A, Ends::Good(0)),
            Act::Abort(Rule::Id(1), 2, &[]),
            Act::ClearOf(2, false),
            Act::Commit(A, Ends::Unknown),
            Act::Leave(A, &[]),
            Act::ClearOf(2, true),
            Act::Block(2, 0),
            Act::Block(3, DATA),
            Act::Block(4, 0),
            Act::Steps(0, 4),
        ],
    },
    Row {
        shows: "an abort waits for a task while 1,400 others pass",
        keeps_replies: false,
        acts: &[
            Act::Enter(A, SIMPLE, Comes::Run),
            Act::Commit(A, Ends::Good(0)),
            Act::Abort(Rule::All, 2, &[]),
            Act::Serve(B, 1400),
            Act::Base(105),
            Act::Steps(0, 4203),
            Act::ClearOf(2, false),
            Act::Leave(A, &[]),
            Act::ClearOf(2, true),
            Act::Steps(0, 4204),
        ],
    },
    Row {
        shows: "a reset meets all tasks and is reported once",
        keeps_replies: false,
        acts: &[
            Act::Enter(A, SIMPLE, Comes::Run),
            Act::Enter(B, SIMPLE, Comes::Run),
            Act::Enter(C, ORDERED, Comes::Parked),
            Act::Commit(A, Ends::Good(0)),
            Act::Reset(4, &[C]),
            Act::Commit(A, Ends::Unknown),
            Act::Commit(B, Ends::Reset),
            Act::Commit(C, Ends::Reset),
            Act::Leave(B, &[]),
            Act::Leave(C, &[]),
            Act::ClearOf(4, false),
            Act::Leave(A, &[]),
            Act::ClearOf(4, true),
            Act::Enter(D, SIMPLE, Comes::Run),
            Act::Enter(E, SIMPLE, Comes::Run),
            Act::Commit(D, WAS_RESET),
            Act::Commit(E, Ends::Good(0)),
            Act::Leave(D, &[]),
            Act::Leave(E, &[]),
            Act::Steps(0, 14),
        ],
    },
    Row {
        shows: "two resets are reported once",
        keeps_replies: false,
        acts: &[
            Act::Reset(0, &[]),
            Act::Reset(1, &[]),
            Act::ClearOf(0, true),
            Act::Enter(A, SIMPLE, Comes::Run),
            Act::Commit(A, WAS_RESET),
            Act::Leave(A, &[]),
            Act::Enter(B, SIMPLE, Comes::Run),
            Act::Commit(B, Ends::Good(0)),
            Act::Leave(B, &[]),
            Act::Steps(0, 8),
        ],
    },
    Row {
        shows: "a task is alive until it leaves",
        keeps_replies: false,
        acts: &[
            Act::IsAlive(Rule::All, false),
            Act::IsAlive(Rule::Id(1), false),
            Act::Enter(A, ABORTED, Comes::Run),
            Act::Enter(B, OLDER, Comes::Parked),
            Act::IsAlive(Rule::All, true),
            Act::IsAlive(Rule::Id(1), true),
            Act::IsAlive(Rule::Id(9), true),
            Act::IsAlive(Rule::Id(2), false),
            Act::Commit(A, Ends::Good(0)),
            Act::IsAlive(Rule::Id(1), true),
            Act::Leave(A, &[B]),
            Act::IsAlive(Rule::Id(1), false),
            Act::IsAlive(Rule::Id(9), true),
            Act::Abort(Rule::All, 4, &[]),
            Act::IsAlive(Rule::Id(9), true),
            Act::Leave(B, &[]),
            Act::IsAlive(Rule::Id(9), false),
            Act::IsAlive(Rule::All, false),
            Act::Steps(0, 6),
        ],
    },
];
