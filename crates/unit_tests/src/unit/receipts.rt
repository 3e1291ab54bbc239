//! Receipts that a unit confirms, and those that it doesn't.

use crate::acts::{Act, Asked, Comes, DATA, Ends, OTHER, READ, Row, SIMPLE, Sent, WRITE};

/// The numbers of the chains.
const A: u64 = 0;

const B: u64 = 1;

/// A chain of the other queue with the first ticket.
const OTHER_A: u64 = OTHER;

const OTHER_B: u64 = OTHER + 1;

/// A request to unit 0:1, over the other queue.
const TO_SECOND: Sent = Sent {
    unit: 1,
    to_other: true,
    ..SIMPLE
};

/// A request to the unit that has the address of the first, and POWER ON, RESET, OR BUS DEVICE RESET OCCURRED pending.
const TO_TWIN: Sent = Sent {
    unit: 2,
    ..TO_SECOND
};

const WRITES: Sent = Sent {
    asked: WRITE,
    ..SIMPLE
};

const READS: Sent = Sent {
    asked: READ,
    ..SIMPLE
};

/// READ (10) of 8 blocks, whose data are as long as what is kept (SBC-3 §5.11).
const READS_8: Sent = Sent {
    asked: Asked {
        cdb: [0x28, 0, 0, 0, 0, 3, 0, 0, 8, 0],
        out: 0,
        into: 4096,
    },
    ..SIMPLE
};

/// READ (10) of 9 blocks.
const READS_9: Sent = Sent {
    asked: Asked {
        cdb: [0x28, 0, 0, 0, 0, 3, 0, 0, 9, 0],
        out: 0,
        into: 4608,
    },
    ..SIMPLE
};

pub(crate) static ROWS: [Row; 9] = [
    Row {
        shows: "a receipt is of its address",
        keeps_replies: false,
        acts: &[
            Act::Enter(A, SIMPLE, Comes::Run),
            Act::CommitAt(0, A, Ends::Good(0)),
            Act::Enter(OTHER_A, TO_SECOND, Comes::Run),
            Act::CommitAt(1, OTHER_A, Ends::Good(0)),
            Act::Confirms(0, 0, true),
            Act::Confirms(1, 0, false),
            Act::Confirms(0, 1, false),
            Act::Confirms(1, 1, true),
        ],
    },
    Row {
        shows: "a receipt is of its place and its ticket",
        keeps_replies: true,
        acts: &[
            Act::Enter(A, SIMPLE, Comes::Run),
            Act::Enter(B, SIMPLE, Comes::Run),
            Act::CommitAt(0, A, Ends::Good(0)),
            Act::Enter(OTHER_A, TO_TWIN, Comes::Run),
            Act::CommitAt(2, OTHER_A, Ends::Sense(0x06, 0x29, 0x00)),
            Act::Confirms(0, 0, true),
            Act::Confirms(2, 0, false),
            Act::Confirms(2, 1, true),
            Act::Confirms(0, 1, false),
            Act::TakeReply(1),
            Act::Confirms(0, 1, false),
            Act::Confirms(2, 1, true),
        ],
    },
    Row {
        shows: "replies that are kept",
        keeps_replies: true,
        acts: &[
            Act::Enter(A, WRITES, Comes::Run),
            Act::CommitAt(0, A, Ends::Good(0)),
            Act::Enter(B, READS, Comes::Run),
            Act::CommitAt(0, B, Ends::Good(512)),
            Act::Data(1, DATA),
            Act::Confirms(0, 1, true),
            Act::TakeReply(1),
            Act::Confirms(0, 1, true),
            Act::Confirms(0, 0, true),
        ],
    },
    Row {
        shows: "replies that aren't kept",
        keeps_replies: false,
        acts: &[
            Act::Enter(A, READS, Comes::Run),
            Act::CommitAt(0, A, Ends::Good(512)),
            Act::Data(0, 0),
            Act::Confirms(0, 0, true),
            Act::TakeReply(0),
            Act::Confirms(0, 0, true),
        ],
    },
    Row {
        shows: "another reply is confirmed only where none is kept, or none is given",
        keeps_replies: true,
        acts: &[
            Act::Enter(A, SIMPLE, Comes::Run),
            Act::CommitAt(0, A, Ends::Good(0)),
            Act::Enter(OTHER_A, TO_TWIN, Comes::Run),
            Act::CommitAt(2, OTHER_A, Ends::Sense(0x06, 0x29, 0x00)),
            Act::Confirms(0, 0, true),
            Act::Confirms(0, 1, false),
            Act::TakeReply(1),
            Act::Confirms(0, 1, true),
        ],
    },
    Row {
        shows: "another reply is confirmed once 256 steps followed",
        keeps_replies: true,
        acts: &[
            Act::Enter(A, SIMPLE, Comes::Run),
            Act::CommitAt(0, A, Ends::Good(0)),
            Act::Enter(OTHER_A, TO_TWIN, Comes::Run),
            Act::CommitAt(2, OTHER_A, Ends::Sense(0x06, 0x29, 0x00)),
            Act::Aborts(255),
            Act::Confirms(0, 0, true),
            Act::Confirms(0, 1, false),
            Act::Aborts(1),
            Act::Steps(0, 258),
            Act::Confirms(0, 0, true),
            Act::Confirms(0, 1, true),
        ],
    },
    Row {
        shows: "the Commits of folded steps",
        keeps_replies: true,
        acts: &[
            Act::Enter(A, SIMPLE, Comes::Run),
            Act::CommitAt(0, A, Ends::Good(0)),
            Act::Leave(A, &[]),
            Act::Enter(OTHER_A, TO_SECOND, Comes::Run),
            Act::CommitAt(1, OTHER_A, Ends::Good(0)),
            Act::Leave(OTHER_A, &[]),
            Act::Enter(OTHER_B, TO_TWIN, Comes::Run),
            Act::CommitAt(2, OTHER_B, Ends::Sense(0x06, 0x29, 0x00)),
            Act::Leave(OTHER_B, &[]),
            Act::Serve(B, 1400),
            Act::Base(105),
            Act::Confirms(0, 0, true),
            Act::Confirms(0, 1, false),
            Act::Confirms(0, 2, false),
            Act::Confirms(1, 0, false),
            Act::Confirms(0, 3, true),
            Act::Confirms(1, 3, false),
            Act::Confirms(0, 1402, true),
        ],
    },
    Row {
        shows: "another reply isn't confirmed where the one that is kept is as long as may be",
        keeps_replies: true,
        acts: &[
            Act::Enter(A, READS_8, Comes::Run),
            Act::CommitAt(0, A, Ends::Good(4096)),
            Act::Enter(OTHER_A, TO_TWIN, Comes::Run),
            Act::CommitAt(2, OTHER_A, Ends::Sense(0x06, 0x29, 0x00)),
            Act::Confirms(0, 0, true),
            Act::Confirms(0, 1, false),
        ],
    },
    Row {
        shows: "another reply is confirmed where the Commit's was too long to be kept",
        keeps_replies: true,
        acts: &[
            Act::Enter(A, READS_9, Comes::Run),
            Act::CommitAt(0, A, Ends::Good(4608)),
            Act::Enter(OTHER_A, TO_TWIN, Comes::Run),
            Act::CommitAt(2, OTHER_A, Ends::Sense(0x06, 0x29, 0x00)),
            Act::Confirms(0, 0, true),
            Act::Confirms(0, 1, true),
        ],
    },
];
