//! When tasks run beside others.

use crate::acts::{Act, Comes, Ends, HEAD, ORDERED, Row, SIMPLE, Told};

/// The numbers of the chains.
const A: u64 = 0;

const B: u64 = 1;

const C: u64 = 2;

/// The chains of a full task set, one of which is refused, and then one more.
const REFUSED: u64 = 64;

const NEXT: u64 = 65;

const ONE_MORE: u64 = 66;

pub(crate) static ROWS: [Row; 5] = [
    Row {
        shows: "ordered between simples",
        keeps_replies: false,
        acts: &[
            Act::Enter(A, SIMPLE, Comes::Run),
            Act::Enter(B, ORDERED, Comes::Parked),
            Act::Enter(C, SIMPLE, Comes::Parked),
            Act::Commit(A, Ends::Good(0)),
            Act::Leave(A, &[B]),
            Act::Commit(B, Ends::Good(0)),
            Act::Leave(B, &[C]),
            Act::Commit(C, Ends::Good(0)),
            Act::Leave(C, &[]),
            Act::History(&[
                Told::Entered(A),
                Told::Entered(B),
                Told::Entered(C),
                Told::Committed(A),
                Told::Left(A),
                Told::Committed(B),
                Told::Left(B),
                Told::Committed(C),
                Told::Left(C),
            ]),
        ],
    },
    Row {
        shows: "head of queue beside an older task, which commits first",
        keeps_replies: false,
        acts: &[
            Act::Enter(A, SIMPLE, Comes::Run),
            Act::Enter(B, HEAD, Comes::Run),
            Act::Enter(C, SIMPLE, Comes::Parked),
            Act::Commit(A, Ends::Good(0)),
            Act::Commit(B, Ends::Good(0)),
            Act::Leave(A, &[]),
            Act::Leave(B, &[C]),
            Act::Commit(C, Ends::Good(0)),
            Act::Leave(C, &[]),
            Act::History(&[
                Told::Entered(A),
                Told::Entered(B),
                Told::Entered(C),
                Told::Committed(A),
                Told::Committed(B),
                Told::Left(A),
                Told::Left(B),
                Told::Committed(C),
                Told::Left(C),
            ]),
        ],
    },
    Row {
        shows: "head of queue beside an older task, which commits last",
        keeps_replies: false,
        acts: &[
            Act::Enter(A, SIMPLE, Comes::Run),
            Act::Enter(B, HEAD, Comes::Run),
            Act::Enter(C, SIMPLE, Comes::Parked),
            Act::Commit(B, Ends::Good(0)),
            Act::Commit(A, Ends::Good(0)),
            Act::Leave(A, &[]),
            Act::Leave(B, &[C]),
            Act::Commit(C, Ends::Good(0)),
            Act::Leave(C, &[]),
            Act::History(&[
                Told::Entered(A),
                Told::Entered(B),
                Told::Entered(C),
                Told::Committed(B),
                Told::Committed(A),
                Told::Left(A),
                Told::Left(B),
                Told::Committed(C),
                Told::Left(C),
            ]),
        ],
    },
    Row {
        shows: "ordered behind two tasks that ran and haven't left",
        keeps_replies: false,
        acts: &[
            Act::Enter(A, SIMPLE, Comes::Run),
            Act::Enter(B, SIMPLE, Comes::Run),
            Act::Commit(A, Ends::Good(0)),
            Act::Commit(B, Ends::Good(0)),
            Act::Enter(C, ORDERED, Comes::Parked),
            Act::Leave(A, &[]),
            Act::Leave(B, &[C]),
            Act::Commit(C, Ends::Good(0)),
            Act::Leave(C, &[]),
            Act::Steps(0, 9),
        ],
    },
    Row {
        shows: "a full task set",
        keeps_replies: false,
        acts: &[
            Act::Fill(A, 64),
            Act::Enter(REFUSED, HEAD, Comes::Full),
            Act::Commit(REFUSED, Ends::Unknown),
            Act::LeaveUnknown(REFUSED),
            Act::Commit(B, Ends::Good(0)),
            Act::Leave(B, &[]),
            Act::Enter(NEXT, SIMPLE, Comes::Run),
            Act::Enter(ONE_MORE, SIMPLE, Comes::Full),
            Act::Steps(0, 69),
        ],
    },
];
