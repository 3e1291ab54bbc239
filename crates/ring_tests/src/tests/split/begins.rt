//! Queues that another device served before.

use super::PLACE;
use super::rows::ROW;
use crate::moves::{EVENT_IDX, Move, Row};
use ring_core::{FIRST_INDEX, Layout, RingIndex};

/// The last index, and the one before it.
const LAST: RingIndex = RingIndex {
    index: 65535,
    ..FIRST_INDEX
};

const BEFORE: RingIndex = RingIndex {
    index: 65534,
    ..FIRST_INDEX
};

/// A queue whose next entry on both sides has the last index.
const AT_LAST: Layout = Layout {
    first_available: LAST,
    first_used: LAST,
    ..PLACE
};

pub static BEGINS: [Row; 4] = [
    Row {
        shows: "a device that goes on where the indices run round",
        layout: AT_LAST,
        moves: &[
            Move::Number(4098, 65535),
            Move::Nothing,
            Move::Number(4114, 3),
            Move::Number(4100, 5),
            Move::Number(4098, 1),
            Move::Found(0, 3, 1),
            Move::Found(1, 5, 1),
            Move::Nothing,
            Move::Complete(9, 1),
            Move::Has(8194, &[0, 0, 0, 0]),
            Move::Has(8252, &[5, 0, 0, 0, 9, 0, 0, 0]),
            Move::Complete(7, 0),
            Move::Has(8194, &[1, 0, 3, 0, 0, 0, 7, 0, 0, 0]),
        ],
        ..ROW
    },
    Row {
        shows: "a used index that is behind the available one",
        layout: Layout {
            first_used: BEFORE,
            ..AT_LAST
        },
        moves: &[
            Move::Number(4114, 3),
            Move::Number(4098, 0),
            Move::Found(0, 3, 1),
            Move::Complete(9, 0),
            Move::Has(8194, &[255, 255]),
            Move::Has(8244, &[3, 0, 0, 0, 9, 0, 0, 0]),
        ],
        ..ROW
    },
    Row {
        shows: "a jump of the index by more than the size from where it began",
        layout: AT_LAST,
        moves: &[Move::Number(4098, 8), Move::Fault(1)],
        ..ROW
    },
    Row {
        shows: "a notice of the completion that the last index names",
        layout: AT_LAST,
        features: EVENT_IDX,
        moves: &[
            Move::Number(4116, 65535),
            Move::Notice(false),
            Move::Number(4098, 1),
            Move::Number(4100, 5),
            Move::Found(0, 0, 1),
            Move::Complete(0, 0),
            Move::Notice(true),
            Move::Found(1, 5, 1),
            Move::Complete(0, 1),
            Move::Notice(false),
        ],
        ..ROW
    },
];
