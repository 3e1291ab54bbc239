//! Queues that another device served before.

use super::rows::ROW;
use super::{AVAILABLE, AVAILABLE_AT_0, PLACE};
use crate::moves::{Move, NEXT, Row};
use ring_core::{FIRST_INDEX, Layout, RingIndex};

/// The last slot of a round with wrap counter 1.
const LAST: RingIndex = RingIndex {
    index: 6,
    ..FIRST_INDEX
};

/// The slots of a number in a round with wrap counter 0.
const FIRST_AT_0: RingIndex = RingIndex {
    index: 0,
    wrap: false,
};

const THIRD_AT_0: RingIndex = RingIndex {
    index: 2,
    wrap: false,
};

pub static BEGINS: [Row; 3] = [
    Row {
        shows: "a chain over the end of the round in which the device begins",
        layout: Layout {
            first_available: LAST,
            first_used: LAST,
            ..PLACE
        },
        moves: &[
            Move::Descriptor(6, 0, 0, 1, NEXT + AVAILABLE),
            Move::Descriptor(0, 0, 0, 2, AVAILABLE_AT_0),
            Move::Descriptor(1, 0, 0, 3, AVAILABLE_AT_0),
            Move::Found(0, 2, 2),
            Move::Found(1, 3, 1),
            Move::Nothing,
            Move::Complete(0, 1),
            Move::Complete(0, 0),
            Move::Has(104, &[0, 0, 0, 0, 3, 0, 128, 128]),
            Move::Has(8, &[0, 0, 0, 0, 2, 0, 0, 0]),
        ],
        ..ROW
    },
    Row {
        shows: "a wrap counter that is 0 at first",
        layout: Layout {
            first_available: THIRD_AT_0,
            first_used: THIRD_AT_0,
            ..PLACE
        },
        moves: &[
            Move::Descriptor(2, 0, 0, 1, AVAILABLE),
            Move::Nothing,
            Move::Descriptor(2, 0, 0, 1, AVAILABLE_AT_0),
            Move::Found(0, 1, 1),
            Move::Complete(5, 0),
            Move::Has(40, &[5, 0, 0, 0, 1, 0, 2, 0]),
        ],
        ..ROW
    },
    Row {
        shows: "a used index that is behind the available one, in the round before",
        layout: Layout {
            first_available: FIRST_AT_0,
            first_used: LAST,
            ..PLACE
        },
        moves: &[
            Move::Descriptor(0, 0, 0, 4, AVAILABLE_AT_0),
            Move::Found(0, 4, 1),
            Move::Complete(0, 0),
            Move::Has(104, &[0, 0, 0, 0, 4, 0, 128, 128]),
        ],
        ..ROW
    },
];
