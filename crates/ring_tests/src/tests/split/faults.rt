//! Faults that break a split queue, and the one of two that comes first.

use super::rows::ROW;
use crate::moves::{INDIRECT, Move, NEXT, Row, WRITE};

pub static FAULTS: [Row; 14] = [
    Row {
        shows: "a chain that loops",
        moves: &[
            Move::Descriptor(0, 0, 0, NEXT, 0),
            Move::Number(4098, 1),
            Move::Fault(4),
        ],
        ..ROW
    },
    Row {
        shows: "a next descriptor at the size",
        moves: &[
            Move::Descriptor(0, 0, 0, NEXT, 8),
            Move::Number(4098, 1),
            Move::Fault(3),
        ],
        ..ROW
    },
    Row {
        shows: "INDIRECT",
        moves: &[
            Move::Descriptor(0, 0, 0, INDIRECT, 0),
            Move::Number(4098, 1),
            Move::Fault(8),
        ],
        ..ROW
    },
    Row {
        shows: "a byte past the end of memory",
        moves: &[
            Move::Descriptor(0, 65535, 2, 0, 0),
            Move::Number(4098, 1),
            Move::Fault(5),
        ],
        ..ROW
    },
    Row {
        shows: "the last byte of memory",
        moves: &[
            Move::Descriptor(0, 65535, 1, 0, 0),
            Move::Number(4098, 1),
            Move::Found(0, 0, 1),
        ],
        ..ROW
    },
    Row {
        shows: "no byte at the end of all addresses",
        moves: &[
            Move::Descriptor(0, u64::MAX, 0, 0, 0),
            Move::Number(4098, 1),
            Move::Found(0, 0, 1),
        ],
        ..ROW
    },
    Row {
        shows: "a byte at the end of all addresses",
        moves: &[
            Move::Descriptor(0, u64::MAX, 1, 0, 0),
            Move::Number(4098, 1),
            Move::Fault(5),
        ],
        ..ROW
    },
    Row {
        shows: "INDIRECT comes before the buffer",
        moves: &[
            Move::Descriptor(0, u64::MAX, 1, INDIRECT, 0),
            Move::Number(4098, 1),
            Move::Fault(8),
        ],
        ..ROW
    },
    Row {
        shows: "the buffer comes before the next descriptor",
        moves: &[
            Move::Descriptor(0, u64::MAX, 1, NEXT, 8),
            Move::Number(4098, 1),
            Move::Fault(5),
        ],
        ..ROW
    },
    Row {
        shows: "an index that jumps, for good",
        moves: &[
            Move::Number(4098, 9),
            Move::Fault(1),
            Move::Number(4098, 0),
            Move::Fault(1),
        ],
        ..ROW
    },
    Row {
        shows: "an index ahead by the size",
        moves: &[
            Move::Put(4100, &[0, 0, 1, 0, 2, 0, 3, 0, 4, 0, 5, 0, 6, 0, 7, 0]),
            Move::Number(4098, 8),
            Move::Found(0, 0, 1),
            Move::Found(1, 1, 1),
            Move::Found(2, 2, 1),
            Move::Found(3, 3, 1),
            Move::Found(4, 4, 1),
            Move::Found(5, 5, 1),
            Move::Found(6, 6, 1),
            Move::Found(7, 7, 1),
            Move::Nothing,
        ],
        ..ROW
    },
    Row {
        shows: "an outstanding head, for good, with the chain completed",
        moves: &[
            Move::Number(4098, 2),
            Move::Found(0, 0, 1),
            Move::Fault(7),
            Move::Complete(0, 0),
            Move::Used(1),
            Move::Fault(7),
        ],
        ..ROW
    },
    Row {
        shows: "a head at the size",
        moves: &[Move::Number(4100, 8), Move::Number(4098, 1), Move::Fault(2)],
        ..ROW
    },
    Row {
        shows: "a readable descriptor behind a writable one",
        moves: &[
            Move::Number(4098, 1),
            Move::Number(4100, 0),
            Move::Descriptor(0, 20000, 1, NEXT + WRITE, 1),
            Move::Descriptor(1, 20000, 1, 0, 0),
            Move::Fault(6),
        ],
        ..ROW
    },
];
