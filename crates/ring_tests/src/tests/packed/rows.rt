//! Chains of a packed queue, fetched and used.

use super::{AVAILABLE, AVAILABLE_AT_0, PLACE};
use crate::moves::{INDIRECT, Move, NEXT, Row, WRITE};
use ring_core::Layout;

/// A queue of three slots.
const THREE: Layout = Layout { size: 3, ..PLACE };

/// A queue of four slots.
const FOUR: Layout = Layout { size: 4, ..PLACE };

/// A queue of seven slots.
pub(super) const ROW: Row = Row {
    shows: "",
    pages: 16,
    layout: PLACE,
    features: 0,
    moves: &[],
};

pub static ROWS: [Row; 14] = [
    Row {
        shows: "a used descriptor without WRITE where nothing was written",
        moves: &[
            Move::Descriptor(0, 20000, 4, 65535, WRITE + AVAILABLE),
            Move::Found(0, 65535, 1),
            Move::Complete(0, 0),
            Move::Has(8, &[0, 0, 0, 0, 255, 255, 128, 128]),
        ],
        ..ROW
    },
    Row {
        shows: "the driver's flags ask for a notice, or for none",
        moves: &[
            Move::Number(4098, 0),
            Move::Notice(true),
            Move::Number(4098, 1),
            Move::Notice(false),
            Move::Number(4098, 2),
            Move::Notice(true),
            Move::Number(4098, 3),
            Move::Notice(true),
            Move::Number(4098, 5),
            Move::Notice(false),
        ],
        ..ROW
    },
    Row {
        shows: "a slot whose flags aren't of the driver's turn",
        moves: &[
            Move::Number(14, 0),
            Move::Nothing,
            Move::Number(14, 32768),
            Move::Nothing,
            Move::Number(14, 32896),
            Move::Nothing,
            Move::Number(14, 128),
            Move::Found(0, 0, 1),
        ],
        ..ROW
    },
    Row {
        shows: "a readable descriptor behind a writable one, for good",
        moves: &[
            Move::Descriptor(0, 0, 1, 1, NEXT + WRITE + AVAILABLE),
            Move::Descriptor(1, 0, 1, 1, AVAILABLE),
            Move::Fault(6),
            Move::Fault(6),
        ],
        ..ROW
    },
    Row {
        shows: "a chain that goes on behind all slots",
        layout: THREE,
        moves: &[
            Move::Descriptor(0, 0, 0, 1, NEXT + AVAILABLE),
            Move::Descriptor(1, 0, 0, 1, NEXT + AVAILABLE),
            Move::Descriptor(2, 0, 0, 1, NEXT + AVAILABLE),
            Move::Fault(4),
        ],
        ..ROW
    },
    Row {
        shows: "a chain of all slots",
        layout: THREE,
        moves: &[
            Move::Descriptor(0, 0, 0, 1, NEXT + AVAILABLE),
            Move::Descriptor(1, 0, 0, 1, NEXT + AVAILABLE),
            Move::Descriptor(2, 0, 0, 1, AVAILABLE),
            Move::Found(0, 1, 3),
            Move::Holds(3, 0, 0, 0),
        ],
        ..ROW
    },
    Row {
        shows: "a chain of two slots where three of four are outstanding, for good",
        layout: FOUR,
        moves: &[
            Move::Descriptor(0, 0, 0, 1, NEXT + AVAILABLE),
            Move::Descriptor(1, 0, 0, 1, NEXT + AVAILABLE),
            Move::Descriptor(2, 0, 0, 1, AVAILABLE),
            Move::Found(0, 1, 3),
            Move::Descriptor(3, 0, 0, 2, NEXT + AVAILABLE),
            Move::Descriptor(0, 0, 0, 2, AVAILABLE_AT_0),
            Move::Fault(9),
            Move::Complete(0, 0),
            Move::Fault(9),
        ],
        ..ROW
    },
    Row {
        shows: "an id that is outstanding, with the chain completed",
        moves: &[
            Move::Descriptor(0, 0, 0, 1, AVAILABLE),
            Move::Descriptor(1, 0, 0, 1, AVAILABLE),
            Move::Found(0, 1, 1),
            Move::Fault(7),
            Move::Complete(0, 0),
        ],
        ..ROW
    },
    Row {
        shows: "a byte past the end of memory",
        moves: &[Move::Descriptor(0, 65535, 2, 1, AVAILABLE), Move::Fault(5)],
        ..ROW
    },
    Row {
        shows: "the last byte of memory",
        moves: &[
            Move::Descriptor(0, 65535, 1, 1, AVAILABLE),
            Move::Found(0, 1, 1),
        ],
        ..ROW
    },
    Row {
        shows: "no byte at the end of all addresses",
        moves: &[
            Move::Descriptor(0, u64::MAX, 0, 1, AVAILABLE),
            Move::Found(0, 1, 1),
        ],
        ..ROW
    },
    Row {
        shows: "a byte at the end of all addresses",
        moves: &[
            Move::Descriptor(0, u64::MAX, 1, 1, AVAILABLE),
            Move::Fault(5),
        ],
        ..ROW
    },
    Row {
        shows: "INDIRECT",
        moves: &[
            Move::Descriptor(0, 0, 0, 1, INDIRECT + AVAILABLE),
            Move::Fault(8),
        ],
        ..ROW
    },
    Row {
        shows: "INDIRECT comes before the buffer",
        moves: &[
            Move::Descriptor(0, u64::MAX, 1, 1, INDIRECT + AVAILABLE),
            Move::Fault(8),
        ],
        ..ROW
    },
];
