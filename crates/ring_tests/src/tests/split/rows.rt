//! Chains of a split queue, fetched and used.

use super::PLACE;
use crate::moves::{Move, NEXT, Row, WRITE};
use ring_core::Layout;

/// A queue of 8,192 descriptors.
const MANY: Layout = Layout {
    size: 8192,
    desc: 0,
    driver: 131_072,
    device: 147_464,
    ..PLACE
};

/// The row from which others are made: each says the memory's pages and where the queue lies if they aren't these.
pub const ROW: Row = Row {
    shows: "",
    pages: 16,
    layout: PLACE,
    features: 0,
    moves: &[],
};

pub static ROWS: [Row; 14] = [
    Row {
        shows: "a chain of three descriptors",
        moves: &[
            Move::Nothing,
            Move::Descriptor(3, 20000, 4, NEXT, 5),
            Move::Descriptor(5, 20010, 2, NEXT, 1),
            Move::Descriptor(1, 30000, 8, WRITE, 0),
            Move::Put(20000, &[1, 2, 3, 4, 0, 0, 0, 0, 0, 0, 5, 6]),
            Move::Number(4100, 3),
            Move::Number(4098, 1),
            Move::Found(0, 3, 1),
            Move::Holds(3, 6, 8, 6),
            Move::Read(&[1, 2, 3, 4, 5, 6]),
            Move::Nothing,
            Move::Scatter(2, &[9, 9]),
            Move::Complete(4, 0),
            Move::Has(8194, &[1, 0, 3, 0, 0, 0, 4, 0, 0, 0, 0, 0]),
            Move::Has(30000, &[0, 0, 9, 9, 0, 0, 0, 0]),
        ],
        ..ROW
    },
    Row {
        shows: "the available flags ask for a notice, or for none",
        moves: &[
            Move::Number(4096, 0),
            Move::Notice(true),
            Move::Number(4096, 1),
            Move::Notice(false),
            Move::Number(4096, 2),
            Move::Notice(true),
            Move::Number(4096, 65535),
            Move::Notice(false),
        ],
        ..ROW
    },
    Row {
        shows: "as many descriptors as the queue has",
        moves: &[
            Move::Linked(8, 0),
            Move::Descriptor(7, 0, 0, 0, 0),
            Move::Number(4098, 1),
            Move::Found(0, 0, 1),
            Move::Holds(8, 0, 0, 0),
        ],
        ..ROW
    },
    Row {
        shows: "one descriptor more than the queue has",
        moves: &[
            Move::Linked(8, 0),
            Move::Descriptor(7, 0, 0, NEXT, 7),
            Move::Number(4098, 1),
            Move::Fault(4),
        ],
        ..ROW
    },
    Row {
        shows: "over 2^32 bytes",
        pages: 256,
        layout: MANY,
        features: 0,
        moves: &[
            Move::Linked(4097, 1_048_576),
            Move::Number(131_074, 1),
            Move::Fault(4),
        ],
    },
    Row {
        shows: "2^32 bytes, of which the first are read",
        pages: 256,
        layout: MANY,
        features: 0,
        moves: &[
            Move::Linked(4097, 1_048_576),
            Move::Number(131_074, 1),
            Move::Descriptor(4095, 0, 1_048_576, 0, 0),
            Move::Found(0, 0, 1),
            Move::Holds(4096, 4_294_967_296, 0, 1_048_627),
        ],
    },
    Row {
        shows: "as many bytes as are read at once",
        pages: 300,
        moves: &[
            Move::Descriptor(0, 16384, 1_048_627, 0, 0),
            Move::Number(4098, 1),
            Move::Found(0, 0, 1),
            Move::Holds(1, 1_048_627, 0, 1_048_627),
        ],
        ..ROW
    },
    Row {
        shows: "one byte more than is read at once",
        pages: 300,
        moves: &[
            Move::Descriptor(0, 16384, 1_048_628, 0, 0),
            Move::Number(4098, 1),
            Move::Found(0, 0, 1),
            Move::Holds(1, 1_048_628, 0, 1_048_627),
        ],
        ..ROW
    },
    Row {
        shows: "51 bytes",
        pages: 300,
        moves: &[
            Move::Descriptor(0, 16384, 51, 0, 0),
            Move::Number(4098, 1),
            Move::Found(0, 0, 1),
            Move::Holds(1, 51, 0, 51),
        ],
        ..ROW
    },
    Row {
        shows: "no bytes",
        pages: 300,
        moves: &[
            Move::Descriptor(0, 16384, 0, 0, 0),
            Move::Number(4098, 1),
            Move::Found(0, 0, 1),
            Move::Holds(1, 0, 0, 0),
        ],
        ..ROW
    },
    Row {
        shows: "of parts that overlap the later one wins",
        moves: &[
            Move::Descriptor(0, 20000, 4, NEXT + WRITE, 1),
            Move::Descriptor(1, 20002, 4, WRITE, 0),
            Move::Number(4098, 1),
            Move::Found(0, 0, 1),
            Move::Scatter(0, &[1, 2, 3, 4, 5, 6, 7]),
            Move::Has(20000, &[1, 2, 5, 6, 7, 0]),
        ],
        ..ROW
    },
    Row {
        shows: "one descriptor",
        pages: 512,
        layout: Layout {
            size: 1,
            desc: 1_048_576,
            driver: 0,
            device: 524_288,
            ..PLACE
        },
        features: 0,
        moves: &[
            Move::Number(4, 0),
            Move::Number(2, 1),
            Move::Found(0, 0, 1),
            Move::Complete(0, 0),
            Move::Has(524_290, &[1, 0, 0, 0]),
        ],
    },
    Row {
        shows: "two descriptors",
        pages: 512,
        layout: Layout {
            size: 2,
            desc: 1_048_576,
            driver: 0,
            device: 524_288,
            ..PLACE
        },
        features: 0,
        moves: &[
            Move::Number(4, 1),
            Move::Number(2, 1),
            Move::Found(0, 1, 1),
            Move::Complete(0, 0),
            Move::Has(524_290, &[1, 0, 1, 0]),
        ],
    },
    Row {
        shows: "the most descriptors",
        pages: 512,
        layout: Layout {
            size: 32768,
            desc: 1_048_576,
            driver: 0,
            device: 524_288,
            ..PLACE
        },
        features: 0,
        moves: &[
            Move::Number(4, 32767),
            Move::Number(2, 1),
            Move::Found(0, 32767, 1),
            Move::Complete(0, 0),
            Move::Has(524_290, &[1, 0, 255, 127]),
        ],
    },
];
