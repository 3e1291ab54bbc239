//! Packed queues whose chains may end in a table of descriptors.

use super::AVAILABLE;
use super::rows::ROW;
use crate::moves::{EVENT_IDX, INDIRECT, INDIRECT_DESC, Move, NEXT, Row, WRITE};

/// A queue for which indirect descriptors were agreed.
const TABLE: Row = Row {
    features: INDIRECT_DESC,
    ..ROW
};

pub static TABLES: [Row; 17] = [
    Row {
        shows: "tables of 1, 2, 4, 5, 127 and 1,024 entries in a queue of 7",
        moves: &[
            Move::PackedTable(16384, 1, 3),
            Move::Descriptor(0, 16384, 16, 3, INDIRECT + AVAILABLE),
            Move::Found(0, 3, 1),
            Move::Holds(1, 3, 0, 3),
            Move::Complete(0, 0),
            Move::PackedTable(16384, 2, 3),
            Move::Descriptor(1, 16384, 32, 3, INDIRECT + AVAILABLE),
            Move::Found(1, 3, 1),
            Move::Holds(2, 6, 0, 6),
            Move::Complete(0, 1),
            Move::PackedTable(16384, 4, 3),
            Move::Descriptor(2, 16384, 64, 3, INDIRECT + AVAILABLE),
            Move::Found(2, 3, 1),
            Move::Holds(4, 12, 0, 12),
            Move::Complete(0, 2),
            Move::PackedTable(16384, 5, 3),
            Move::Descriptor(3, 16384, 80, 3, INDIRECT + AVAILABLE),
            Move::Found(3, 3, 1),
            Move::Holds(5, 15, 0, 15),
            Move::Complete(0, 3),
            Move::PackedTable(16384, 127, 3),
            Move::Descriptor(4, 16384, 2032, 3, INDIRECT + AVAILABLE),
            Move::Found(4, 3, 1),
            Move::Holds(127, 381, 0, 381),
            Move::Complete(0, 4),
            Move::PackedTable(16384, 1024, 3),
            Move::Descriptor(5, 16384, 16384, 3, INDIRECT + AVAILABLE),
            Move::Found(5, 3, 1),
            Move::Holds(1024, 3072, 0, 3072),
            Move::Complete(0, 5),
        ],
        ..TABLE
    },
    Row {
        shows: "a descriptor, and then a table whose WRITE counts for nothing",
        moves: &[
            Move::Put(20000, &[1, 2, 3, 4, 0, 0, 0, 0, 0, 0, 5, 6]),
            Move::Descriptor(0, 20000, 4, 9, NEXT + AVAILABLE),
            Move::Descriptor(1, 16384, 32, 1, INDIRECT + WRITE + AVAILABLE),
            Move::Entry(16384, 0, 20010, 2, 7, 0),
            Move::Entry(16384, 1, 30000, 8, 8, WRITE),
            Move::Found(0, 1, 2),
            Move::Holds(3, 6, 8, 6),
            Move::Read(&[1, 2, 3, 4, 5, 6]),
            Move::Complete(2, 0),
            Move::Has(8, &[2, 0, 0, 0, 1, 0, 130, 128]),
        ],
        ..TABLE
    },
    Row {
        shows: "of the flags of entries WRITE alone counts",
        moves: &[
            Move::Put(20000, &[1, 2]),
            Move::Descriptor(0, 16384, 48, 1, INDIRECT + AVAILABLE),
            Move::Entry(16384, 0, 20000, 1, 7, INDIRECT + NEXT),
            Move::Entry(16384, 1, 20001, 1, 8, 0),
            Move::Entry(16384, 2, 30000, 8, 9, WRITE + INDIRECT + NEXT),
            Move::Found(0, 1, 1),
            Move::Holds(3, 2, 8, 2),
            Move::Read(&[1, 2]),
        ],
        ..TABLE
    },
    Row {
        shows: "a table over the descriptors of the queue",
        moves: &[
            Move::Descriptor(0, 16, 32, 1, INDIRECT + AVAILABLE),
            Move::Descriptor(1, 20000, 4, 0, 0),
            Move::Descriptor(2, 30000, 8, 0, WRITE),
            Move::Found(0, 1, 1),
            Move::Holds(2, 4, 8, 4),
        ],
        ..TABLE
    },
    Row {
        shows: "a table over the descriptor that names it",
        moves: &[
            Move::Descriptor(0, 0, 16, 1, INDIRECT + WRITE + AVAILABLE),
            Move::Found(0, 1, 1),
            Move::Holds(1, 0, 16, 0),
            Move::Scatter(0, &[9; 16]),
            Move::Complete(16, 0),
            Move::Has(0, &[9, 9, 9, 9, 9, 9, 9, 9, 16, 0, 0, 0, 1, 0, 130, 128]),
        ],
        ..TABLE
    },
    Row {
        shows: "a table over the data of its own chain",
        moves: &[
            Move::Descriptor(0, 16384, 32, 1, INDIRECT + AVAILABLE),
            Move::Entry(16384, 0, 16384, 2, 0, 0),
            Move::Entry(16384, 1, 16384, 32, 0, WRITE),
            Move::Found(0, 1, 1),
            Move::Holds(2, 2, 32, 2),
            Move::Read(&[0, 64]),
            Move::Scatter(0, &[9; 32]),
            Move::Complete(32, 0),
            Move::Has(16384, &[9; 32]),
            Move::Has(8, &[32, 0, 0, 0, 1, 0, 130, 128]),
        ],
        ..TABLE
    },
    Row {
        shows: "a table at memory's end",
        moves: &[
            Move::Descriptor(0, 65520, 16, 1, INDIRECT + AVAILABLE),
            Move::Entry(65520, 0, 65535, 1, 0, 0),
            Move::Found(0, 1, 1),
            Move::Holds(1, 1, 0, 1),
        ],
        ..TABLE
    },
    Row {
        shows: "2^32 bytes, of which the first stand before the table",
        pages: 256,
        moves: &[
            Move::Descriptor(0, 0, 1_048_576, 1, NEXT + AVAILABLE),
            Move::Descriptor(1, 131_072, 65_520, 1, INDIRECT + AVAILABLE),
            Move::PackedTable(131_072, 4095, 1_048_576),
            Move::Found(0, 1, 2),
            Move::Holds(4096, 4_294_967_296, 0, 1_048_627),
        ],
        ..TABLE
    },
    Row {
        shows: "a byte more",
        pages: 256,
        moves: &[
            Move::Descriptor(0, 0, 1, 1, NEXT + AVAILABLE),
            Move::Descriptor(1, 131_072, 65_536, 1, INDIRECT + AVAILABLE),
            Move::PackedTable(131_072, 4096, 1_048_576),
            Move::Fault(4),
            Move::Fault(4),
        ],
        ..TABLE
    },
    Row {
        shows: "a table where event indices alone were agreed",
        features: EVENT_IDX,
        moves: &[
            Move::Descriptor(0, 16384, 16, 1, INDIRECT + AVAILABLE),
            Move::Fault(8),
            Move::Fault(8),
        ],
        ..TABLE
    },
    Row {
        shows: "INDIRECT with NEXT",
        moves: &[
            Move::Descriptor(0, 16384, 16, 1, INDIRECT + NEXT + AVAILABLE),
            Move::Fault(8),
            Move::Fault(8),
        ],
        ..TABLE
    },
    Row {
        shows: "a table of no byte",
        moves: &[
            Move::Descriptor(0, 16384, 0, 1, INDIRECT + AVAILABLE),
            Move::Fault(8),
            Move::Fault(8),
        ],
        ..TABLE
    },
    Row {
        shows: "a table of one entry and a byte",
        moves: &[
            Move::Descriptor(0, 16384, 17, 1, INDIRECT + AVAILABLE),
            Move::Fault(8),
            Move::Fault(8),
        ],
        ..TABLE
    },
    Row {
        shows: "a table past memory's end",
        moves: &[
            Move::Descriptor(0, 65520, 32, 1, INDIRECT + AVAILABLE),
            Move::Fault(8),
            Move::Fault(8),
        ],
        ..TABLE
    },
    Row {
        shows: "a table at the end of all addresses",
        moves: &[
            Move::Descriptor(0, 18_446_744_073_709_551_600, 16, 1, INDIRECT + AVAILABLE),
            Move::Fault(8),
            Move::Fault(8),
        ],
        ..TABLE
    },
    Row {
        shows: "a readable entry behind a writable descriptor",
        moves: &[
            Move::Descriptor(0, 20000, 1, 1, NEXT + WRITE + AVAILABLE),
            Move::Descriptor(1, 16384, 16, 1, INDIRECT + AVAILABLE),
            Move::Entry(16384, 0, 20000, 1, 0, 0),
            Move::Fault(6),
            Move::Fault(6),
        ],
        ..TABLE
    },
    Row {
        shows: "a table is walked before its id is looked for",
        moves: &[
            Move::Descriptor(0, 0, 0, 1, AVAILABLE),
            Move::Found(0, 1, 1),
            Move::Descriptor(1, 16384, 16, 1, INDIRECT + AVAILABLE),
            Move::Entry(16384, 0, 65535, 2, 0, 0),
            Move::Fault(5),
            Move::Fault(5),
        ],
        ..TABLE
    },
];
