//! Split queues whose chains may end in a table of descriptors.

use super::rows::ROW;
use crate::moves::{EVENT_IDX, INDIRECT, INDIRECT_DESC, Move, NEXT, Row, WRITE};

/// A queue for which indirect descriptors were agreed.
const TABLE: Row = Row {
    features: INDIRECT_DESC,
    ..ROW
};

pub static TABLES: [Row; 21] = [
    Row {
        shows: "tables of 1, 2, 4, 5, 127 and 1,024 entries in a queue of 8",
        moves: &[
            Move::SplitTable(16384, 1, 3),
            Move::Descriptor(0, 16384, 16, INDIRECT, 0),
            Move::Number(4100, 0),
            Move::Number(4098, 1),
            Move::Found(0, 0, 1),
            Move::Holds(1, 3, 0, 3),
            Move::Complete(0, 0),
            Move::SplitTable(16384, 2, 3),
            Move::Descriptor(0, 16384, 32, INDIRECT, 0),
            Move::Number(4102, 0),
            Move::Number(4098, 2),
            Move::Found(1, 0, 1),
            Move::Holds(2, 6, 0, 6),
            Move::Complete(0, 1),
            Move::SplitTable(16384, 4, 3),
            Move::Descriptor(0, 16384, 64, INDIRECT, 0),
            Move::Number(4104, 0),
            Move::Number(4098, 3),
            Move::Found(2, 0, 1),
            Move::Holds(4, 12, 0, 12),
            Move::Complete(0, 2),
            Move::SplitTable(16384, 5, 3),
            Move::Descriptor(0, 16384, 80, INDIRECT, 0),
            Move::Number(4106, 0),
            Move::Number(4098, 4),
            Move::Found(3, 0, 1),
            Move::Holds(5, 15, 0, 15),
            Move::Complete(0, 3),
            Move::SplitTable(16384, 127, 3),
            Move::Descriptor(0, 16384, 2032, INDIRECT, 0),
            Move::Number(4108, 0),
            Move::Number(4098, 5),
            Move::Found(4, 0, 1),
            Move::Holds(127, 381, 0, 381),
            Move::Complete(0, 4),
            Move::SplitTable(16384, 1024, 3),
            Move::Descriptor(0, 16384, 16384, INDIRECT, 0),
            Move::Number(4110, 0),
            Move::Number(4098, 6),
            Move::Found(5, 0, 1),
            Move::Holds(1024, 3072, 0, 3072),
            Move::Complete(0, 5),
        ],
        ..TABLE
    },
    Row {
        shows: "a descriptor, and then a table whose WRITE counts for nothing",
        moves: &[
            Move::Put(20000, &[1, 2, 3, 4, 0, 0, 0, 0, 0, 0, 5, 6]),
            Move::Descriptor(0, 20000, 4, NEXT, 1),
            Move::Descriptor(1, 16384, 32, INDIRECT + WRITE, 0),
            Move::Entry(16384, 0, 20010, 2, NEXT, 1),
            Move::Entry(16384, 1, 30000, 8, WRITE, 0),
            Move::Number(4098, 1),
            Move::Found(0, 0, 1),
            Move::Holds(3, 6, 8, 6),
            Move::Read(&[1, 2, 3, 4, 5, 6]),
            Move::Scatter(0, &[7, 7]),
            Move::Complete(2, 0),
            Move::Has(8194, &[1, 0, 0, 0, 0, 0, 2, 0, 0, 0]),
            Move::Has(30000, &[7, 7, 0]),
        ],
        ..TABLE
    },
    Row {
        shows: "as many descriptors as the queue has, and then a table of more",
        moves: &[
            Move::Linked(7, 0),
            Move::Descriptor(7, 16384, 144, INDIRECT, 0),
            Move::SplitTable(16384, 9, 1),
            Move::Number(4098, 1),
            Move::Found(0, 0, 1),
            Move::Holds(16, 9, 0, 9),
        ],
        ..TABLE
    },
    Row {
        shows: "entries in the order of their links, the first one first",
        moves: &[
            Move::Put(20000, &[1, 2, 3]),
            Move::Descriptor(0, 16384, 48, INDIRECT, 0),
            Move::Entry(16384, 0, 20000, 1, NEXT, 2),
            Move::Entry(16384, 2, 20001, 1, NEXT, 1),
            Move::Entry(16384, 1, 20002, 1, 0, 0),
            Move::Number(4098, 1),
            Move::Found(0, 0, 1),
            Move::Holds(3, 3, 0, 3),
            Move::Read(&[1, 2, 3]),
        ],
        ..TABLE
    },
    Row {
        shows: "a table over the descriptors of the queue",
        moves: &[
            Move::Descriptor(0, 16, 32, INDIRECT, 0),
            Move::Descriptor(1, 20000, 4, NEXT, 1),
            Move::Descriptor(2, 30000, 8, WRITE, 0),
            Move::Number(4098, 1),
            Move::Found(0, 0, 1),
            Move::Holds(2, 4, 8, 4),
        ],
        ..TABLE
    },
    Row {
        shows: "a table over the used element of its own chain",
        moves: &[
            Move::Descriptor(0, 8192, 16, INDIRECT, 0),
            Move::Entry(8192, 0, 30000, 8, WRITE, 0),
            Move::Number(4098, 1),
            Move::Found(0, 0, 1),
            Move::Holds(1, 0, 8, 0),
            Move::Complete(8, 0),
            Move::Has(8194, &[1, 0, 0, 0, 0, 0, 8, 0, 0, 0]),
        ],
        ..TABLE
    },
    Row {
        shows: "a table over the data of its own chain",
        moves: &[
            Move::Descriptor(0, 16384, 32, INDIRECT, 0),
            Move::Entry(16384, 0, 16384, 2, NEXT, 1),
            Move::Entry(16384, 1, 16384, 32, WRITE, 0),
            Move::Number(4098, 1),
            Move::Found(0, 0, 1),
            Move::Holds(2, 2, 32, 2),
            Move::Read(&[0, 64]),
            Move::Scatter(0, &[9; 32]),
            Move::Complete(32, 0),
            Move::Has(16384, &[9; 32]),
            Move::Has(8194, &[1, 0, 0, 0, 0, 0, 32, 0, 0, 0]),
        ],
        ..TABLE
    },
    Row {
        shows: "a table at memory's end",
        moves: &[
            Move::Descriptor(0, 65520, 16, INDIRECT, 0),
            Move::Entry(65520, 0, 65535, 1, 0, 0),
            Move::Number(4098, 1),
            Move::Found(0, 0, 1),
            Move::Holds(1, 1, 0, 1),
        ],
        ..TABLE
    },
    Row {
        shows: "2^32 bytes, of which the first stand before the table",
        pages: 256,
        moves: &[
            Move::Descriptor(0, 0, 1_048_576, NEXT, 1),
            Move::Descriptor(1, 131_072, 65_520, INDIRECT, 0),
            Move::SplitTable(131_072, 4095, 1_048_576),
            Move::Number(4098, 1),
            Move::Found(0, 0, 1),
            Move::Holds(4096, 4_294_967_296, 0, 1_048_627),
        ],
        ..TABLE
    },
    Row {
        shows: "a byte more",
        pages: 256,
        moves: &[
            Move::Descriptor(0, 0, 1, NEXT, 1),
            Move::Descriptor(1, 131_072, 65_536, INDIRECT, 0),
            Move::SplitTable(131_072, 4096, 1_048_576),
            Move::Number(4098, 1),
            Move::Fault(4),
            Move::Fault(4),
        ],
        ..TABLE
    },
    Row {
        shows: "a table where event indices alone were agreed",
        features: EVENT_IDX,
        moves: &[
            Move::Descriptor(0, 16384, 16, INDIRECT, 0),
            Move::Number(4098, 1),
            Move::Fault(8),
            Move::Fault(8),
        ],
        ..TABLE
    },
    Row {
        shows: "INDIRECT with NEXT, whatever follows",
        moves: &[
            Move::Descriptor(0, 16384, 16, INDIRECT + NEXT, 8),
            Move::Number(4098, 1),
            Move::Fault(8),
            Move::Fault(8),
        ],
        ..TABLE
    },
    Row {
        shows: "a table of no byte",
        moves: &[
            Move::Descriptor(0, 16384, 0, INDIRECT, 0),
            Move::Number(4098, 1),
            Move::Fault(8),
            Move::Fault(8),
        ],
        ..TABLE
    },
    Row {
        shows: "a table of one entry and a byte",
        moves: &[
            Move::Descriptor(0, 16384, 17, INDIRECT, 0),
            Move::Number(4098, 1),
            Move::Fault(8),
            Move::Fault(8),
        ],
        ..TABLE
    },
    Row {
        shows: "a table past memory's end",
        moves: &[
            Move::Descriptor(0, 65520, 32, INDIRECT, 0),
            Move::Number(4098, 1),
            Move::Fault(8),
            Move::Fault(8),
        ],
        ..TABLE
    },
    Row {
        shows: "a table at the end of all addresses",
        moves: &[
            Move::Descriptor(0, 18_446_744_073_709_551_600, 16, INDIRECT, 0),
            Move::Number(4098, 1),
            Move::Fault(8),
            Move::Fault(8),
        ],
        ..TABLE
    },
    Row {
        shows: "INDIRECT in a table comes before the buffer",
        moves: &[
            Move::Descriptor(0, 16384, 16, INDIRECT, 0),
            Move::Entry(16384, 0, u64::MAX, 1, INDIRECT, 0),
            Move::Number(4098, 1),
            Move::Fault(8),
            Move::Fault(8),
        ],
        ..TABLE
    },
    Row {
        shows: "the buffer of an entry comes before the entry that follows",
        moves: &[
            Move::Descriptor(0, 16384, 16, INDIRECT, 0),
            Move::Entry(16384, 0, u64::MAX, 1, NEXT, 1),
            Move::Number(4098, 1),
            Move::Fault(5),
            Move::Fault(5),
        ],
        ..TABLE
    },
    Row {
        shows: "an entry that follows isn't in the table, though below the size of the queue",
        moves: &[
            Move::Descriptor(0, 16384, 32, INDIRECT, 0),
            Move::Entry(16384, 0, 0, 1, NEXT, 2),
            Move::Number(4098, 1),
            Move::Fault(3),
            Move::Fault(3),
        ],
        ..TABLE
    },
    Row {
        shows: "NEXT at an entry when as many as the table has were walked",
        moves: &[
            Move::Descriptor(0, 16384, 32, INDIRECT, 0),
            Move::Entry(16384, 0, 0, 1, NEXT, 1),
            Move::Entry(16384, 1, 0, 1, NEXT, 0),
            Move::Number(4098, 1),
            Move::Fault(4),
            Move::Fault(4),
        ],
        ..TABLE
    },
    Row {
        shows: "a readable entry behind a writable descriptor",
        moves: &[
            Move::Descriptor(0, 20000, 1, NEXT + WRITE, 1),
            Move::Descriptor(1, 16384, 16, INDIRECT, 0),
            Move::Entry(16384, 0, 20000, 1, 0, 0),
            Move::Number(4098, 1),
            Move::Fault(6),
            Move::Fault(6),
        ],
        ..TABLE
    },
];
