//! Serving in portions: a guest whose requests make further requests available, and the queues beside it.

use crate::guest::READY;
use crate::opening::{NUMBERS, Numbers};
use crate::steps::{Row, Step, UNIT};
use test_guest::Chain;
use world::{RING_PACKED, VERSION_1};

/// A chain of a packed ring of 4 descriptors at its beginning: a READ of block 0 whose data go over that ring, behind
/// a response that ends where the ring begins.
const FIRST: &[u8] = &[
    0, 0xa0, 0, 0, 0, 0, 0, 0, 51, 0, 0, 0, 9, 0, 0x81, 0, 0x94, 0x1f, 0, 0, 0, 0, 0, 0, 0x6c, 2,
    0, 0, 9, 0, 0x82, 0,
];

/// The same of block 1, once the ring was gone through an odd number of times.
const NEXT: &[u8] = &[
    0, 0xa4, 0, 0, 0, 0, 0, 0, 51, 0, 0, 0, 9, 0, 0x01, 0x80, 0x94, 0x1f, 0, 0, 0, 0, 0, 0, 0x6c,
    2, 0, 0, 9, 0, 0x02, 0x80,
];

/// WRITE (10) of blocks 0 and 1, READ (10) of block 0, and of block 1.
const WRITE: &[u8] = &[
    1, 0, 0x40, 0, 0, 0, 0, 0, 0, 0, 0, 0, 0, 0, 0, 0, 0, 0, 0, 0x2a, 0, 0, 0, 0, 0, 0, 0, 2,
];

const READ_FIRST: &[u8] = &[
    1, 0, 0x40, 0, 0, 0, 0, 0, 0, 0, 0, 0, 0, 0, 0, 0, 0, 0, 0, 0x28, 0, 0, 0, 0, 0, 0, 0, 1,
];

const READ_NEXT: &[u8] = &[
    1, 0, 0x40, 0, 0, 0, 0, 0, 0, 0, 0, 0, 0, 0, 0, 0, 0, 0, 0, 0x28, 0, 0, 0, 0, 1, 0, 0, 1,
];

/// The bits of the two request queues.
const SECOND: u32 = 1 << 2;

const THIRD: u32 = 1 << 3;

pub(crate) static ROWS: [Row; 2] = [
    Row {
        shows: "queues that aren't asked wait, and what was begun is ended",
        numbers: NUMBERS,
        units: &[UNIT],
        is_refused: false,
        steps: &[
            Step::Serve(u32::MAX, 0, 0, false),
            Step::Send(0, READY),
            Step::Send(0, Chain { queue: 3, ..READY }),
            Step::Serve(0, 100, 0, false),
            Step::Serve(SECOND, 0, 0, true),
            Step::Serve(SECOND, 3, 3, true),
            Step::Serve(0, 3, 3, true),
            Step::Serve(0, 100, 1, false),
            Step::Serve(SECOND, 100, 0, false),
            Step::Serve(THIRD, 7, 7, false),
            Step::Serve(u32::MAX, u64::MAX, 0, false),
        ],
    },
    Row {
        shows: "a guest that feeds itself, and a queue beside it",
        numbers: Numbers {
            features: VERSION_1 + RING_PACKED,
            slots: 4,
            ..NUMBERS
        },
        units: &[UNIT],
        is_refused: false,
        steps: &[
            Step::Poke(32768, WRITE, true),
            Step::Poke(32819, NEXT, true),
            Step::Poke(32851, FIRST, true),
            Step::Poke(33331, FIRST, true),
            Step::Poke(33363, NEXT, true),
            Step::Poke(40960, READ_FIRST, true),
            Step::Poke(41984, READ_NEXT, true),
            Step::Poke(
                12288,
                &[
                    0, 0x80, 0, 0, 0, 0, 0, 0, 0x33, 4, 0, 0, 9, 0, 0x81, 0, 0, 0xb0, 0, 0, 0, 0,
                    0, 0, 108, 0, 0, 0, 9, 0, 0x82, 0,
                ],
                true,
            ),
            Step::Settle(7),
            Step::Poke(8192, FIRST, true),
            Step::Serve(SECOND, 1000, 1000, true),
            Step::Poke(49152, &[1, 0, 0x40], true),
            Step::Poke(
                12320,
                &[
                    0, 0xc0, 0, 0, 0, 0, 0, 0, 51, 0, 0, 0, 9, 0, 0x81, 0, 0, 0xb0, 0, 0, 0, 0, 0,
                    0, 108, 0, 0, 0, 9, 0, 0x82, 0,
                ],
                true,
            ),
            Step::Serve(THIRD, 1000, 8, false),
            Step::Has(12328, &[108, 0, 0, 0, 9, 0, 0x82, 0x80]),
            Step::Serve(SECOND, 1000, 1000, true),
        ],
    },
];
