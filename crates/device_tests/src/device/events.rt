//! Events that don't apply, and writes of the guest.

use crate::moves::Move;
use crate::opening::NUMBERS;
use crate::steps::{Row, Step, UNIT};

/// A write one byte of which would lie outside memory.
const OUTSIDE: Move = Move::Poke(65535, &[7, 7]);

pub(crate) static ROWS: [Row; 2] = [
    Row {
        shows: "events that don't apply: what is there, and what isn't; seat 2 is the operator's",
        numbers: NUMBERS,
        units: &[UNIT],
        is_refused: false,
        steps: &[
            Step::Event(OUTSIDE, false),
            Step::Idle(0, 0, 1),
            Step::Idle(1, 1, 2),
            Step::Idle(2, 2, 255),
            Step::Idle(3, 0, 256),
            Step::Idle(4, 3, 1),
            Step::Idle(1024, 1024, 1024),
            Step::Idle(65535, 65535, 65535),
            Step::Has(65535, &[0]),
        ],
    },
    Row {
        shows: "two bytes, by the guest and as an event",
        numbers: NUMBERS,
        units: &[UNIT],
        is_refused: false,
        steps: &[
            Step::Poke(0, &[7, 9], true),
            Step::Event(Move::Poke(0, &[7, 9]), true),
            Step::Poke(65534, &[7, 9], true),
            Step::Event(Move::Poke(65534, &[7, 9]), true),
            Step::Poke(65535, &[7, 9], false),
            Step::Event(Move::Poke(65535, &[7, 9]), false),
            Step::Poke(65536, &[7, 9], false),
            Step::Event(Move::Poke(65536, &[7, 9]), false),
            Step::Poke(u64::MAX, &[7, 9], false),
            Step::Event(Move::Poke(u64::MAX, &[7, 9]), false),
        ],
    },
];
