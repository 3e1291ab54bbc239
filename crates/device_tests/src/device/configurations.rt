//! Configurations that are refused.

use super::are_called;
use crate::opening::{NUMBERS, Numbers};
use crate::steps::{Row, UNIT};
use std::test::Fail;
use world::{
    ACCEPTED_FEATURES, EVENT_IDX, INDIRECT_DESC, RING_PACKED, StartFault, UnitSpec, VERSION_1,
};

/// A unit with a power-on attention.
const FIRST: UnitSpec = UnitSpec {
    calm: false,
    ..UNIT
};

/// Units that are taken.
const UNITS: &[UnitSpec] = &[
    FIRST,
    UnitSpec {
        lun: 16383,
        ..FIRST
    },
    UnitSpec {
        target: 255,
        ..FIRST
    },
];

/// The row from which others are made: each says its numbers and units where they aren't these.
const ROW: Row = Row {
    shows: "",
    numbers: NUMBERS,
    units: UNITS,
    is_refused: true,
    steps: &[],
};

pub(crate) static ROWS: [Row; 16] = [
    Row {
        shows: "one worker",
        numbers: Numbers {
            pages: 16,
            features: VERSION_1,
            workers: 1,
            handoff: 64,
            slots: 8,
        },
        is_refused: false,
        ..ROW
    },
    Row {
        shows: "nine workers",
        numbers: Numbers {
            pages: 16,
            features: VERSION_1,
            workers: 9,
            handoff: 64,
            slots: 8,
        },
        is_refused: true,
        ..ROW
    },
    Row {
        shows: "4,097 jobs between workers",
        numbers: Numbers {
            pages: 16,
            features: VERSION_1,
            workers: 8,
            handoff: 4097,
            slots: 8,
        },
        is_refused: true,
        ..ROW
    },
    Row {
        shows: "eight workers and 4,096 jobs",
        numbers: Numbers {
            pages: 16,
            features: VERSION_1,
            workers: 8,
            handoff: 4096,
            slots: 8,
        },
        is_refused: false,
        ..ROW
    },
    Row {
        shows: "no memory",
        numbers: Numbers {
            pages: 0,
            features: VERSION_1,
            workers: 8,
            handoff: 4096,
            slots: 8,
        },
        is_refused: true,
        ..ROW
    },
    Row {
        shows: "no features",
        numbers: Numbers {
            pages: 16,
            features: 0,
            workers: 1,
            handoff: 64,
            slots: 8,
        },
        is_refused: true,
        ..ROW
    },
    Row {
        shows: "packed queues without VERSION_1",
        numbers: Numbers {
            pages: 16,
            features: RING_PACKED,
            workers: 1,
            handoff: 64,
            slots: 8,
        },
        is_refused: true,
        ..ROW
    },
    Row {
        shows: "a feature that is not offered",
        numbers: Numbers {
            pages: 16,
            features: VERSION_1 + 1,
            workers: 1,
            handoff: 64,
            slots: 8,
        },
        is_refused: true,
        ..ROW
    },
    Row {
        shows: "all features that are taken",
        numbers: Numbers {
            pages: 16,
            features: ACCEPTED_FEATURES,
            workers: 1,
            handoff: 64,
            slots: 8,
        },
        is_refused: false,
        ..ROW
    },
    Row {
        shows: "the features of rings without VERSION_1",
        numbers: Numbers {
            pages: 16,
            features: INDIRECT_DESC + EVENT_IDX,
            workers: 1,
            handoff: 64,
            slots: 8,
        },
        is_refused: true,
        ..ROW
    },
    Row {
        shows: "a feature between those that are taken",
        numbers: Numbers {
            pages: 16,
            features: VERSION_1 + 4 * INDIRECT_DESC,
            workers: 1,
            handoff: 64,
            slots: 8,
        },
        is_refused: true,
        ..ROW
    },
    Row {
        shows: "another feature in place of VERSION_1",
        numbers: Numbers {
            pages: 16,
            features: 2 * VERSION_1,
            workers: 1,
            handoff: 64,
            slots: 8,
        },
        is_refused: true,
        ..ROW
    },
    Row {
        shows: "no units",
        units: &[],
        ..ROW
    },
    Row {
        shows: "a target without LUN 0",
        units: &[UnitSpec { lun: 1, ..FIRST }],
        ..ROW
    },
    Row {
        shows: "a unit twice",
        units: &[FIRST, FIRST],
        ..ROW
    },
    Row {
        shows: "a LUN that is too large",
        units: &[
            FIRST,
            UnitSpec {
                lun: 16384,
                ..FIRST
            },
        ],
        ..ROW
    },
];

/// The refusals, and what they are called.
static CALLED: [(StartFault, &str); 2] = [
    (StartFault::BadConfig, "bad configuration"),
    (StartFault::NoMemory, "no memory"),
];

#[test]
fn names_start_faults(rt: HostRuntime) -> Result<(), Fail> {
    let numbers = (StartFault::BadConfig as u8, StartFault::NoMemory as u8);
    assert!(rt; numbers == (1, 2));
    are_called(&rt, rt.alloc(), &CALLED)
}
