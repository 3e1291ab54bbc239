//! The views that a device gives of its units.

use crate::opening::NUMBERS;
use crate::steps::{Row, Step, UNIT};
use world::UnitSpec;

/// The unit 3:0.
const THIRD: UnitSpec = UnitSpec { target: 3, ..UNIT };

pub(crate) static ROWS: [Row; 2] = [
    Row {
        shows: "blocks and capacities",
        numbers: NUMBERS,
        units: &[THIRD],
        is_refused: false,
        steps: &[
            Step::Block(3, 5, true),
            Step::Block(3, 7, true),
            Step::Block(3, 8, false),
            Step::Block(0, 0, false),
            Step::Capacity(3, Some(8)),
            Step::Capacity(0, None),
        ],
    },
    Row {
        shows: "indices of units",
        numbers: NUMBERS,
        units: &[
            THIRD,
            UnitSpec { lun: 300, ..THIRD },
            UnitSpec {
                target: 255,
                ..THIRD
            },
        ],
        is_refused: false,
        steps: &[
            Step::Place(3, 0, Some(0)),
            Step::Place(3, 300, Some(1)),
            Step::Place(255, 0, Some(2)),
            Step::Place(0, 0, None),
            Step::Place(3, 44, None),
            Step::Place(255, 300, None),
            Step::Place(255, 65535, None),
        ],
    },
];
