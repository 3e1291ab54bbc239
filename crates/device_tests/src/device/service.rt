//! Steps of the device: how many there are, and what they leave in the rings and in a unit's history.

use crate::guest::{
    ABSENT, BUFFER, NEXUS_RESET, ORDERED, QUERY, READ, READY, REJECTED, UNIT_RESET,
};
use crate::moves::Move;
use crate::opening::{NUMBERS, Numbers};
use crate::steps::{Row, Step, UNIT};
use ring_core::Ticket;
use test_guest::Chain;
use world::{RING_PACKED, StepKind, UnitSpec, VERSION_1};

/// The units 0:0 and 0:1.
const CALM: &[UnitSpec] = &[UNIT, UnitSpec { lun: 1, ..UNIT }];

/// The same with power-on attentions.
const ATTENTIVE: &[UnitSpec] = &[
    UnitSpec {
        calm: false,
        ..UNIT
    },
    UnitSpec {
        lun: 1,
        calm: false,
        ..UNIT
    },
];

/// The response of a power-on attention, as far as it isn't zero.
const ATTENTION: &[u8] = &[
    18, 0, 0, 0, 0, 0, 0, 0, 0, 0, 2, 0, 0x70, 0, 6, 0, 0, 0, 0, 10, 0, 0, 0, 0, 0x29, 0,
];

/// Three chains of queue 2.
const A: Ticket = Ticket {
    queue: 2,
    number: 0,
};

const B: Ticket = Ticket {
    queue: 2,
    number: 1,
};

const C: Ticket = Ticket {
    queue: 2,
    number: 2,
};

/// TEST UNIT READY on the other request queue.
const OTHER: Chain = Chain { queue: 3, ..READY };

pub(crate) static ROWS: [Row; 11] = [
    Row {
        shows: "an attention, and then good",
        numbers: NUMBERS,
        units: ATTENTIVE,
        is_refused: false,
        steps: &[
            Step::Settle(0),
            Step::Send(0, READY),
            Step::Settle(7),
            Step::Answer(2, 0, ATTENTION),
            Step::Has(10240, &[0, 0, 1, 0, 0, 0, 0, 0, 108, 0, 0, 0]),
            Step::Send(1, READY),
            Step::Settle(7),
            Step::Answer(2, 1, &[0; 26]),
            Step::Status(0),
            Step::Notices(2, 2),
        ],
    },
    Row {
        shows: "an attention on a packed ring",
        numbers: Numbers {
            features: VERSION_1 + RING_PACKED,
            ..NUMBERS
        },
        units: ATTENTIVE,
        is_refused: false,
        steps: &[
            Step::Poke(24576, &[1, 0, 0x40], true),
            Step::Poke(
                8192,
                &[0, 0x60, 0, 0, 0, 0, 0, 0, 51, 0, 0, 0, 9, 0, 0x81, 0],
                true,
            ),
            Step::Poke(
                8208,
                &[0x40, 0x60, 0, 0, 0, 0, 0, 0, 108, 0, 0, 0, 9, 0, 0x82, 0],
                true,
            ),
            Step::Settle(7),
            Step::Answer(2, 0, ATTENTION),
            Step::Has(8200, &[108, 0, 0, 0, 9, 0, 0x82, 0x80]),
        ],
    },
    Row {
        shows: "a response with too little room is used with nothing",
        numbers: NUMBERS,
        units: CALM,
        is_refused: false,
        steps: &[
            Step::Poke(24640, &[0xee; 108], true),
            Step::Send(
                0,
                Chain {
                    writable: 107,
                    ..READY
                },
            ),
            Step::Settle(2),
            Step::Answer(2, 0, &[0xee; 108]),
            Step::Has(10240, &[0, 0, 1, 0, 0, 0, 0, 0, 0, 0, 0, 0]),
            Step::History(&[]),
        ],
    },
    Row {
        shows: "a broken queue is served no more, and another one is",
        numbers: NUMBERS,
        units: CALM,
        is_refused: false,
        steps: &[
            Step::Send(0, READY),
            Step::Poke(8208, &[0, 0, 1], true),
            Step::Settle(1),
            Step::Status(64),
            Step::Settle(0),
            Step::Send(0, READY),
            Step::Settle(0),
            Step::Status(64),
            Step::Has(10240, &[0; 12]),
            Step::Send(0, OTHER),
            Step::Settle(7),
            Step::Has(14336, &[0, 0, 1, 0, 0, 0, 0, 0, 108, 0, 0, 0]),
            Step::Status(64),
        ],
    },
    Row {
        shows: "requests that nothing blocks, and one for an absent target",
        numbers: NUMBERS,
        units: CALM,
        is_refused: false,
        steps: &[
            Step::Send(0, READY),
            Step::Settle(7),
            Step::Settle(0),
            Step::Send(1, READ),
            Step::Send(2, READ),
            Step::Settle(14),
            Step::Send(3, ABSENT),
            Step::Settle(2),
            Step::Answer(2, 3, &[0, 0, 0, 0, 0, 0, 0, 0, 0, 0, 0, 3]),
            Step::Has(
                10240,
                &[
                    0, 0, 4, 0, 0, 0, 0, 0, 108, 0, 0, 0, 2, 0, 0, 0, 0x6c, 2, 0, 0, 4, 0, 0, 0,
                    0x6c, 2, 0, 0, 6, 0, 0, 0, 108, 0, 0, 0,
                ],
            ),
        ],
    },
    Row {
        shows: "functions on idle units",
        numbers: NUMBERS,
        units: CALM,
        is_refused: false,
        steps: &[
            Step::Send(0, UNIT_RESET),
            Step::Settle(4),
            Step::Send(1, NEXUS_RESET),
            Step::Settle(6),
            Step::Send(2, REJECTED),
            Step::Settle(2),
            Step::Answer(0, 2, &[11]),
            Step::Send(3, QUERY),
            Step::Settle(4),
            Step::Answer(0, 3, &[0]),
            Step::Has(
                2048,
                &[
                    0, 0, 4, 0, 0, 0, 0, 0, 1, 0, 0, 0, 2, 0, 0, 0, 1, 0, 0, 0, 4, 0, 0, 0, 1, 0,
                    0, 0, 6, 0, 0, 0, 1, 0, 0, 0,
                ],
            ),
            Step::History(&[StepKind::Reset, StepKind::Reset]),
        ],
    },
    Row {
        shows: "a reset meets a task",
        numbers: NUMBERS,
        units: CALM,
        is_refused: false,
        steps: &[
            Step::Send(0, READY),
            Step::Send(0, UNIT_RESET),
            Step::Run(
                &[Move::Fetch(2), Move::Enter(2), Move::Fetch(0), Move::Mark],
                4,
            ),
            Step::Settle(7),
            Step::Answer(2, 0, &[0, 0, 0, 0, 0, 0, 0, 0, 0, 0, 0, 4]),
            Step::History(&[StepKind::Enter(A), StepKind::Reset, StepKind::Leave(A)]),
        ],
    },
    Row {
        shows: "event buffers, and events with one and with none",
        numbers: NUMBERS,
        units: CALM,
        is_refused: false,
        steps: &[
            Step::Send(0, BUFFER),
            Step::Settle(1),
            Step::Has(6144, &[0; 12]),
            Step::Run(&[Move::Hard(0)], 1),
            Step::Settle(1),
            Step::Answer(1, 0, &[1, 0, 0, 0, 1, 0, 0, 0, 0, 0, 0, 0, 0, 0, 0, 0]),
            Step::Run(&[Move::Hard(0)], 1),
            Step::Settle(1),
            Step::Send(
                1,
                Chain {
                    writable: 15,
                    ..BUFFER
                },
            ),
            Step::Settle(1),
            Step::Send(2, BUFFER),
            Step::Settle(1),
            Step::Answer(1, 2, &[0, 0, 0, 0x80]),
            Step::Run(&[Move::Hard(1)], 1),
            Step::Send(3, BUFFER),
            Step::Settle(2),
            Step::Answer(1, 3, &[0, 0, 0, 0x80]),
            Step::Has(
                6144,
                &[
                    0, 0, 4, 0, 1, 0, 0, 0, 16, 0, 0, 0, 3, 0, 0, 0, 0, 0, 0, 0, 5, 0, 0, 0, 16, 0,
                    0, 0, 7, 0, 0, 0, 16, 0, 0, 0,
                ],
            ),
            Step::History(&[StepKind::Reset, StepKind::Reset]),
        ],
    },
    Row {
        shows: "an ordered task between simple ones",
        numbers: NUMBERS,
        units: CALM,
        is_refused: false,
        steps: &[
            Step::Run(&[], 0),
            Step::Send(0, READY),
            Step::Send(1, ORDERED),
            Step::Send(2, READY),
            Step::Run(
                &[
                    Move::Fetch(2),
                    Move::Enter(2),
                    Move::Fetch(2),
                    Move::Enter(2),
                    Move::Fetch(2),
                    Move::Enter(2),
                    Move::Put(0),
                    Move::Take(1),
                    Move::Take(0),
                    Move::Commit(1),
                    Move::Answer(1),
                    Move::Leave(1),
                    Move::Put(1),
                    Move::Take(0),
                    Move::Commit(0),
                    Move::Answer(0),
                    Move::Leave(0),
                    Move::Put(0),
                    Move::Take(1),
                    Move::Commit(1),
                    Move::Answer(1),
                    Move::Leave(1),
                ],
                21,
            ),
            Step::Has(
                10240,
                &[
                    0, 0, 3, 0, 0, 0, 0, 0, 108, 0, 0, 0, 2, 0, 0, 0, 108, 0, 0, 0, 4, 0, 0, 0,
                    108, 0, 0, 0,
                ],
            ),
            Step::History(&[
                StepKind::Enter(A),
                StepKind::Enter(B),
                StepKind::Enter(C),
                StepKind::Commit(A),
                StepKind::Leave(A),
                StepKind::Commit(B),
                StepKind::Leave(B),
                StepKind::Commit(C),
                StepKind::Leave(C),
            ]),
            Step::Settle(0),
        ],
    },
    Row {
        shows: "a full list of the hand-off leaves a job with its owner",
        numbers: Numbers {
            workers: 3,
            handoff: 1,
            ..NUMBERS
        },
        units: CALM,
        is_refused: false,
        steps: &[
            Step::Send(0, READY),
            Step::Send(1, READY),
            Step::Run(
                &[
                    Move::Fetch(2),
                    Move::Enter(2),
                    Move::Fetch(2),
                    Move::Enter(2),
                    Move::Put(1),
                    Move::Put(0),
                    Move::Put(0),
                    Move::Put(0),
                    Move::Take(0),
                    Move::Take(3),
                    Move::Take(1),
                    Move::Take(2),
                    Move::Commit(0),
                    Move::Commit(1),
                    Move::Commit(2),
                ],
                9,
            ),
            Step::Run(
                &[
                    Move::Answer(1),
                    Move::Leave(1),
                    Move::Answer(0),
                    Move::Leave(0),
                ],
                4,
            ),
            Step::History(&[
                StepKind::Enter(A),
                StepKind::Enter(B),
                StepKind::Commit(B),
                StepKind::Commit(A),
                StepKind::Leave(A),
                StepKind::Leave(B),
            ]),
            Step::Settle(0),
        ],
    },
    Row {
        shows: "a job that its owner kept takes no step to be taken",
        numbers: Numbers {
            workers: 3,
            handoff: 1,
            ..NUMBERS
        },
        units: CALM,
        is_refused: false,
        steps: &[
            Step::Send(0, READY),
            Step::Send(1, READY),
            Step::Run(
                &[
                    Move::Fetch(2),
                    Move::Enter(2),
                    Move::Fetch(2),
                    Move::Enter(2),
                    Move::Put(0),
                    Move::Put(0),
                ],
                6,
            ),
            Step::Settle(7),
            Step::History(&[
                StepKind::Enter(A),
                StepKind::Enter(B),
                StepKind::Commit(B),
                StepKind::Leave(B),
                StepKind::Commit(A),
                StepKind::Leave(A),
            ]),
        ],
    },
];
