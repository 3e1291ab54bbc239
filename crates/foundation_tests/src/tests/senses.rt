//! Sense data.

use super::{Row, all_hold};
use sense::{Sense, SenseFormat};

/// Sense data, and its bytes in the fixed format.
#[derive(Drop)]
struct Fixed(Sense, [u8; 18]);

impl Row for Fixed {
    fn holds(&self) -> bool {
        self.0.to_fixed() == self.1
    }
}

#[test]
fn fixed_format(rt: HostRuntime) {
    let rows = [
        Fixed(
            Sense::NO_SENSE,
            [0x70, 0, 0, 0, 0, 0, 0, 0x0a, 0, 0, 0, 0, 0, 0, 0, 0, 0, 0],
        ),
        Fixed(
            Sense::INVALID_OPCODE,
            [
                0x70, 0, 5, 0, 0, 0, 0, 0x0a, 0, 0, 0, 0, 0x20, 0, 0, 0, 0, 0,
            ],
        ),
        Fixed(
            Sense::unit_attention(0x29, 0x03),
            [
                0x70, 0, 6, 0, 0, 0, 0, 0x0a, 0, 0, 0, 0, 0x29, 3, 0, 0, 0, 0,
            ],
        ),
        Fixed(
            Sense::miscompare(0x0102_0304),
            [
                0xf0, 0, 0x0e, 1, 2, 3, 4, 0x0a, 0, 0, 0, 0, 0x1d, 0, 0, 0, 0, 0,
            ],
        ),
        Fixed(
            Sense::miscompare(700),
            [
                0xf0, 0, 0x0e, 0, 0, 2, 0xbc, 0x0a, 0, 0, 0, 0, 0x1d, 0, 0, 0, 0, 0,
            ],
        ),
        Fixed(
            Sense::miscompare(0),
            [
                0xf0, 0, 0x0e, 0, 0, 0, 0, 0x0a, 0, 0, 0, 0, 0x1d, 0, 0, 0, 0, 0,
            ],
        ),
    ];
    all_hold(&rt, &rows);
}

/// Sense data, and its bytes in the descriptor format.
struct Descriptor(Sense, &'static [u8]);

impl Row for Descriptor {
    fn holds(&self) -> bool {
        self.0.to_descriptor().as_slice() == self.1
    }
}

static DESCRIPTOR: [Descriptor; 3] = [
    Descriptor(Sense::NO_SENSE, b"\x72\x00\x00\x00\x00\x00\x00\x00"),
    Descriptor(Sense::INVALID_OPCODE, b"\x72\x05\x20\x00\x00\x00\x00\x00"),
    Descriptor(
        Sense::LOGICAL_UNIT_NOT_SUPPORTED,
        b"\x72\x05\x25\x00\x00\x00\x00\x00",
    ),
];

#[test]
fn descriptor_format(rt: HostRuntime) {
    all_hold(&rt, &DESCRIPTOR);
    let attention = Sense::unit_attention(0x29, 0x03).to_descriptor();
    assert!(rt; attention.as_slice() == [0x72, 0x06, 0x29, 0x03, 0, 0, 0, 0].as_slice());
    let miscompare = Sense::miscompare(0x0102_0304).to_descriptor();
    let wanted = [
        0x72, 0x0e, 0x1d, 0, 0, 0, 0, 0x0c, 0x00, 0x0a, 0x80, 0x00, 0, 0, 0, 0, 1, 2, 3, 4,
    ];
    assert!(rt; miscompare.as_slice() == wanted.as_slice());
}

/// Sense data of an illegal request, and its additional sense code.
struct Illegal(Sense, u8);

impl Row for Illegal {
    fn holds(&self) -> bool {
        let wanted = Sense {
            key: 5,
            asc: self.1,
            ascq: 0,
            format: SenseFormat::Fixed,
            information: None,
        };
        self.0 == wanted
    }
}

static ILLEGAL: [Illegal; 7] = [
    Illegal(Sense::PARAMETER_LIST_LENGTH_ERROR, 0x1a),
    Illegal(Sense::INVALID_OPCODE, 0x20),
    Illegal(Sense::LBA_OUT_OF_RANGE, 0x21),
    Illegal(Sense::INVALID_FIELD_IN_CDB, 0x24),
    Illegal(Sense::LOGICAL_UNIT_NOT_SUPPORTED, 0x25),
    Illegal(Sense::INVALID_FIELD_IN_PARAMETER_LIST, 0x26),
    Illegal(Sense::INVALID_MESSAGE_ERROR, 0x49),
];

#[test]
fn codes_of_illegal_requests(rt: HostRuntime) {
    all_hold(&rt, &ILLEGAL);
}
