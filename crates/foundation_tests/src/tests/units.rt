//! Addresses of logical units, worked out by hand.

use super::{Row, all_hold};
use scsi_codec::{Address, read_lun, write_lun};

/// The bytes of an address, and what is read of them.
struct Reads([u8; 8], Option<Address>);

impl Row for Reads {
    fn holds(&self) -> bool {
        read_lun(&self.0) == self.1
    }
}

static READ: [Reads; 11] = [
    Reads(
        [0x01, 0x01, 0x00, 0x02, 0, 0, 0, 0],
        Some(Address { target: 1, lun: 2 }),
    ),
    Reads(
        [0x01, 0x00, 0x41, 0x2c, 0, 0, 0, 0],
        Some(Address {
            target: 0,
            lun: 300,
        }),
    ),
    Reads(
        [0x01, 0x05, 0x40, 0x07, 0, 0, 0, 0],
        Some(Address { target: 5, lun: 7 }),
    ),
    Reads(
        [0x01, 0xff, 0x7f, 0xff, 0, 0, 0, 0],
        Some(Address {
            target: 255,
            lun: 16383,
        }),
    ),
    Reads([0x00, 0x01, 0x00, 0x02, 0, 0, 0, 0], None),
    Reads([0x02, 0x01, 0x00, 0x02, 0, 0, 0, 0], None),
    Reads([0x01, 0x01, 0x01, 0x02, 0, 0, 0, 0], None),
    Reads([0x01, 0x01, 0x3f, 0x02, 0, 0, 0, 0], None),
    Reads([0x01, 0x01, 0x80, 0x02, 0, 0, 0, 0], None),
    Reads([0x01, 0x01, 0x00, 0x02, 1, 0, 0, 0], None),
    Reads([0x01, 0x01, 0x41, 0x02, 0, 0, 0, 1], None),
];

/// A target, a LUN, and the bytes of their address.
struct Writes(u8, u16, [u8; 8]);

impl Row for Writes {
    fn holds(&self) -> bool {
        let Writes(target, lun, bytes) = *self;
        lun < 16384 && write_lun(&Address { target, lun }) == bytes
    }
}

static WRITTEN: [Writes; 6] = [
    Writes(1, 2, [0x01, 0x01, 0x00, 0x02, 0, 0, 0, 0]),
    Writes(3, 0, [0x01, 0x03, 0x00, 0x00, 0, 0, 0, 0]),
    Writes(3, 255, [0x01, 0x03, 0x00, 0xff, 0, 0, 0, 0]),
    Writes(3, 256, [0x01, 0x03, 0x41, 0x00, 0, 0, 0, 0]),
    Writes(0, 300, [0x01, 0x00, 0x41, 0x2c, 0, 0, 0, 0]),
    Writes(255, 16383, [0x01, 0xff, 0x7f, 0xff, 0, 0, 0, 0]),
];

#[test]
fn addresses(rt: HostRuntime) {
    all_hold(&rt, &READ);
    all_hold(&rt, &WRITTEN);
}
