//! The guest's requests, and their addresses in memory.

ghost use Rattle.std.specs.Prelude.{◌<◌, ◌^◌};

use crate::work::{Kind, RESPONSE_BYTES, Work};
use ring_core::Form;

/// The address of the responses, which lie one behind the other.
const RESPONSES: u64 = 0x2_0000;

/// The address of the requests, each with its data in an area of its own.
const AREAS: u64 = 0x3_0000;

/// The bytes of an area, and where the data begin in it.
const AREA: u64 = 0x1_1000;

const DATA: u64 = 0x1000;

/// The data of a request, with their bytes.
#[derive(Clone, Copy)]
pub(crate) enum Data {
    Absent,
    /// Those that the device reads.
    Out(u32),
    /// Those that the device writes.
    In(u32),
}

impl Kind {
    /// Returns its operation code.
    fn opcode(self) -> u8 {
        match self {
            Kind::Read512 | Kind::Read64k => 0x28,
            Kind::Write512 | Kind::Write64k => 0x2a,
            Kind::Ready => 0,
        }
    }

    /// Returns its data.
    pub(crate) fn data(self) -> Data {
        let bytes = 512 * u32::from(self.blocks());
        match self {
            Kind::Write512 | Kind::Write64k => Data::Out(bytes),
            Kind::Read512 | Kind::Read64k => Data::In(bytes),
            Kind::Ready => Data::Absent,
        }
    }

    /// Returns how many descriptors its chain has.
    pub(crate) fn parts(self) -> u16 {
        match self.data() {
            Data::Absent => 2,
            Data::Out(_) | Data::In(_) => 3,
        }
    }
}

impl Work {
    /// Returns in how many sets its requests are made available again: two, where there are two.
    pub(crate) fn sets(&self) -> u16 {
        if self.depth > 1 { 2 } else { 1 }
    }

    /// Returns the requests of a set.
    pub(crate) fn of_set(&self) -> u16 {
        if self.depth > 1 {
            self.depth / 2
        } else {
            self.depth
        }
    }

    /// Returns the number of the first request of a set among those of a unit, and of the one behind its last.
    pub(crate) fn first_of(&self, set: u16) -> u16 {
        self.of_set().wrapping_mul(set)
    }

    /// Returns how many descriptors a queue has: of a split one a power of two, and of a packed one as many as one
    /// round takes.
    pub(crate) fn slots(&self) -> u16 {
        let of_each = match self.form {
            Form::Split => 4,
            Form::Packed => self.kind.parts(),
        };
        self.depth.wrapping_mul(of_each)
    }
}

/// Returns where the request lies that has this number among those of a unit.
pub(crate) fn request_at(work: &Work, lun: u8, number: u16) -> u64
    ensures { result < 2 ^ 42 }
{
    let before = u64::from(lun) * u64::from(work.depth) + u64::from(number);
    AREAS + before * AREA
}

/// Returns where its data lie, or go.
pub(crate) fn data_at(work: &Work, lun: u8, number: u16) -> u64 {
    request_at(work, lun, number) + DATA
}

/// Returns where its response goes: behind those before it.
pub(crate) fn response_at(work: &Work, lun: u8, number: u16) -> u64 {
    let before = u64::from(lun) * u64::from(work.depth) + u64::from(number);
    RESPONSES + before * u64::from(RESPONSE_BYTES)
}

/// Returns the bytes of a request before its data: SIMPLE, and on blocks of its own.
pub(crate) fn request_of(kind: Kind, lun: u8, number: u16) -> [u8; 51] {
    let mut bytes = [0; 51];
    bytes[0] = 1;
    bytes[2] = 0x40;
    bytes[3] = lun;
    bytes[8..10].copy_from_slice(&number.to_le_bytes());
    bytes[19] = kind.opcode();
    let first = number.wrapping_mul(kind.blocks());
    bytes[23..25].copy_from_slice(&first.to_be_bytes());
    bytes[26..28].copy_from_slice(&kind.blocks().to_be_bytes());
    bytes
}
