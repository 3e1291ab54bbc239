//! Requests and their responses: bytes worked out by hand from the layouts.

use super::{Row, all_hold};
use arrayvec::ArrayVec;
use scsi_codec::{
    Address, CodecFault, MOST_SENSE_BYTES, REQUEST_BYTES, Request, Response, ResponseCode,
    read_request, write_response,
};

/// WRITE(10) of one block at 5 on unit 1:2, ordered, and the first two bytes of its data.
const WRITE_REQUEST: [u8; 53] = [
    0x01, 0x01, 0x00, 0x02, 0x00, 0x00, 0x00, 0x00, // lun
    0xef, 0xcd, 0xab, 0x89, 0x67, 0x45, 0x23, 0x01, // id
    0x01, 0x07, 0x09, // task_attr, prio, crn
    0x2a, 0x00, 0x00, 0x00, 0x00, 0x05, 0x00, 0x00, 0x01, 0x00, // cdb
    0, 0, 0, 0, 0, 0, 0, 0, 0, 0, 0, 0, 0, 0, 0, 0, 0, 0, 0, 0, 0, 0, 0xa5, 0x5a,
];

/// The request that is read of it.
const WRITE: Request = Request {
    address: Address { target: 1, lun: 2 },
    id: 0x0123_4567_89ab_cdef,
    attribute: 1,
    cdb: [
        0x2a, 0x00, 0x00, 0x00, 0x00, 0x05, 0x00, 0x00, 0x01, 0x00, 0, 0, 0, 0, 0, 0, 0, 0, 0, 0,
        0, 0, 0, 0, 0, 0, 0, 0, 0, 0, 0, 0,
    ],
};

/// The same request with another form of address.
const BAD_ADDRESS: [u8; 53] = [
    0x01, 0x01, 0x80, 0x02, 0x00, 0x00, 0x00, 0x00, // lun
    0xef, 0xcd, 0xab, 0x89, 0x67, 0x45, 0x23, 0x01, // id
    0x01, 0x07, 0x09, // task_attr, prio, crn
    0x2a, 0x00, 0x00, 0x00, 0x00, 0x05, 0x00, 0x00, 0x01, 0x00, // cdb
    0, 0, 0, 0, 0, 0, 0, 0, 0, 0, 0, 0, 0, 0, 0, 0, 0, 0, 0, 0, 0, 0, 0xa5, 0x5a,
];

/// Bytes, how many of them are read of a chain of so many writable bytes, and what is found.
struct Reads([u8; 53], usize, u64, Result<Request, CodecFault>);

impl Row for Reads {
    fn holds(&self) -> bool {
        self.1 <= 53 && read_request(&self.0[..self.1], self.2) == self.3
    }
}

static READ: [Reads; 8] = [
    Reads(WRITE_REQUEST, 53, 108, Ok(WRITE)),
    Reads(WRITE_REQUEST, 51, 4096, Ok(WRITE)),
    Reads(WRITE_REQUEST, 53, 107, Err(CodecFault::ShortResponse)),
    Reads(WRITE_REQUEST, 50, 108, Err(CodecFault::ShortRequest)),
    Reads(WRITE_REQUEST, 0, 0, Err(CodecFault::ShortResponse)),
    Reads(BAD_ADDRESS, 53, 108, Err(CodecFault::BadAddress)),
    Reads(BAD_ADDRESS, 50, 108, Err(CodecFault::ShortRequest)),
    Reads(BAD_ADDRESS, 53, 107, Err(CodecFault::ShortResponse)),
];

#[test]
fn requests(rt: HostRuntime) {
    all_hold(&rt, &READ);
    let data = &WRITE_REQUEST[REQUEST_BYTES..];
    assert!(rt; data == [0xa5, 0x5a].as_slice());
}

/// The code, status and residual of a response, its sense if it has any, and its bytes.
struct Writes(ResponseCode, u8, u32, Option<&'static [u8]>, [u8; 108]);

/// Returns sense as a response has it, if there is any and it isn't too long.
fn sense_of(bytes: Option<&'static [u8]>) -> Option<ArrayVec<u8, MOST_SENSE_BYTES>> {
    let bytes = bytes?;
    let mut sense = ArrayVec::new();
    match sense.try_extend_from_slice(bytes) {
        Ok(()) => Some(sense),
        Err(_) => None,
    }
}

impl Row for Writes {
    fn holds(&self) -> bool {
        let Writes(code, status, residual, sense, bytes) = *self;
        let response = Response {
            code,
            status,
            residual,
            sense: sense_of(sense),
        };
        write_response(&response) == bytes
    }
}

/// A CHECK CONDITION with sense in either format, and a response to a request for a target that isn't there.
static WRITTEN: [Writes; 3] = [
    Writes(
        ResponseCode::Ok,
        0x02,
        0x0102_0304,
        Some(b"\x70\x00\x05\x00\x00\x00\x00\x0a\x00\x00\x00\x00\x24\x00\x00\x00\x00\xff"),
        [
            0x12, 0x00, 0x00, 0x00, // sense_len
            0x04, 0x03, 0x02, 0x01, // residual
            0x00, 0x00, 0x02, 0x00, // status_qualifier, status, response
            0x70, 0, 0x05, 0, 0, 0, 0, 0x0a, 0, 0, 0, 0, 0x24, 0, 0, 0, 0, 0xff, // sense
            0, 0, 0, 0, 0, 0, 0, 0, 0, 0, 0, 0, 0, 0, 0, 0, 0, 0, 0, 0, 0, 0, 0, 0, 0, 0, //
            0, 0, 0, 0, 0, 0, 0, 0, 0, 0, 0, 0, 0, 0, 0, 0, 0, 0, 0, 0, 0, 0, 0, 0, 0, 0, //
            0, 0, 0, 0, 0, 0, 0, 0, 0, 0, 0, 0, 0, 0, 0, 0, 0, 0, 0, 0, 0, 0, 0, 0, 0, 0,
        ],
    ),
    Writes(
        ResponseCode::Ok,
        0x02,
        0x200,
        Some(b"\x72\x05\x21\x00\x00\x00\x00\x00"),
        [
            0x08, 0x00, 0x00, 0x00, // sense_len
            0x00, 0x02, 0x00, 0x00, // residual
            0x00, 0x00, 0x02, 0x00, // status_qualifier, status, response
            0x72, 0x05, 0x21, 0, 0, 0, 0, 0, // sense
            0, 0, 0, 0, 0, 0, 0, 0, 0, 0, 0, 0, 0, 0, 0, 0, 0, 0, 0, 0, 0, 0, 0, 0, 0, 0, 0, 0, //
            0, 0, 0, 0, 0, 0, 0, 0, 0, 0, 0, 0, 0, 0, 0, 0, 0, 0, 0, 0, 0, 0, 0, 0, 0, 0, 0, 0, //
            0, 0, 0, 0, 0, 0, 0, 0, 0, 0, 0, 0, 0, 0, 0, 0, 0, 0, 0, 0, 0, 0, 0, 0, 0, 0, 0, 0, //
            0, 0, 0, 0,
        ],
    ),
    Writes(
        ResponseCode::BadTarget,
        0,
        0,
        None,
        [
            0, 0, 0, 0, 0, 0, 0, 0, 0, 0, 0, 3, // response
            0, 0, 0, 0, 0, 0, 0, 0, 0, 0, 0, 0, 0, 0, 0, 0, 0, 0, 0, 0, 0, 0, 0, 0, 0, 0, 0, 0, //
            0, 0, 0, 0, 0, 0, 0, 0, 0, 0, 0, 0, 0, 0, 0, 0, 0, 0, 0, 0, 0, 0, 0, 0, 0, 0, 0, 0, //
            0, 0, 0, 0, 0, 0, 0, 0, 0, 0, 0, 0, 0, 0, 0, 0, 0, 0, 0, 0, 0, 0, 0, 0, 0, 0, 0, 0, //
            0, 0, 0, 0, 0, 0, 0, 0, 0, 0, 0, 0,
        ],
    ),
];

#[test]
fn responses(rt: HostRuntime) {
    all_hold(&rt, &WRITTEN);
}
