//! Functions of the control queue and events: bytes worked out by hand from the layouts.

use super::{Row, all_hold};
use scsi_codec::{
    Address, Control, EVENTS_MISSED, Event, FunctionResponse, NO_EVENT, PARAM_CHANGE, ResponseCode,
    TRANSPORT_RESET, read_control, write_control, write_event, write_notification,
};

/// The identifier that they name.
const ID: u64 = 0x0102_0304_0506_0708;

/// A control request, what is read of it, and how many bytes its answer has.
struct Reads(&'static [u8], Control, usize);

impl Row for Reads {
    fn holds(&self) -> bool {
        let found = read_control(self.0);
        found == self.1 && found.answer_len() == self.2
    }
}

/// The first is LOGICAL UNIT RESET of unit 0:9.
static READ: [Reads; 12] = [
    Reads(
        b"\0\0\0\0\x05\0\0\0\x01\0\0\x09\0\0\0\0\x08\x07\x06\x05\x04\x03\x02\x01",
        Control::TaskManagement {
            subtype: 5,
            address: Some(Address { target: 0, lun: 9 }),
            id: ID,
        },
        1,
    ),
    Reads(
        b"\0\0\0\0\x05\0\0\0\x01\0\0\x09\0\0\0\0\x08\x07\x06\x05\x04\x03\x02",
        Control::MalformedFunction,
        1,
    ),
    Reads(b"\0\0\0", Control::MalformedFunction, 1),
    // An address that isn't readable.
    Reads(
        b"\0\0\0\0\x05\0\0\0\0\0\0\x09\0\0\0\0\x08\x07\x06\x05\x04\x03\x02\x01",
        Control::TaskManagement {
            subtype: 5,
            address: None,
            id: ID,
        },
        1,
    ),
    // Types that aren't known.
    Reads(
        b"\0\0\0\x01\x05\0\0\0\0\0\0\x09\0\0\0\0\x08\x07\x06\x05\x04\x03\x02\x01",
        Control::MalformedFunction,
        1,
    ),
    Reads(
        b"\x03\0\0\0\x05\0\0\0\x01\0\0\x09\0\0\0\0\x08\x07\x06\x05\x04\x03\x02\x01",
        Control::MalformedFunction,
        1,
    ),
    Reads(
        b"\x01\0\0\0\x05\0\0\0\x01\0\0\x09\0\0\0\0",
        Control::AsynchronousNotification,
        5,
    ),
    Reads(
        b"\x01\0\0\0\x05\0\0\0\x01\0\0\x09\0\0\0",
        Control::MalformedNotification,
        5,
    ),
    Reads(b"\x01\0\0\0", Control::MalformedNotification, 5),
    Reads(
        b"\x02\0\0\0\x05\0\0\0\x01\0\0\x09\0\0\0\0",
        Control::AsynchronousNotification,
        5,
    ),
    Reads(
        b"\x02\0\0\0\x05\0\0\0\x01\0\0\x09\0\0\0",
        Control::MalformedNotification,
        5,
    ),
    Reads(b"\x02\0\0\0", Control::MalformedNotification, 5),
];

/// The answer to a function, and its byte.
struct Answers(FunctionResponse, u8);

impl Row for Answers {
    fn holds(&self) -> bool {
        write_control(self.0) == [self.1]
    }
}

static ANSWERED: [Answers; 6] = [
    Answers(FunctionResponse::Complete, 0),
    Answers(FunctionResponse::BadTarget, 3),
    Answers(FunctionResponse::Failure, 9),
    Answers(FunctionResponse::Succeeded, 10),
    Answers(FunctionResponse::Rejected, 11),
    Answers(FunctionResponse::IncorrectLun, 12),
];

/// The answer to a notification, and the last of its bytes.
struct Notifies(ResponseCode, u8);

impl Row for Notifies {
    fn holds(&self) -> bool {
        write_notification(0x0403_0201, self.0) == [1, 2, 3, 4, self.1]
    }
}

static NOTIFIED: [Notifies; 10] = [
    Notifies(ResponseCode::Ok, 0),
    Notifies(ResponseCode::Overrun, 1),
    Notifies(ResponseCode::Aborted, 2),
    Notifies(ResponseCode::BadTarget, 3),
    Notifies(ResponseCode::Reset, 4),
    Notifies(ResponseCode::Busy, 5),
    Notifies(ResponseCode::TransportFailure, 6),
    Notifies(ResponseCode::TargetFailure, 7),
    Notifies(ResponseCode::NexusFailure, 8),
    Notifies(ResponseCode::Failure, 9),
];

#[test]
fn functions(rt: HostRuntime) {
    all_hold(&rt, &READ);
    all_hold(&rt, &ANSWERED);
    all_hold(&rt, &NOTIFIED);
}

/// An event, and its bytes.
struct Tells(Event, [u8; 16]);

impl Row for Tells {
    fn holds(&self) -> bool {
        let is_small = match &self.0.address {
            Some(address) => address.lun < 16384,
            None => true,
        };
        is_small && write_event(&self.0) == self.1
    }
}

static TOLD: [Tells; 3] = [
    Tells(
        Event {
            event: TRANSPORT_RESET,
            address: Some(Address { target: 0, lun: 0 }),
            reason: 0,
        },
        [0x01, 0, 0, 0, 0x01, 0, 0, 0, 0, 0, 0, 0, 0, 0, 0, 0],
    ),
    Tells(
        Event {
            event: PARAM_CHANGE,
            address: Some(Address {
                target: 2,
                lun: 300,
            }),
            reason: 0x092a,
        },
        [
            0x03, 0, 0, 0, 0x01, 0x02, 0x41, 0x2c, 0, 0, 0, 0, 0x2a, 0x09, 0, 0,
        ],
    ),
    Tells(
        Event {
            event: NO_EVENT | EVENTS_MISSED,
            address: None,
            reason: 0,
        },
        [0, 0, 0, 0x80, 0, 0, 0, 0, 0, 0, 0, 0, 0, 0, 0, 0],
    ),
];

#[test]
fn events(rt: HostRuntime) {
    all_hold(&rt, &TOLD);
}
