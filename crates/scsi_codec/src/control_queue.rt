//! The functions of the control queue, and their answers.

ghost use Rattle.std.specs.Prelude.{◌≡◌};
ghost use Rattle.scsi_codec.specs.ControlQueue.{HasType, IsControl, answer_len, function_bytes, notification_bytes};

use crate::lun::{Address, read_lun_field};
use crate::responses::ResponseCode;
use byteorder::{ByteOrder, LittleEndian};

/// A request on the control queue (VIRTIO 1.2 §5.6.6.2).
#[derive(Clone, Copy, Debug, PartialEq, Eq)]
pub enum Control {
    /// A task management function.
    TaskManagement {
        /// The function's subtype, as it stands.
        subtype: u32,
        /// The unit that it is for, or `None` where the bytes name none.
        address: Option<Address>,
        /// The identifier of the command that it is about, for a function that is about one.
        id: u64,
    },
    /// An asynchronous notification query or subscription. Its address and events are not read.
    AsynchronousNotification,
    /// A task management function of fewer than 24 bytes, a function of an unknown type, or fewer
    /// than 4 bytes. It is answered as a task management function that failed.
    MalformedFunction,
    /// An asynchronous notification query or subscription of fewer than 16 bytes. It is answered as
    /// one that failed.
    MalformedNotification,
}

impl Control {
    /// Returns how many bytes its answer has: 1, which [`write_control`] writes, or 5, which [`write_notification`]
    /// writes.
    pub fn answer_len(&self) -> usize
        ensures { result ≡ answer_len self.now }
    {
        match self {
            Control::TaskManagement { .. } | Control::MalformedFunction => 1,
            Control::AsynchronousNotification | Control::MalformedNotification => 5,
        }
    }
}

/// The answer to a task management function (VIRTIO 1.2 §5.6.6.2).
#[derive(Clone, Copy, Debug, PartialEq, Eq)]
pub enum FunctionResponse {
    /// FUNCTION COMPLETE: the function was done, or a query met no task.
    Complete = 0,
    /// BAD TARGET: there is no such target.
    BadTarget = 3,
    /// FAILURE: the function was malformed, or could not be done.
    Failure = 9,
    /// FUNCTION SUCCEEDED: a query met a task.
    Succeeded = 10,
    /// FUNCTION REJECTED: the device does not offer the function.
    Rejected = 11,
    /// INCORRECT LUN: the target has no such logical unit.
    IncorrectLun = 12,
}

/// Reads what the readable bytes of a chain of the control queue ask for (VIRTIO 1.2 §5.6.6.2). Whatever stands there
/// is one of these: bytes that are too few for their type, or of another type, are malformed.
pub fn read_control(bytes: &[u8]) -> Control
    ensures { IsControl bytes.now result }
{
    if bytes.len() < 4 {
        return Control::MalformedFunction;
    }
    match LittleEndian::read_u32(bytes) {
        0 => read_task_management(bytes),
        1 | 2 if bytes.len() < 16 => Control::MalformedNotification,
        1 | 2 => Control::AsynchronousNotification,
        _ => Control::MalformedFunction,
    }
}

/// Reads a function of type 0.
fn read_task_management(bytes: &[u8]) -> Control
    requires { HasType bytes.now 0 }
    ensures { IsControl bytes.now result }
{
    if bytes.len() < 24 {
        return Control::MalformedFunction;
    }
    Control::TaskManagement {
        subtype: LittleEndian::read_u32(&bytes[4..]),
        address: read_lun_field(&bytes[8..16]),
        id: LittleEndian::read_u64(&bytes[16..]),
    }
}

/// Makes the answer to a task management function, or to a malformed one.
pub fn write_control(response: FunctionResponse) -> [u8; 1]
    ensures { result ≡ function_bytes response }
{
    [response as u8]
}

/// Makes the answer to an asynchronous notification query or subscription: the events that are reported, and the
/// response.
pub fn write_notification(actual: u32, response: ResponseCode) -> [u8; 5]
    ensures { result ≡ notification_bytes actual response }
{
    let mut bytes = [0; 5];
    LittleEndian::write_u32(&mut bytes, actual);
    bytes[4] = response as u8;
    bytes
}
