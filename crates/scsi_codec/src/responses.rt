//! Writes the bytes that answer a request.

ghost use Rattle.std.specs.Prelude.{◌≡◌, ◌≤◌, ◌-◌, ◌++◌, length, replicate};
ghost use Rattle.scsi_codec.specs.Responses.{response_bytes};

use arrayvec::ArrayVec;
use byteorder::{ByteOrder, LittleEndian};

/// The bytes of a response before its data in.
pub const RESPONSE_BYTES: usize = 108;

/// The bytes that a response has for sense, as the field `sense_size` has them (VIRTIO 1.2 §5.6.4).
pub const SENSE_AREA_BYTES: usize = 96;

/// The most bytes of sense in a response: those of the descriptor format with an information descriptor (SPC-4 §4.5.2).
pub const MOST_SENSE_BYTES: usize = 20;

/// The response to a request, beside the status of its command (VIRTIO 1.2 §5.6.6.1).
#[derive(Clone, Copy, Debug, PartialEq, Eq)]
pub enum ResponseCode {
    /// The command ended with the status given, whichever that is.
    Ok = 0,
    /// The command asks for more data than there is room for.
    Overrun = 1,
    /// The command was ended by a task management function that aborts tasks.
    Aborted = 2,
    /// There is no such target.
    BadTarget = 3,
    /// The command was ended by a reset.
    Reset = 4,
    /// The request failed, and may pass when it is tried again.
    Busy = 5,
    /// The connection from the host to the target failed.
    TransportFailure = 6,
    /// The target failed, on every path to it.
    TargetFailure = 7,
    /// The nexus failed, and another path to the target may pass.
    NexusFailure = 8,
    /// Any other failure.
    Failure = 9,
}

/// A response without its data in (VIRTIO 1.2 §5.6.6.1). Its status qualifier is 0.
#[derive(Debug, Drop)]
pub struct Response {
    /// The response to the request.
    pub code: ResponseCode,
    /// The status of the command (SAM-5 §5.3), where the code is `Ok`.
    pub status: u8,
    /// The number of bytes of the data buffers that were not moved.
    pub residual: u32,
    /// The sense, if there is any.
    pub sense: Option<ArrayVec<u8, MOST_SENSE_BYTES>>,
}

/// Makes the bytes of a response before its data in. Past the sense they are zeros.
pub fn write_response(response: &Response) -> [u8; RESPONSE_BYTES]
    ensures { result ≡ response_bytes response.now }
{
    let mut bytes = [0; RESPONSE_BYTES];
    put_response(&mut bytes, response);
    bytes
}

/// Puts the bytes of a response before its data in where they are to stand, as [`write_response`] makes them: an array
/// that is returned is copied.
#[inline(always)]
pub fn put_response(bytes: &mut [u8; RESPONSE_BYTES], response: &Response)
    ensures { bytes.new ≡ response_bytes response.now }
{
    *bytes = [0; RESPONSE_BYTES];
    LittleEndian::write_u32(&mut bytes[4..], response.residual);
    bytes[10] = response.status;
    bytes[11] = response.code as u8;
    if let Some(sense) = &response.sense {
        LittleEndian::write_u32(&mut bytes[0..], sense.len() as u32);
        put_sense(&mut bytes[12..], sense.as_slice());
    }
}

/// Puts sense where a response that has none yet has zeros.
fn put_sense(area: &mut [u8], sense: &[u8])
    requires zeros { area.old ≡ replicate 96 0 }
    requires fits { length sense.now ≤ MOST_SENSE_BYTES }
    ensures { area.new ≡ sense.now ++ replicate (96 - length sense.now) 0 }
{
    area[..sense.len()].copy_from_slice(sense);
}
