//! Reads the bytes of a request.

ghost use Rattle.std.specs.Prelude.{◌≡◌};
ghost use Rattle.scsi_codec.specs.Requests.{ReadsRequest, reading};

use crate::lun::{Address, read_lun_field};
use crate::responses::RESPONSE_BYTES;
use byteorder::{ByteOrder, LittleEndian};
use std::fmt;

/// The bytes of a request before its data out.
pub const REQUEST_BYTES: usize = 51;

/// The bytes of a command descriptor block, as the field `cdb_size` has them (VIRTIO 1.2 §5.6.4).
pub const CDB_BYTES: usize = 32;

/// A request without its data out (VIRTIO 1.2 §5.6.6.1), and without `prio` and `crn`, which this
/// device ignores.
#[derive(Clone, Copy, Debug, PartialEq, Eq)]
pub struct Request {
    /// The logical unit that it is for.
    pub address: Address,
    /// The driver's identifier of the command.
    pub id: u64,
    /// The task attribute as it stands: SIMPLE is 0, ORDERED 1, HEAD OF QUEUE 2, ACA 3.
    pub attribute: u8,
    /// The command descriptor block, with what follows it in its field.
    pub cdb: [u8; CDB_BYTES],
}

/// The cause for which a chain of a request queue holds no request.
#[derive(Clone, Copy, Debug, PartialEq, Eq)]
pub enum CodecFault {
    /// There are fewer than 51 readable bytes.
    ShortRequest = 1,
    /// There are fewer than 108 writable bytes.
    ShortResponse = 2,
    /// The first eight bytes name no logical unit in a form that is read.
    BadAddress = 3,
}

impl fmt::Display for CodecFault {
    fn fmt<W: fmt::Write>(&self, f: &mut fmt::Formatter<W>) -> fmt::Result {
        match self {
            CodecFault::ShortRequest => f.write_str("request shorter than 51 bytes"),
            CodecFault::ShortResponse => f.write_str("response area shorter than 108 bytes"),
            CodecFault::BadAddress => f.write_str("unreadable logical unit number"),
        }
    }
}

impl std::error::Error for CodecFault {}

/// Reads a request (VIRTIO 1.2 §5.6.6.1) from the first readable bytes of a chain that has
/// `writable_len` writable bytes. Its data out are the bytes from [`REQUEST_BYTES`] on, which the
/// caller borrows.
///
/// The first that holds is the refusal: [`CodecFault::ShortResponse`] below 108 writable bytes,
/// [`CodecFault::ShortRequest`] below 51 readable bytes, [`CodecFault::BadAddress`] where
/// [`read_lun`](crate::read_lun) reads no address from the first eight.
pub fn read_request(bytes: &[u8], writable_len: u64) -> Result<Request, CodecFault>
    ensures reads { ReadsRequest bytes.now writable_len result }
    ensures value { result ≡ reading bytes.now writable_len }
{
    if writable_len < RESPONSE_BYTES as u64 {
        return Err(CodecFault::ShortResponse);
    }
    if bytes.len() < REQUEST_BYTES {
        return Err(CodecFault::ShortRequest);
    }
    let Some(address) = read_lun_field(&bytes[..8]) else {
        return Err(CodecFault::BadAddress);
    };
    let mut cdb = [0; CDB_BYTES];
    cdb.copy_from_slice(&bytes[19..REQUEST_BYTES]);
    Ok(Request {
        address,
        id: LittleEndian::read_u64(&bytes[8..]),
        attribute: bytes[16],
        cdb,
    })
}
