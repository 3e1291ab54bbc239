//! The bytes that answer a request.

ghost use Rattle.std.specs.Prelude.{◌≡◌, ◌+◌, ◌≤◌, ◌^◌, Some};
ghost use Rattle.scsi_codec.specs.Responses.{response_bytes};
ghost use Rattle.request_intake.specs.Answers.{ok_bytes, sense_data};

use scsi_codec::{REQUEST_BYTES, RESPONSE_BYTES, Response, ResponseCode, put_response};
use sense::Sense;

/// The lengths of a chain: the bytes that can be read, and those that can be written.
#[derive(Clone, Copy)]
pub struct ChainLengths {
    /// All readable bytes.
    pub readable: u64,
    /// All writable bytes.
    pub writable: u64,
}

/// Returns the bytes of response OK to a request in a chain of these lengths (VIRTIO 1.2 §5.6.6.1). They hold the
/// status of its command, its sense if there is any, and as residual the data bytes that weren't moved.
pub fn response_ok(
    lengths: &ChainLengths,
    status: u8,
    sense: Option<Sense>,
    moved: u32,
) -> [u8; RESPONSE_BYTES]
    requires sum { lengths.now.readable + lengths.now.writable ≤ 2 ^ 32 }
    requires room { RESPONSE_BYTES ≤ lengths.now.writable }
    ensures { result ≡ ok_bytes lengths.now status sense moved }
{
    let mut bytes = [0; RESPONSE_BYTES];
    put_response_ok(&mut bytes, lengths, status, sense, moved);
    bytes
}

/// Puts the bytes of response OK where they are to stand, as [`response_ok`] makes them: an array that is returned is
/// copied.
#[inline(always)]
pub fn put_response_ok(
    bytes: &mut [u8; RESPONSE_BYTES],
    lengths: &ChainLengths,
    status: u8,
    sense: Option<Sense>,
    moved: u32,
)
    requires sum { lengths.now.readable + lengths.now.writable ≤ 2 ^ 32 }
    requires room { RESPONSE_BYTES ≤ lengths.now.writable }
    ensures { bytes.new ≡ ok_bytes lengths.now status sense moved }
{
    let out = lengths.readable.saturating_sub(REQUEST_BYTES as u64);
    let into = lengths.writable - RESPONSE_BYTES as u64;
    let residual = (out + into).saturating_sub(moved as u64) as u32;
    match &sense {
        None => put_response(
            bytes,
            &Response {
                code: ResponseCode::Ok,
                status,
                residual,
                sense: None,
            },
        ),
        Some(sense) => put_with_sense(bytes, status, residual, sense),
    }
}

/// Puts the bytes of response OK with sense where they are to stand.
fn put_with_sense(bytes: &mut [u8; RESPONSE_BYTES], status: u8, residual: u32, sense: &Sense)
    ensures { bytes.new ≡ response_bytes (record {
      code = ResponseCode.Ok;
      status = status;
      residual = residual;
      sense = Some (sense_data sense.now);
    }) }
{
    put_response(
        bytes,
        &Response {
            code: ResponseCode::Ok,
            status,
            residual,
            sense: Some(sense.sent()),
        },
    );
}
