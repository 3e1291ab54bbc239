//! Laws that follow from the definitions alone.

ghost use Rattle.std.specs.Prelude.{◌≡◌, ◌≤◌, ◌<◌, ◌^◌, ◌↔◌, ◌≢◌, ℕ, List, length, Option, Result, Some, IfSome};
ghost use Rattle.scsi_codec.specs.Lun.{AreBytes, IsAddress, ReadsAddress, written_address, HasReadableForm};
ghost use Rattle.scsi_codec.specs.Requests.{IsRequest, HoldsRequest, IsRefused, ReadsRequest, reading};
ghost use Rattle.scsi_codec.specs.Responses.{response_bytes, sense_area, IsResponse};
ghost use Rattle.arrayvec.specs.ArrayVec.{array_vec_len};
ghost use Rattle.scsi_codec.specs.ControlQueue.{IsControl};
ghost use Rattle.scsi_codec.specs.EventQueue.{IsEvent, event_bytes, no_event, transport_reset, param_change, events_missed};
ghost use Rattle.scsi_codec.specs.declared.lun.Address.{Address};
ghost use Rattle.scsi_codec.specs.declared.requests.Request.{Request};
ghost use Rattle.scsi_codec.specs.declared.requests.CodecFault.{CodecFault};
ghost use Rattle.scsi_codec.specs.declared.responses.Response.{Response};
ghost use Rattle.scsi_codec.specs.declared.control_queue.Control.{Control};
ghost use Rattle.scsi_codec.specs.declared.event_queue.Event.{Event};

use crate::event_queue::{EVENT_BYTES, EVENTS_MISSED, NO_EVENT, PARAM_CHANGE, TRANSPORT_RESET};
use crate::requests::read_request;
use crate::responses::{MOST_SENSE_BYTES, RESPONSE_BYTES, SENSE_AREA_BYTES};

/// Bytes name at most one unit, of a LUN below 16,384.
pub fn one_address()
    ensures in_range { (bytes : List ℕ) (a : Address) → IsAddress bytes a → a.lun < 16384 }
    ensures one { (bytes : List ℕ) (a b : Address) → IsAddress bytes a → IsAddress bytes b → a ≡ b }
{}

/// Bytes name a unit exactly where they have one of the two readable forms.
pub fn readable_forms()
    ensures { (bytes : List ℕ) → AreBytes bytes
        → (HasReadableForm bytes ↔ ((a : Address) × IsAddress bytes a)) }
{}

/// The bytes that are written of a unit are read as that unit.
pub fn written_reads_back()
    ensures readable { (a : Address) → a.lun < 16384 → IsAddress (written_address a) a }
    ensures back { (a : Address) (read : Option Address) → a.lun < 16384
        → ReadsAddress (written_address a) read → read ≡ Some a }
{}

/// Bytes are at most one request, with one data out.
pub fn one_request()
    ensures { (bytes : List ℕ) (a b : Request) (x y : List ℕ)
        → IsRequest bytes a x → IsRequest bytes b y → (a ≡ b) × (x ≡ y) }
{}

/// A chain is refused only where it holds no request with room for its response, and but for want
/// of that room only where its bytes are no request.
pub fn refused_holds_none()
    ensures holds_none { (bytes : List ℕ) (len : ℕ) (fault : CodecFault) (r : Request)
        → IsRefused bytes len fault → ¬ HoldsRequest bytes len r }
    ensures unread { (bytes : List ℕ) (len : ℕ) (fault : CodecFault) (r : Request) (x : List ℕ)
        → IsRefused bytes len fault → fault ≢ CodecFault.ShortResponse → ¬ IsRequest bytes r x }
{}

/// A chain reads as exactly one thing: a request, or a fault.
pub fn one_reading()
    ensures some { (bytes : List ℕ) (len : ℕ) → AreBytes bytes
        → (a : Result Request CodecFault) × ReadsRequest bytes len a }
    ensures one { (bytes : List ℕ) (len : ℕ) (a b : Result Request CodecFault)
        → ReadsRequest bytes len a → ReadsRequest bytes len b → a ≡ b }
{}

/// A chain reads as what its bytes say, place by place.
pub fn reading_is(bytes: &[u8], writable_len: u64)
    ensures { ReadsRequest bytes.now writable_len (reading bytes.now writable_len) }
{
    let _ = read_request(bytes, writable_len);
}

/// A response has 108 bytes, 96 of them for sense, and is known by them.
pub fn one_response()
    ensures whole { (r : Response) → IfSome r.sense (λ sense. array_vec_len sense ≤ MOST_SENSE_BYTES)
        → length (response_bytes r) ≡ RESPONSE_BYTES }
    ensures area { (r : Response) → IfSome r.sense (λ sense. array_vec_len sense ≤ MOST_SENSE_BYTES)
        → length (sense_area r.sense) ≡ SENSE_AREA_BYTES }
    ensures one { (a b : Response) → IsResponse a → IsResponse b → response_bytes a ≡ response_bytes b → a ≡ b }
{}

/// The bytes of a chain of the control queue ask for exactly one thing.
pub fn one_control()
    ensures some { (bytes : List ℕ) → AreBytes bytes → (a : Control) × IsControl bytes a }
    ensures one { (bytes : List ℕ) (a b : Control) → IsControl bytes a → IsControl bytes b → a ≡ b }
{}

/// An event has 16 bytes, and is known by them.
pub fn one_event()
    ensures whole { (e : Event) → length (event_bytes e) ≡ EVENT_BYTES }
    ensures one { (a b : Event) → IsEvent a → IsEvent b → event_bytes a ≡ event_bytes b → a ≡ b }
{}

/// Each constant is the event of its name.
pub fn event_numbers()
    ensures none { NO_EVENT ≡ no_event }
    ensures reset { TRANSPORT_RESET ≡ transport_reset }
    ensures change { PARAM_CHANGE ≡ param_change }
    ensures missed { EVENTS_MISSED ≡ events_missed }
{}
