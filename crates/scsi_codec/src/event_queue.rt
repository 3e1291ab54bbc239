//! Writes the bytes of a buffer of the event queue.

ghost use Rattle.std.specs.Prelude.{◌≡◌, ◌<◌};
ghost use Rattle.std.specs.Option.{ForSome};
ghost use Rattle.scsi_codec.specs.EventQueue.{event_bytes};

use crate::lun::{Address, write_lun};
use byteorder::{ByteOrder, LittleEndian};

/// The bytes of an event.
pub const EVENT_BYTES: usize = 16;

/// No event.
pub const NO_EVENT: u32 = 0;

/// A logical unit or target was reset, added or removed, as the reason says.
pub const TRANSPORT_RESET: u32 = 1;

/// A parameter of a logical unit changed. The reason is its ASC, and its ASCQ times 256.
pub const PARAM_CHANGE: u32 = 3;

/// Events were missed for want of buffers. It may be set beside any of the others.
pub const EVENTS_MISSED: u32 = 0x8000_0000;

/// An event (VIRTIO 1.2 §5.6.6.3).
#[derive(Clone, Copy, Debug)]
pub struct Event {
    /// The event's number, as [`TRANSPORT_RESET`].
    pub event: u32,
    /// The logical unit that it is about, if any.
    pub address: Option<Address>,
    /// The event's reason.
    pub reason: u32,
}

/// Makes the bytes of an event (VIRTIO 1.2 §5.6.6.3), about a unit of a LUN up to 16,383 or about none.
pub fn write_event(event: &Event) -> [u8; EVENT_BYTES]
    requires { ForSome event.now.address (λ a. a.lun < 16384) }
    ensures { result ≡ event_bytes event.now }
{
    let mut bytes = [0; EVENT_BYTES];
    LittleEndian::write_u32(&mut bytes, event.event);
    if let Some(address) = &event.address {
        bytes[4..12].copy_from_slice(&write_lun(address));
    }
    LittleEndian::write_u32(&mut bytes[12..], event.reason);
    bytes
}
