//! Names a disk to a host, as a configuration has it.

ghost use Rattle.std.specs.Prelude.{◌≡◌};
ghost use Rattle.command_model.specs.Identity.{is_identity, is_rate, is_naa, are_printable};

use sense::SenseFormat;

/// The most bytes of a serial number that a configuration gives.
pub const SERIAL_BYTES: usize = 20;

/// Names a disk to a host, and tells what its blocks don't show. A unit of the wide profile tells it by INQUIRY, READ
/// CAPACITY (16) and MODE SENSE. One of the narrow profile tells [`Identity::PLAIN`].
#[derive(Clone, Copy, Debug, PartialEq, Eq)]
pub struct Identity {
    /// The T10 VENDOR IDENTIFICATION: printable ASCII, with spaces behind (SPC-4 §6.6.2).
    pub vendor: [u8; 8],
    /// The PRODUCT IDENTIFICATION: the same.
    pub product: [u8; 16],
    /// The PRODUCT REVISION LEVEL: the same.
    pub revision: [u8; 4],
    /// The serial number: so many bytes from the front as `serial_len` says, printable ASCII (SPC-4 §7.8.15).
    pub serial: [u8; SERIAL_BYTES],
    /// The number of bytes of the serial number, at most 20. 0: it is made of the unit's address.
    pub serial_len: u8,
    /// An NAA designator that names this disk alone, of NAA 3h or 5h, if any (SPC-4 §7.8.6.6).
    pub naa: Option<[u8; 8]>,
    /// A physical block has 2 to this power logical blocks, 0 to 15 (SBC-3 §5.16.2).
    pub physical_exponent: u8,
    /// The MEDIUM ROTATION RATE: 0 isn't told, 1 doesn't rotate, else revolutions a minute, 0401h to FFFEh (SBC-3 §6.6.2).
    pub rotation_rate: u16,
    /// The format of the sense data that it sends beside a status: D_SENSE (SPC-4 §7.5.8).
    pub sense_format: SenseFormat,
    /// True if the unit has a volatile write cache: WCE (SBC-3 §6.5).
    pub write_cache: bool,
    /// True if the medium may not be changed: WP (SBC-3 §6.5.1). Commands that would change it are refused.
    pub read_only: bool,
}

impl Identity {
    /// Names a disk of which a configuration says nothing.
    pub const PLAIN: Identity = Identity {
        vendor: *b"VSCSI   ",
        product: *b"TASK SET DISK   ",
        revision: *b"0001",
        serial: [0; SERIAL_BYTES],
        serial_len: 0,
        naa: None,
        physical_exponent: 0,
        rotation_rate: 1,
        sense_format: SenseFormat::Fixed,
        write_cache: false,
        read_only: false,
    };

    /// Returns true if a unit may have it: its texts are printable, its NAA, exponent and rotation rate the standards'.
    pub fn is_valid(&self) -> bool
        ensures { result ≡ is_identity self.now }
    {
        are_printable(&self.vendor)
            && are_printable(&self.product)
            && are_printable(&self.revision)
            && self.serial_len as usize <= SERIAL_BYTES
            && are_printable(&self.serial[..self.serial_len as usize])
            && is_naa(&self.naa)
            && self.physical_exponent <= 15
            && is_rate(self.rotation_rate)
    }
}

/// Returns true if bytes are printable ASCII, a space among it.
fn are_printable(text: &[u8]) -> bool
    ensures { result ≡ are_printable text.now }
{
    text.iter().all(|byte| 0x20 <= *byte && *byte <= 0x7e)
}

/// Returns true if there is no designator, or one that begins with NAA 3h or 5h.
fn is_naa(naa: &Option<[u8; 8]>) -> bool
    ensures { result ≡ is_naa naa.now }
{
    match naa {
        None => true,
        Some(bytes) => bytes[0] / 16 == 3 || bytes[0] / 16 == 5,
    }
}

/// Returns true if a medium may have this rotation rate.
fn is_rate(rate: u16) -> bool
    ensures { result ≡ is_rate rate }
{
    rate <= 1 || (0x0401 <= rate && rate <= 0xfffe)
}
