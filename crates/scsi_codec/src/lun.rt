//! The eight bytes that name a logical unit.

ghost use Rattle.std.specs.Prelude.{◌≡◌, ◌<◌, ◌^◌, length};
ghost use Rattle.scsi_codec.specs.Lun.{ReadsAddress, address_at, address_in, number_of, written_address};

/// The address of a logical unit of the host (VIRTIO 1.2 §5.6.6.1).
#[derive(Clone, Copy, Debug, Default, PartialEq, Eq)]
pub struct Address {
    /// The target, 0 to 255.
    pub target: u8,
    /// The logical unit number, 0 to 16,383.
    pub lun: u16,
}

impl Address {
    /// Returns the address as one number, in which the target stands above the LUN. Two addresses are one exactly where
    /// their numbers are.
    pub fn number(&self) -> u32
        ensures number { result ≡ number_of self.now }
        ensures range { result < 2 ^ 24 }
        ensures address { address_at result ≡ self.now }
    {
        u32::from(self.target) * 65_536 + u32::from(self.lun)
    }

    /// Returns the address of a number.
    pub fn of_number(number: u32) -> Address
        requires { number < 2 ^ 24 }
        ensures { result ≡ address_at number }
    {
        Address {
            target: (number / 65_536) as u8,
            lun: (number % 65_536) as u16,
        }
    }
}

/// Reads the unit that the bytes name, by either addressing method of a single level LUN (SAM-5 §4.7), or `None` where
/// they name none.
pub fn read_lun(bytes: &[u8; 8]) -> Option<Address>
    ensures reads { ReadsAddress bytes.now result }
    ensures value { result ≡ address_in bytes.now }
{
    match *bytes {
        [0x01, target, 0x00, low, 0, 0, 0, 0] => Some(Address {
            target,
            lun: u16::from(low),
        }),
        [0x01, target, high @ 0x40..=0x7f, low, 0, 0, 0, 0] => Some(Address {
            target,
            lun: u16::from(high - 0x40) * 256 + u16::from(low),
        }),
        _ => None,
    }
}

/// Returns the unit that eight bytes of a longer layout name.
pub(crate) fn read_lun_field(bytes: &[u8]) -> Option<Address>
    requires { length bytes.now ≡ 8 }
    ensures reads { ReadsAddress bytes.now result }
    ensures value { result ≡ address_in bytes.now }
{
    read_lun(bytes.try_into().ok()?)
}

/// Makes the bytes that name a unit of a LUN up to 16,383: by peripheral device addressing below LUN 256, else by flat
/// space addressing.
pub fn write_lun(address: &Address) -> [u8; 8]
    requires { address.now.lun < 16384 }
    ensures { result ≡ written_address address.now }
{
    let high = (address.lun / 256) as u8;
    let low = (address.lun % 256) as u8;
    let method = if address.lun < 256 { 0x00 } else { 0x40 };
    [0x01, address.target, method + high, low, 0, 0, 0, 0]
}
