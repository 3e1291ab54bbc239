//! The standard data of INQUIRY (SPC-4 §6.6.2).

ghost use Rattle.std.specs.Prelude.{◌≡◌};
ghost use Rattle.command_model.specs.StandardData.{standard_data};

/// Byte 0 of the standard data of a LUN that has no device.
pub(crate) const NO_DEVICE: u8 = 0x7f;

/// Returns the standard data, with this byte 0.
#[tactic(auto, unfolding(crate::specs::StandardData::standard_data))]
pub fn standard_data(peripheral: u8) -> [u8; 36]
    ensures { result ≡ standard_data peripheral }
{
    let mut data = *b"\x00\x00\x06\x02\x1f\x00\x00\x02VSCSI   TASK SET DISK   0001";
    data[0] = peripheral;
    data
}
