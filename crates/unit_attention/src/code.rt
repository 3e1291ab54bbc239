//! The additional sense code of a unit attention condition.

/// An additional sense code and its qualifier (SPC-4 §4.5.6). The default, 00/00, is NO ADDITIONAL
/// SENSE INFORMATION.
#[derive(Clone, Copy, Debug, Default, PartialEq, Eq)]
pub struct Code {
    /// ADDITIONAL SENSE CODE.
    pub asc: u8,
    /// ADDITIONAL SENSE CODE QUALIFIER.
    pub ascq: u8,
}

impl Code {
    /// POWER ON, RESET, OR BUS DEVICE RESET OCCURRED (29/00).
    pub const POWER_ON_OR_RESET: Code = Code {
        asc: 0x29,
        ascq: 0x00,
    };

    /// BUS DEVICE RESET FUNCTION OCCURRED (29/03).
    pub const BUS_DEVICE_RESET_FUNCTION: Code = Code {
        asc: 0x29,
        ascq: 0x03,
    };

    /// I_T NEXUS LOSS OCCURRED (29/07).
    pub const I_T_NEXUS_LOSS: Code = Code {
        asc: 0x29,
        ascq: 0x07,
    };

    /// CAPACITY DATA HAS CHANGED (2A/09).
    pub const CAPACITY_DATA_CHANGED: Code = Code {
        asc: 0x2a,
        ascq: 0x09,
    };
}
