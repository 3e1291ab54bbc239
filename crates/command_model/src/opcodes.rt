//! The opcodes that a CDB still has when it is refused.

/// The opcode of REQUEST SENSE.
pub const REQUEST_SENSE: u8 = 0x03;

/// The opcode of INQUIRY.
pub const INQUIRY: u8 = 0x12;
