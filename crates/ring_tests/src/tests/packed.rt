//! Tests of a packed queue.

pub(super) mod begins;
pub(super) mod notices;
pub(super) mod rows;
pub(super) mod tables;
mod wrapping;

use ring_core::{FIRST_INDEX, Layout};

/// The flags of a slot that the driver makes available while its wrap counter is 1.
const AVAILABLE: u16 = 0x80;

/// The same while its wrap counter is 0.
const AVAILABLE_AT_0: u16 = 0x8000;

/// Where a queue lies.
const PLACE: Layout = Layout {
    size: 7,
    desc: 0,
    driver: 4096,
    device: 8192,
    first_available: FIRST_INDEX,
    first_used: FIRST_INDEX,
};
