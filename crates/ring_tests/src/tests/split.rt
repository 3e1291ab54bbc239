//! Tests of a split queue.

pub(super) mod begins;
pub(super) mod faults;
mod notices;
pub(super) mod rows;
pub(super) mod tables;
mod wrapping;

use ring_core::{FIRST_INDEX, Layout};

/// Where a queue lies.
pub(super) const PLACE: Layout = Layout {
    size: 8,
    desc: 0,
    driver: 4096,
    device: 8192,
    first_available: FIRST_INDEX,
    first_used: FIRST_INDEX,
};
