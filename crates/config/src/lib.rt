//! Says which device is wanted, and why a configuration isn't taken.
//!
//! # Proved
//!
//! A configuration is refused exactly where it lies outside the limits, by its cause and index.
#![tactic(auto)]

mod config;
mod config_fault;

pub use config::{
    ACCEPTED_FEATURES, CHANGE, Config, EVENT_IDX, FEATURES, INDIRECT_DESC, RING_PACKED, StartFault,
    VERSION_1, form, tells_changes,
};
pub use config_fault::{ConfigFault, MOST_BLOCKS, MOST_DESCRIPTORS};
pub use request_intake::{Identity, Profile, UnitSpec};
pub use ring_core::{Layout, LayoutFault};
